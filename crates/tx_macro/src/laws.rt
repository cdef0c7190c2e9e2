//! The theorems that the arguments of a use are what stands in it, and that it is read from the left.
ghost use Rattle.std.specs.Prelude.{◌≡◌, ◌++◌, List};
ghost use Rattle.tx_char.specs.declared.tokens.Token.{Token};
ghost use Rattle.tx_toklist.specs.Macros.{Definition};
ghost use Rattle.tx_macro.specs.Matching.{Fits, Open, ReadsOn, use_of};
ghost use Rattle.tx_macro.specs.Standing.{IsUse};

/// Where tokens fit a macro's parameter text, they are the tokens before its first parameter, and then for each parameter
/// its argument as it stands and its delimiter: each argument is balanced, and the shortest one. Tokens are so in one way
/// at most. This call does nothing: its contract is the theorem.
pub fn arguments_are_what_stands_in_a_use()
    ensures stands { (m : Definition) (tokens : List Token) (texts : List (List Token)) → use_of m tokens ≡ Fits texts → (rest : List Token) × IsUse m tokens texts rest }
    ensures only { (m : Definition) (tokens : List Token) (texts : List (List Token)) (rest : List Token) (others : List (List Token)) (left : List Token) → IsUse m tokens texts rest → IsUse m tokens others left → (texts ≡ others) × (rest ≡ left) }
{}

/// Where tokens fit or fail, they do so with anything behind them; and where they are open, some tokens make them fit.
/// This call does nothing: its contract is the theorem.
pub fn uses_are_read_from_the_left()
    ensures stands { (m : Definition) (tokens more : List Token) → ReadsOn (use_of m tokens) (use_of m (tokens ++ more)) }
    ensures part { (m : Definition) (tokens : List Token) → use_of m tokens ≡ Open → (more : List Token) × (texts : List (List Token)) × (use_of m (tokens ++ more) ≡ Fits texts) }
{}
