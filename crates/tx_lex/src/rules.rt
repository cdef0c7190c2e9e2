//! The theorem that the rules of reading leave no choice.
ghost use Rattle.std.specs.Prelude.{◌≡◌, ℕ, List};
ghost use Rattle.tx_char.specs.declared.category.Cat.{Cat};
ghost use Rattle.tx_lex.specs.declared.types.ReadState.{ReadState};
ghost use Rattle.tx_lex.specs.Reading.{Reading, reading};
ghost use Rattle.tx_lex.specs.Rules.{IsReading};

/// The rules of reading, each by itself, give each line one reading in each state, and no other. It is the one that
/// `lex` gives. This call does nothing: its contract is the theorem.
pub fn the_rules_leave_no_choice()
    ensures follows { (codes : List Cat) (state : ReadState) (line : List ℕ) → IsReading codes state line (reading codes state line) }
    ensures only { (codes : List Cat) (state : ReadState) (line : List ℕ) (other : Reading) → IsReading codes state line other → other ≡ reading codes state line }
{}
