//! The theorem that skipping by a count is skipping to the first word that belongs to no conditional within the text.
ghost use Rattle.std.specs.Prelude.{ℕ, [], ◌∷◌, ◌++◌, List};
ghost use Rattle.tx_cond.specs.declared.types.SkipItem.{SkipItem};
ghost use Rattle.tx_cond.specs.Skipping.{passing, HasSkipped, IsSkip};

/// Nothing is open at first; and behind items that are skipped, what one more makes of the text by the number of those that
/// are open is what skipping gives of the whole list of items. This call does nothing: its contract is the theorem.
pub fn skipping_counts_conditionals()
    ensures first { HasSkipped 0 [] }
    ensures next { (inside : ℕ) (taken : List SkipItem) (item : SkipItem) → HasSkipped inside taken → IsSkip (passing inside item) (taken ++ item ∷ []) }
{}
