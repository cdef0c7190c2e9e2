//! One open conditional: what its test and its words make of it, and how it is kept.
ghost use Rattle.std.specs.Prelude.{◌≡◌, ◌∷◌, List, IsTrue, Some, None, IfOk, IfErr, option_to_list};
ghost use Rattle.tx_cond.specs.declared.types.Conditional.{Conditional};
ghost use Rattle.tx_cond.specs.Conditionals.{is_test, skips, decide, decided, behind_word};

use crate::types::Conditional;
use std::alloc::AllocError;
use tx_list::Kept;
use tx_prim::CondWord;
use tx_seen::TexError;

impl Kept for Conditional {
    fn share(&self) -> Result<Self, AllocError> {
        Ok(*self)
    }

    fn same(&self, other: &Self) -> bool {
        *self == *other
    }
}

impl Conditional {
    /// Whether its test is being scanned.
    pub(crate) fn is_tested(self) -> bool
        ensures { result ≡ is_test self }
    {
        matches!(self, Conditional::Testing { .. })
    }

    /// Whether its text is skipped.
    pub(crate) fn is_skipping(self) -> bool
        ensures { result ≡ skips self }
    {
        match self {
            Conditional::AwaitingOr { .. }
            | Conditional::AwaitingElse { .. }
            | Conditional::Ending => true,
            Conditional::Testing { .. } | Conditional::Live { .. } | Conditional::LastBranch => {
                false
            }
        }
    }

    /// The conditional whose test has this value.
    pub(crate) fn with_value(cases: bool, branch: i64) -> Conditional
        ensures { result ≡ decided cases branch }
    {
        if !cases {
            return if branch == 0 {
                Conditional::AwaitingElse { cases: false }
            } else {
                Conditional::Live { cases: false }
            };
        }
        if branch == 0 {
            Conditional::Live { cases: true }
        } else if branch > 0 {
            Conditional::AwaitingOr {
                others: branch as u64 - 1,
            }
        } else {
            Conditional::AwaitingElse { cases: true }
        }
    }

    /// What it is once its test has this value; as it is where its test isn't being scanned.
    pub(crate) fn settled(self, branch: i64) -> Conditional
        ensures { IsTrue (is_test self) → (outer : List Conditional) → decide branch (self ∷ outer) ≡ result ∷ outer }
    {
        match self {
            Conditional::Testing { cases } => Conditional::with_value(cases, branch),
            Conditional::AwaitingOr { .. }
            | Conditional::AwaitingElse { .. }
            | Conditional::Live { .. }
            | Conditional::Ending
            | Conditional::LastBranch => self,
        }
    }

    /// What a word makes of it: what it waits for then, or nothing where it has ended.
    pub(crate) fn behind(self, word: CondWord) -> Result<Option<Conditional>, TexError>
        ensures ok { IfOk result (λ next. behind_word self word ≡ Some (option_to_list next)) }
        ensures extra { IfErr result (λ error. (behind_word self word ≡ None) × (error ≡ TexError.ExtraConditionalWord)) }
    {
        match (self, word) {
            (Conditional::Testing { .. }, _) => Ok(Some(self)),
            (_, CondWord::Fi) => Ok(None),
            (Conditional::LastBranch, _) => Err(TexError::ExtraConditionalWord),
            (Conditional::Ending, _) => Ok(Some(Conditional::Ending)),
            (Conditional::AwaitingOr { .. } | Conditional::AwaitingElse { .. }, CondWord::Else) => {
                Ok(Some(Conditional::LastBranch))
            }
            (Conditional::Live { .. }, CondWord::Else) => Ok(Some(Conditional::Ending)),
            (Conditional::AwaitingOr { others: 0 }, CondWord::Or) => {
                Ok(Some(Conditional::Live { cases: true }))
            }
            (Conditional::AwaitingOr { others }, CondWord::Or) => {
                Ok(Some(Conditional::AwaitingOr { others: others - 1 }))
            }
            (Conditional::AwaitingElse { cases: true }, CondWord::Or) => Ok(Some(self)),
            (Conditional::Live { cases: true }, CondWord::Or) => Ok(Some(Conditional::Ending)),
            (_, CondWord::Or) => Err(TexError::ExtraConditionalWord),
        }
    }
}
