//! The values that an assignment needs while it is read.
ghost use Rattle.std.specs.Prelude.{◌≡◌, ◌≤◌, ◌∷◌, ◌++◌, [], List, IfOk};
ghost use Rattle.tx_seen.specs.declared.item.Item.{Item};
ghost use Rattle.tx_seen.specs.declared.item.Item.TheVariants.{Gave, Took};
ghost use Rattle.tx_seen.specs.Readings.{Answers, last};
ghost use Rattle.tx_scan.specs.Rests.{IsGivenBy};
ghost use Rattle.tx_scan.specs.Supplied.{NeedsFewer};
ghost use Rattle.tx_assign.specs.Assignments.{assignment};
ghost use Rattle.tx_assign.specs.declared.types.Assigning.{Assigning};
ghost use Rattle.tx_assign.specs.Rests.{HasTaken, IsGiven, IsWaiting, WaitsIfNeeded, held, more_needed, rest, told};

use crate::scan::{AssignScan, AssignStage};
use crate::types::Purpose;
use std::alloc::AllocError;
use tx_prim::{Numbered, Operation};
use tx_seen::{Fed, Seen, TexError, Value};

impl AssignScan {
    /// Takes the value that it needs, where this token was taken last. The answer, with what the scan has made, is what reading
    /// gives of all that was taken. Its only error is want of memory.
    #[inline(always)]
    pub fn give(&mut self, value: &Value, behind: &Seen) -> Result<Fed<()>, AllocError>
        requires waits { IsWaiting self.old }
        ensures answer { (assigning : Assigning) → (taken : List Item) → HasTaken assigning self.old taken → last 1 taken ≡ Took behind.now ∷ [] → IfOk result (λ fed. Answers (assignment assigning) (HasTaken assigning) (taken ++ Gave value.now ∷ []) self.new (told self.new fed)) }
        ensures part { IfOk result (IsGiven self.old value.now behind.now self.new) }
        ensures fewer { IfOk result (NeedsFewer (more_needed self.old) (more_needed self.new)) }
        ensures waits { IfOk result (WaitsIfNeeded self.new) }
    {
        self.behind_value(value, behind)
    }

    /// What it is behind a value. Its only error is want of memory.
    fn behind_value(&mut self, value: &Value, behind: &Seen) -> Result<Fed<()>, AllocError>
        requires waits { IsWaiting self.old }
        ensures part { IfOk result (IsGiven self.old value.now behind.now self.new) }
        ensures fewer { IfOk result (NeedsFewer (more_needed self.old) (more_needed self.new)) }
        ensures waits { IfOk result (WaitsIfNeeded self.new) }
    {
        match self.stage {
            AssignStage::Number(kind, operation) => {
                self.give_number(kind, operation, value, behind)
            }
            AssignStage::Integer(purpose) => Ok(self.give_integer(purpose, value)),
            AssignStage::LetName | AssignStage::LetBehindName => {
                Ok(Fed::Wrong(TexError::MissingName))
            }
            AssignStage::LetBehindEquals | AssignStage::LetToken => {
                Ok(Fed::Wrong(TexError::MissingName))
            }
            AssignStage::Operand(_) => Ok(Fed::Wrong(TexError::NoAssignment)),
            AssignStage::Equals(_) => Ok(Fed::Wrong(TexError::MissingNumber)),
            AssignStage::By(_, _) => Ok(Fed::Wrong(TexError::MissingNumber)),
            AssignStage::Size(purpose) => self.give_size(purpose, value),
            AssignStage::Glue(purpose) => self.give_glue(purpose, value, behind),
            AssignStage::List => Ok(Fed::Wrong(TexError::MissingNumber)),
        }
    }

    /// The value that the number of a register or a code waits for. Its only error is want of memory.
    fn give_number(
        &mut self,
        kind: Numbered,
        operation: Option<Operation>,
        value: &Value,
        behind: &Seen,
    ) -> Result<Fed<()>, AllocError>
        requires stage { self.old.stage ≡ AssignStage.Number kind operation }
        requires few { held self.old ≤ 1 }
        ensures part { IfOk result (IsGiven self.old value.now behind.now self.new) }
        ensures fewer { IfOk result (NeedsFewer (more_needed self.old) (more_needed self.new)) }
        ensures waits { IfOk result (WaitsIfNeeded self.new) }
    {
        match self.integer.give(value) {
            Fed::More(want) => Ok(Fed::More(want)),
            Fed::Need(wanted) => Ok(Fed::Need(wanted)),
            Fed::Done(number, 0) => Ok(self.end_number(kind, operation, number)),
            Fed::Done(number, _) => self.feed_behind_number(kind, operation, number, behind),
            Fed::Wrong(error) => Ok(Fed::Wrong(error)),
        }
    }

    /// The value that a number waits for.
    fn give_integer(&mut self, purpose: Purpose, value: &Value) -> Fed<()>
        requires stage { self.old.stage ≡ AssignStage.Integer purpose }
        requires few { held self.old ≤ 1 }
        ensures part { IsGivenBy rest held self.old value.now self.new (told self.new result) }
        ensures fewer { NeedsFewer (more_needed self.old) (more_needed self.new) result }
        ensures waits { WaitsIfNeeded self.new result }
    {
        match self.integer.give(value) {
            Fed::More(want) => Fed::More(want),
            Fed::Need(wanted) => Fed::Need(wanted),
            Fed::Done(number, back) => self.end_integer(purpose, number, back),
            Fed::Wrong(error) => Fed::Wrong(error),
        }
    }

    /// The value that a size waits for. Its only error is want of memory.
    fn give_size(&mut self, purpose: Purpose, value: &Value) -> Result<Fed<()>, AllocError>
        requires stage { self.old.stage ≡ AssignStage.Size purpose }
        requires few { held self.old ≤ 1 }
        ensures part { IfOk result (λ fed. IsGivenBy rest held self.old value.now self.new (told self.new fed)) }
        ensures fewer { IfOk result (NeedsFewer (more_needed self.old) (more_needed self.new)) }
        ensures waits { IfOk result (WaitsIfNeeded self.new) }
    {
        match self.size.give(value)? {
            Fed::More(want) => Ok(Fed::More(want)),
            Fed::Need(wanted) => Ok(Fed::Need(wanted)),
            Fed::Done(measure, back) => Ok(self.end_size(purpose, measure, back)),
            Fed::Wrong(error) => Ok(Fed::Wrong(error)),
        }
    }

    /// The value that glue waits for. Its only error is want of memory.
    fn give_glue(
        &mut self,
        purpose: Purpose,
        value: &Value,
        behind: &Seen,
    ) -> Result<Fed<()>, AllocError>
        requires stage { self.old.stage ≡ AssignStage.Glue purpose }
        requires waits { IsWaiting self.old }
        ensures part { IfOk result (IsGiven self.old value.now behind.now self.new) }
        ensures fewer { IfOk result (NeedsFewer (more_needed self.old) (more_needed self.new)) }
        ensures waits { IfOk result (WaitsIfNeeded self.new) }
    {
        match self.glue.give(value, behind)? {
            Fed::More(want) => Ok(Fed::More(want)),
            Fed::Need(wanted) => Ok(Fed::Need(wanted)),
            Fed::Done(glue, back) => Ok(self.end_glue(purpose, glue, back)),
            Fed::Wrong(error) => Ok(Fed::Wrong(error)),
        }
    }
}
