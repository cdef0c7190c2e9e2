//! The numbers, sizes and glue in assignments, token by token and value by value.
ghost use Rattle.std.specs.Prelude.{◌≡◌, ◌≤◌, ◌+◌, ◌≤ℤ◌, ◌∷◌, ◌++◌, [], pos, neg_ℤ, List, length, IfOk};
ghost use Rattle.tx_seen.specs.declared.item.Item.{Item};
ghost use Rattle.tx_seen.specs.declared.item.Item.TheVariants.{Took};
ghost use Rattle.tx_seen.specs.declared.seen.Seen.{Seen};
ghost use Rattle.tx_seen.specs.Readings.{next};
ghost use Rattle.tx_scan.specs.Rests.{IsEnd, IsRead};
ghost use Rattle.tx_scan.specs.Supplied.{NeedsNoMore};
ghost use Rattle.tx_scan.specs.IntegerRests as integers;
ghost use Rattle.tx_scan.specs.DimensionRests as sizes;
ghost use Rattle.tx_scan.specs.GlueRests as glues;
ghost use Rattle.tx_assign.specs.Assignments.{behind_number, elastic, number_value, sized, value, valued};
ghost use Rattle.tx_assign.specs.Rests.{IsAssigning, IsBehind, IsFed, WaitsIfNeeded, held, more_needed, rest, told};

use crate::scan::{AssignScan, AssignStage};
use crate::types::Purpose;
use std::alloc::AllocError;
use tx_num::Glue;
use tx_prim::{Numbered, Operation};
use tx_scan::{Measure, byte};
use tx_seen::{Fed, Place, Seen, TexError};

// The only error of each of these is want of memory.
impl AssignScan {
    /// A value comes next.
    pub(crate) fn to_value(&mut self, purpose: Purpose) -> Fed<()>
        ensures answer { (t : Seen) → IsAssigning 0 (λ more. value purpose self.old.place more) t self.new result }
        ensures needed { NeedsNoMore (integers.waiting self.old.integer) (more_needed self.new) result }
        ensures waits { WaitsIfNeeded self.new result }
    {
        if purpose.takes_list(&self.place) {
            self.on(AssignStage::List)
        } else {
            self.to_number(purpose)
        }
    }

    /// A number, a size or glue comes next.
    fn to_number(&mut self, purpose: Purpose) -> Fed<()>
        ensures answer { (t : Seen) → IsAssigning 0 (λ more. number_value purpose self.old.place more) t self.new result }
        ensures needed { NeedsNoMore (integers.waiting self.old.integer) (more_needed self.new) result }
        ensures waits { WaitsIfNeeded self.new result }
    {
        if purpose.takes_glue(&self.place) {
            self.glue.restart(self.place.is_muglue());
            self.on(AssignStage::Glue(purpose))
        } else if purpose.takes_size(&self.place) {
            self.size.restart(false, false);
            self.on(AssignStage::Size(purpose))
        } else {
            self.integer.restart();
            self.on(AssignStage::Integer(purpose))
        }
    }

    /// The first token of a value.
    pub(crate) fn feed_value(
        &mut self,
        purpose: Purpose,
        token: &Seen,
    ) -> Result<Fed<()>, AllocError>
        ensures answer { IfOk result (IsBehind (λ more. value purpose self.old.place (Took token.now ∷ more)) token.now self.new) }
        ensures needed { IfOk result (NeedsNoMore (integers.waiting self.old.integer) (more_needed self.new)) }
        ensures waits { IfOk result (WaitsIfNeeded self.new) }
    {
        if purpose.takes_list(&self.place) {
            Ok(self.feed_list(token))
        } else {
            self.feed_first(purpose, token)
        }
    }

    /// The first token of a number, a size or glue.
    fn feed_first(&mut self, purpose: Purpose, token: &Seen) -> Result<Fed<()>, AllocError>
        ensures answer { IfOk result (IsBehind (λ more. number_value purpose self.old.place (Took token.now ∷ more)) token.now self.new) }
        ensures needed { IfOk result (NeedsNoMore (integers.waiting self.old.integer) (more_needed self.new)) }
        ensures waits { IfOk result (WaitsIfNeeded self.new) }
    {
        if purpose.takes_glue(&self.place) {
            self.glue.restart(self.place.is_muglue());
            self.feed_glue(purpose, token)
        } else if purpose.takes_size(&self.place) {
            self.size.restart(false, false);
            self.feed_size(purpose, token)
        } else {
            self.integer.restart();
            self.feed_integer(purpose, token)
        }
    }

    /// A number that is given.
    pub(crate) fn feed_integer(
        &mut self,
        purpose: Purpose,
        token: &Seen,
    ) -> Result<Fed<()>, AllocError>
        ensures answer { IfOk result (λ answer. (behind : List Item) → IsAssigning (integers.most self.old.integer) (λ more. next (integers.rest self.old.integer behind (Took token.now) more) (valued purpose self.old.place)) token.now self.new answer) }
        ensures needed { IfOk result (NeedsNoMore (integers.waiting self.old.integer) (more_needed self.new)) }
        ensures waits { IfOk result (WaitsIfNeeded self.new) }
    {
        self.stage = AssignStage::Integer(purpose);
        match self.integer.feed(token)? {
            Fed::More(want) => Ok(Fed::More(want)),
            Fed::Need(kind) => Ok(Fed::Need(kind)),
            Fed::Done(number, back) => Ok(self.end_integer(purpose, number, back)),
            Fed::Wrong(error) => Ok(Fed::Wrong(error)),
        }
    }

    /// The number is whole; so many tokens behind it are given back.
    #[inline(never)]
    pub(crate) fn end_integer(&mut self, purpose: Purpose, number: i64, back: usize) -> Fed<()>
        ensures { IsEnd (λ more. valued purpose self.old.place number more) back (told self.new result) }
    {
        if !purpose.takes(&self.place, number) {
            return Fed::Wrong(TexError::NumberOutOfRange);
        }
        let change = purpose.change_by(&self.place, number);
        self.end(change, back)
    }

    /// A size that is given.
    #[inline(never)]
    pub(crate) fn feed_size(
        &mut self,
        purpose: Purpose,
        token: &Seen,
    ) -> Result<Fed<()>, AllocError>
        ensures answer { IfOk result (λ answer. (behind : List Item) → IsAssigning (sizes.most self.old.size) (λ more. next (sizes.rest self.old.size behind (Took token.now) more) (sized purpose self.old.place)) token.now self.new answer) }
        ensures needed { IfOk result (NeedsNoMore (sizes.more_needed self.old.size) (more_needed self.new)) }
        ensures waits { IfOk result (WaitsIfNeeded self.new) }
    {
        self.stage = AssignStage::Size(purpose);
        match self.size.feed(token)? {
            Fed::More(want) => Ok(Fed::More(want)),
            Fed::Need(kind) => Ok(Fed::Need(kind)),
            Fed::Done(measure, back) => Ok(self.end_size(purpose, measure, back)),
            Fed::Wrong(error) => Ok(Fed::Wrong(error)),
        }
    }

    /// The size is whole; so many tokens behind it are given back.
    pub(crate) fn end_size(&mut self, purpose: Purpose, measure: Measure, back: usize) -> Fed<()>
        requires low { neg_ℤ (pos 1073741823) ≤ℤ measure.size }
        requires high { measure.size ≤ℤ pos 1073741823 }
        ensures { IsEnd (λ more. sized purpose self.old.place measure more) back (told self.new result) }
    {
        let change = purpose.change_by_size(measure.size);
        self.end(change, back)
    }

    /// Glue that is given.
    #[inline(never)]
    pub(crate) fn feed_glue(
        &mut self,
        purpose: Purpose,
        token: &Seen,
    ) -> Result<Fed<()>, AllocError>
        ensures answer { IfOk result (λ answer. (behind : List Item) → length behind ≤ glues.held self.old.glue → IsRead rest held (glues.held self.old.glue + 1) (λ more. next (glues.rest self.old.glue behind (Took token.now) more) (elastic purpose self.old.place)) (behind ++ Took token.now ∷ []) self.new (told self.new answer)) }
        ensures needed { IfOk result (NeedsNoMore (glues.more_needed self.old.glue) (more_needed self.new)) }
        ensures waits { IfOk result (WaitsIfNeeded self.new) }
    {
        self.stage = AssignStage::Glue(purpose);
        match self.glue.feed(token)? {
            Fed::More(want) => Ok(Fed::More(want)),
            Fed::Need(kind) => Ok(Fed::Need(kind)),
            Fed::Done(glue, back) => Ok(self.end_glue(purpose, glue, back)),
            Fed::Wrong(error) => Ok(Fed::Wrong(error)),
        }
    }

    /// The glue is whole; so many tokens behind it are given back.
    pub(crate) fn end_glue(&mut self, purpose: Purpose, glue: Glue, back: usize) -> Fed<()>
        ensures { IsEnd (λ more. elastic purpose self.old.place glue more) back (told self.new result) }
    {
        let change = purpose.change_by_glue(glue);
        self.end(change, back)
    }

    /// The number of a register or a code, or what ends it.
    pub(crate) fn feed_number(
        &mut self,
        kind: Numbered,
        operation: Option<Operation>,
        token: &Seen,
    ) -> Result<Fed<()>, AllocError>
        requires { self.old.stage ≡ AssignStage.Number kind operation }
        ensures part { IfOk result (IsFed self.old token.now self.new) }
        ensures needed { IfOk result (NeedsNoMore (more_needed self.old) (more_needed self.new)) }
        ensures waits { IfOk result (WaitsIfNeeded self.new) }
    {
        match self.integer.feed(token)? {
            Fed::More(want) => Ok(Fed::More(want)),
            Fed::Need(wanted) => Ok(Fed::Need(wanted)),
            Fed::Done(number, 0) => Ok(self.end_number(kind, operation, number)),
            Fed::Done(number, _) => self.feed_behind_number(kind, operation, number, token),
            Fed::Wrong(error) => Ok(Fed::Wrong(error)),
        }
    }

    /// The number of a register or a code is whole.
    #[inline(never)]
    pub(crate) fn end_number(
        &mut self,
        kind: Numbered,
        operation: Option<Operation>,
        number: i64,
    ) -> Fed<()>
        ensures answer { (t : Seen) → IsAssigning 0 (λ more. behind_number operation kind number more) t self.new result }
        ensures needed { NeedsNoMore 0 (more_needed self.new) result }
        ensures waits { WaitsIfNeeded self.new result }
    {
        let Some(byte) = byte(number) else {
            return Fed::Wrong(TexError::NumberOutOfRange);
        };
        self.integer.restart();
        self.set_place(Place::numbered(kind, byte));
        self.to_place(operation)
    }

    /// The number of a register or a code is whole, and this token stands behind it.
    #[inline(never)]
    pub(crate) fn feed_behind_number(
        &mut self,
        kind: Numbered,
        operation: Option<Operation>,
        number: i64,
        token: &Seen,
    ) -> Result<Fed<()>, AllocError>
        ensures answer { IfOk result (IsBehind (λ more. behind_number operation kind number (Took token.now ∷ more)) token.now self.new) }
        ensures needed { IfOk result (NeedsNoMore 0 (more_needed self.new)) }
        ensures waits { IfOk result (WaitsIfNeeded self.new) }
    {
        let Some(byte) = byte(number) else {
            return Ok(Fed::Wrong(TexError::NumberOutOfRange));
        };
        self.integer.restart();
        self.set_place(Place::numbered(kind, byte));
        self.feed_place(operation, token)
    }
}
