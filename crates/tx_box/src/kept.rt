//! What can be kept of the lists: each part can be shared, and compared exactly.
ghost use Rattle.std.specs.Prelude.{◌≡◌, ◌↔◌, IsTrue, IfOk};
ghost use Rattle.tx_box.specs.Beginnings.{first_lists};

use crate::parts::{Lists, OpenBox, OpenFormula, Target, Work};
use std::alloc::{AllocError, Global};
use tx_list::{Kept, Stack, both};
use tx_mlist::Above;
use tx_nest::Nest;
use tx_node::same_box;
use tx_output::Pages;
use tx_prim::BoxKind;
use tx_shape::BoxGoal;

/// Whether two boxes are made in the same way.
fn same_kind(one: BoxKind, other: BoxKind) -> bool
    ensures { IsTrue result ↔ (one ≡ other) }
{
    one == other
}

/// Whether two lists are packed to the same.
fn same_goal(one: BoxGoal, other: BoxGoal) -> bool
    ensures { IsTrue result ↔ (one ≡ other) }
{
    one == other
}

/// Whether the same becomes of two boxes.
fn same_target(one: Target, other: Target) -> bool
    ensures { IsTrue result ↔ (one ≡ other) }
{
    one == other
}

impl Kept for OpenBox {
    fn share(&self) -> Result<Self, AllocError> {
        Ok(*self)
    }

    fn same(&self, other: &Self) -> bool {
        same_kind(self.kind, other.kind)
            && same_goal(self.goal, other.goal)
            && same_target(self.target, other.target)
    }
}

/// Whether the same stands above two lines, or neither has come.
fn same_above(one: &Option<Above>, other: &Option<Above>) -> bool
    ensures { IsTrue result ↔ (one.now ≡ other.now) }
{
    match (one, other) {
        (None, None) => true,
        (Some(one), Some(other)) => one.same(other),
        (None, Some(_)) | (Some(_), None) => false,
    }
}

/// What stands above a line, which shares its noads. Its only error is want of memory.
fn share_above(above: &Option<Above>) -> Result<Option<Above>, AllocError>
    ensures { IfOk result (λ twin. twin ≡ above.now) }
{
    match above {
        None => Ok(None),
        Some(above) => Ok(Some(above.clone()?)),
    }
}

impl Kept for OpenFormula {
    fn share(&self) -> Result<Self, AllocError> {
        Ok(OpenFormula {
            noads: self.noads.clone()?,
            above: share_above(&self.above)?,
        })
    }

    fn same(&self, other: &Self) -> bool {
        self.noads.same(&other.noads) && same_above(&self.above, &other.above)
    }
}

impl Kept for Work {
    fn share(&self) -> Result<Self, AllocError> {
        match self {
            Work::Copy(copied, target) => Ok(Work::Copy(copied.clone()?, *target)),
            Work::CopyList(list) => Ok(Work::CopyList(list.clone()?)),
            Work::Ship(shipped) => Ok(Work::Ship(shipped.clone()?)),
            Work::ShipPage(shipped) => Ok(Work::ShipPage(shipped.clone()?)),
            Work::Build => Ok(Work::Build),
        }
    }

    fn same(&self, other: &Self) -> bool {
        match (self, other) {
            (Work::Copy(one, target), Work::Copy(other, also)) => {
                same_target(*target, *also) && same_box(one, other)
            }
            (Work::CopyList(one), Work::CopyList(other)) => one.same(other),
            (Work::Ship(one), Work::Ship(other)) => same_box(one, other),
            (Work::ShipPage(one), Work::ShipPage(other)) => same_box(one, other),
            (Work::Build, Work::Build) => true,
            _ => false,
        }
    }
}

impl Lists {
    /// The pages' list alone, empty, no box and no formula; takes no memory.
    pub fn new(alloc: Global) -> Lists
        ensures { result ≡ first_lists }
    {
        Lists {
            nest: Nest::new(alloc),
            badness: 0,
            boxes: Stack::new(alloc),
            formulas: Stack::new(alloc),
            pages: Pages::new(alloc),
        }
    }

    /// Whether both are the same lists, of the same boxes.
    pub fn same(&self, other: &Lists) -> bool
        ensures { IsTrue result ↔ (self.now ≡ other.now) }
    {
        self.badness == other.badness
            && self.boxes.same(&other.boxes)
            && self.formulas.same(&other.formulas)
            && self.pages.same(&other.pages)
            && self.nest.same(&other.nest)
    }

    /// Second lists, equal to these, which share their boxes. Its only error is want of memory.
    pub fn share(&self) -> Result<Lists, AllocError>
        ensures { IfOk result (λ twin. twin ≡ self.now) }
    {
        let parts = both(
            both(self.nest.share(), self.formulas.share()),
            both(self.boxes.share(), self.pages.share()),
        );
        let ((nest, formulas), (boxes, pages)) = parts?;
        Ok(Lists {
            nest,
            badness: self.badness,
            boxes,
            formulas,
            pages,
        })
    }
}
