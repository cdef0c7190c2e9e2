//! The numbers that wait for others.
ghost use Rattle.std.specs.Prelude.{◌≡◌, []};

use crate::scans::Outer;
use std::alloc::AllocError;
use tx_list::{Kept, Stack};

impl Kept for Outer {
    fn share(&self) -> Result<Self, AllocError> {
        Ok(*self)
    }

    fn same(&self, other: &Self) -> bool {
        self.negative == other.negative && self.kind == other.kind
    }
}

/// No number waits any more.
pub(crate) fn forget(outers: &mut Stack<Outer>)
    ensures { outers.new ≡ [] }
{
    while let Some(_) = outers.pop() {}
}
