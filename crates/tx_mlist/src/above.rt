//! Fractions that aren't finished (TeX: The Program, section 1181).
ghost use Rattle.std.specs.Prelude.{◌≡◌, ◌↔◌, IsTrue};

use crate::kinds::FractionHead;
use crate::noad::InnerList;
use crate::same::{same_head, same_inner};
use std::alloc::AllocError;

/// What stands above the line of a fraction that isn't finished, and what the fraction is beside its lists.
#[derive(Drop)]
pub struct Above {
    pub head: FractionHead,
    pub numerator: InnerList,
}

impl Above {
    /// Whether both are equal.
    pub fn same(&self, other: &Above) -> bool
        ensures { IsTrue result ↔ (self.now ≡ other.now) }
    {
        same_head(self.head, other.head) && same_inner(&self.numerator, &other.numerator)
    }
}

/// A clone is the same. Its only error is want of memory.
impl Clone for Above {
    ghost is_clone = { λ source copy. copy ≡ source };

    fn clone(&self) -> Result<Self, AllocError> {
        Ok(Above {
            head: self.head,
            numerator: self.numerator.clone()?,
        })
    }
}
