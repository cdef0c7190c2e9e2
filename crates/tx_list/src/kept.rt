//! What is asked of a value that can be kept.
ghost use Rattle.std.specs.Prelude.{◌≡◌, ◌↔◌, IsTrue, IfOk};

use std::alloc::AllocError;

/// A value that can be kept: a second one like it can be made, and two of them can be compared.
pub trait Kept: Drop {
    /// A second value, equal to this one. Its only error is want of memory.
    fn share(&self) -> Result<Self, AllocError>
        ensures { IfOk result (λ twin. twin ≡ self.now) };

    /// Whether both are equal.
    fn same(&self, other: &Self) -> bool
        ensures { IsTrue result ↔ (self.now ≡ other.now) };
}

impl Kept for u8 {
    fn share(&self) -> Result<Self, AllocError> {
        Ok(*self)
    }

    fn same(&self, other: &Self) -> bool {
        *self == *other
    }
}

impl Kept for i32 {
    fn share(&self) -> Result<Self, AllocError> {
        Ok(*self)
    }

    fn same(&self, other: &Self) -> bool {
        *self == *other
    }
}

impl Kept for usize {
    fn share(&self) -> Result<Self, AllocError> {
        Ok(*self)
    }

    fn same(&self, other: &Self) -> bool {
        *self == *other
    }
}
