//! Values that may be absent.
ghost use Rattle.std.specs.Prelude.{◌≡◌, ◌↔◌, IsTrue, IfOk};

use crate::kept::Kept;
use std::alloc::AllocError;

/// The same value once more, if there is one. Its only error is want of memory.
pub fn share_option<T: Kept>(value: &Option<T>) -> Result<Option<T>, AllocError>
    ensures { IfOk result (λ twin. twin ≡ value.now) }
{
    match value {
        Some(value) => Ok(Some(value.share()?)),
        None => Ok(None),
    }
}

/// Whether both are equal values, or none.
pub fn same_option<T: Kept>(one: &Option<T>, other: &Option<T>) -> bool
    ensures { IsTrue result ↔ (one.now ≡ other.now) }
{
    match (one, other) {
        (Some(one), Some(other)) => one.same(other),
        (None, None) => true,
        (Some(_), None) | (None, Some(_)) => false,
    }
}
