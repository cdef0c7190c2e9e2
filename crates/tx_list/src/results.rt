//! Two results as one.
ghost use Rattle.std.specs.Prelude.{◌≡◌, Ok, IfOk};

use std::alloc::AllocError;

/// Both values, or the error of the first that failed. What else was made is dropped here, so that who makes many values has one
/// way out.
pub fn both<A: Drop, B: Drop>(
    one: Result<A, AllocError>,
    other: Result<B, AllocError>,
) -> Result<(A, B), AllocError>
    ensures { IfOk result (λ pair. (one ≡ Ok pair.0) × (other ≡ Ok pair.1)) }
{
    Ok((one?, other?))
}
