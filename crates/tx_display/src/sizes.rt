//! Sums and halves of sizes, in sp.
ghost use Rattle.std.specs.Prelude.{◌≡◌, ◌≤◌, ◌+◌, ◌^◌, ◌+ℤ◌, ◌-ℤ◌, unsigned_abs};
ghost use Rattle.tx_display.specs.Sizes as spec;

use crate::error::DisplayError;
use tx_num::fits;

/// A size that is stored. `SizeOutOfRange` exactly where it is no dimension.
pub(crate) fn stored(size: i64) -> Result<i32, DisplayError>
    ensures { result ≡ spec.stored size }
{
    if fits(size) {
        Ok(size as i32)
    } else {
        Err(DisplayError::SizeOutOfRange)
    }
}

/// A sum with one more size.
pub(crate) fn plus(sum: i64, more: i64) -> i64
    requires sum_in { unsigned_abs sum ≤ 2 ^ 60 }
    requires more_in { unsigned_abs more ≤ 2 ^ 60 }
    ensures value { result ≡ sum +ℤ more }
    ensures bound { unsigned_abs result ≤ unsigned_abs sum + unsigned_abs more }
{
    sum + more
}

/// A size less another.
pub(crate) fn minus(size: i64, other: i64) -> i64
    requires size_in { unsigned_abs size ≤ 2 ^ 60 }
    requires other_in { unsigned_abs other ≤ 2 ^ 60 }
    ensures value { result ≡ size -ℤ other }
    ensures bound { unsigned_abs result ≤ unsigned_abs size + unsigned_abs other }
{
    size - other
}

/// Half of a size; an odd one is made greater by 1 first.
pub(crate) fn half(size: i64) -> i64
    requires { unsigned_abs size ≤ 2 ^ 40 }
    ensures value { result ≡ spec.half size }
    ensures bound { unsigned_abs result ≤ unsigned_abs size }
{
    if size < 0 {
        -((size.unsigned_abs() / 2) as i64)
    } else {
        ((size.unsigned_abs() + 1) / 2) as i64
    }
}
