//! Arithmetic on sizes.
ghost use Rattle.std.specs.Prelude.{◌≡◌, ◌<◌, ◌≤◌, ◌^◌, ◌+◌, ◌+ℤ◌, ◌-ℤ◌, ◌*ℤ◌, ◌<ℤ◌, pos, int_div, unsigned_abs, IfOk};
ghost use Rattle.tx_num.specs.Glue.{IsDimension};
ghost use Rattle.tx_pagebuilder.specs.Inserts.{integer};
ghost use Rattle.tx_pagebuilder.specs.Placing.{dimension};

use crate::error::PageError;
use tx_num::fits;

/// A size in 64 bits.
pub(crate) fn wide(size: i32) -> i64
    ensures value { result ≡ size }
    ensures bound { unsigned_abs result ≤ 2 ^ 31 }
{
    i64::from(size)
}

/// A number with one more.
pub(crate) fn plus(size: i64, more: i64) -> i64
    requires size_in { unsigned_abs size ≤ 2 ^ 62 }
    requires more_in { unsigned_abs more ≤ 2 ^ 61 }
    ensures value { result ≡ size +ℤ more }
    ensures size { unsigned_abs result ≤ unsigned_abs size + unsigned_abs more }
{
    size + more
}

/// A number less another.
pub(crate) fn minus(size: i64, other: i64) -> i64
    requires size_in { unsigned_abs size ≤ 2 ^ 60 }
    requires other_in { unsigned_abs other ≤ 2 ^ 62 + 2 ^ 61 }
    ensures value { result ≡ size -ℤ other }
    ensures size { unsigned_abs result ≤ unsigned_abs size + unsigned_abs other }
{
    size - other
}

/// A number times another.
pub(crate) fn times(size: i32, count: i32) -> i64
    ensures value { result ≡ size *ℤ count }
    ensures bound { unsigned_abs result ≤ 2 ^ 62 }
{
    i64::from(size) * i64::from(count)
}

/// A thousand times a number.
pub(crate) fn thousandfold(size: i64) -> i64
    requires { unsigned_abs size ≤ 2 ^ 40 }
    ensures { result ≡ size *ℤ pos 1000 }
{
    size * 1000
}

/// A thousandth of a size, rounded towards 0.
pub(crate) fn thousandth(size: i32) -> i32
    ensures { result ≡ int_div size (pos 1000) }
{
    size / 1000
}

/// A size by a number, rounded towards 0.
#[tactic(auto, using(crate::proofs::Quotients::quotient_small))]
pub(crate) fn quotient(size: i64, by: i64) -> i64
    requires { pos 0 <ℤ by }
    ensures value { result ≡ int_div size by }
    ensures bound { unsigned_abs result ≤ unsigned_abs size }
{
    size / by
}

/// A dimension, in 32 bits.
pub(crate) fn narrow(size: i64) -> i32
    requires { IsDimension size }
    ensures { result ≡ size }
{
    size as i32
}

/// An integer of TeX's, in 32 bits.
pub(crate) fn narrow_integer(number: i64) -> i32
    requires { unsigned_abs number < 2 ^ 31 }
    ensures { result ≡ number }
{
    number as i32
}

/// A size, which has to be a dimension.
pub(crate) fn dimension(size: i64) -> Result<i32, PageError>
    ensures value { result ≡ dimension size }
    ensures small { IfOk result IsDimension }
{
    if fits(size) {
        Ok(narrow(size))
    } else {
        Err(PageError::SizeOutOfRange)
    }
}

/// A number, which has to be an integer of TeX's.
pub(crate) fn integer(number: i64) -> Result<i32, PageError>
    ensures { result ≡ integer number }
{
    if number.unsigned_abs() < 1 << 31 {
        Ok(narrow_integer(number))
    } else {
        Err(PageError::SizeOutOfRange)
    }
}
