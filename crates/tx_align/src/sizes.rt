//! Arithmetic on sizes, in sp.
ghost use Rattle.std.specs.Prelude.{◌≡◌, ◌≤◌, ◌^◌, ◌+◌, ◌+ℤ◌, ◌-ℤ◌, unsigned_abs, IfSome};
ghost use Rattle.tx_num.specs.Glue.{IsDimension};
ghost use Rattle.tx_pack.specs.Packing.{if_fits};

use tx_num::fits;

/// A size in 64 bits.
pub(crate) fn wide(size: i32) -> i64
    ensures value { result ≡ size }
    ensures bound { unsigned_abs result ≤ 2 ^ 31 }
{
    i64::from(size)
}

/// A size with one more, in sp.
pub(crate) fn plus(size: i64, more: i64) -> i64
    requires size_in { unsigned_abs size ≤ 2 ^ 40 }
    requires more_in { unsigned_abs more ≤ 2 ^ 40 }
    ensures value { result ≡ size +ℤ more }
    ensures bound { unsigned_abs result ≤ unsigned_abs size + unsigned_abs more }
{
    size + more
}

/// A size less another, in sp.
pub(crate) fn minus(size: i64, other: i64) -> i64
    requires size_in { unsigned_abs size ≤ 2 ^ 40 }
    requires other_in { unsigned_abs other ≤ 2 ^ 40 }
    ensures value { result ≡ size -ℤ other }
    ensures bound { unsigned_abs result ≤ unsigned_abs size + unsigned_abs other }
{
    size - other
}

/// A dimension, in 32 bits.
fn narrow(size: i64) -> i32
    requires { IsDimension size }
    ensures { result ≡ size }
{
    size as i32
}

/// A size in sp, None where it is no dimension.
pub(crate) fn dimension(size: i64) -> Option<i32>
    ensures value { result ≡ if_fits size }
    ensures small { IfSome result IsDimension }
{
    if fits(size) { Some(narrow(size)) } else { None }
}
