//! Sums, products and quotients of sizes, in sp.
ghost use Rattle.std.specs.Prelude.{◌≡◌, ◌≤◌, ◌<ℤ◌, ◌+◌, ◌*◌, ◌^◌, ◌+ℤ◌, ◌-ℤ◌, ◌*ℤ◌, max, neg_ℤ, pos, int_div, unsigned_abs};
ghost use Rattle.std.specs.Int.{int_max};

/// A sum with one more size.
pub fn plus(sum: i64, more: i64) -> i64
    requires sum_in { unsigned_abs sum ≤ 2 ^ 60 }
    requires more_in { unsigned_abs more ≤ 2 ^ 60 }
    ensures value { result ≡ sum +ℤ more }
    ensures size { unsigned_abs result ≤ unsigned_abs sum + unsigned_abs more }
{
    sum + more
}

/// A size less another.
pub fn minus(size: i64, other: i64) -> i64
    requires size_in { unsigned_abs size ≤ 2 ^ 60 }
    requires other_in { unsigned_abs other ≤ 2 ^ 60 }
    ensures value { result ≡ size -ℤ other }
    ensures size { unsigned_abs result ≤ unsigned_abs size + unsigned_abs other }
{
    size - other
}

/// A size of the other sign.
pub fn negated(size: i64) -> i64
    requires { unsigned_abs size ≤ 2 ^ 60 }
    ensures { result ≡ neg_ℤ size }
{
    -size
}

/// The greater of two sizes.
#[tactic(auto, using(crate::proofs::Bounds::greater_small))]
pub fn greater(size: i64, other: i64) -> i64
    ensures value { result ≡ int_max size other }
    ensures size { unsigned_abs result ≤ max (unsigned_abs size) (unsigned_abs other) }
{
    size.max(other)
}

/// A size so many times.
pub fn times(count: i64, size: i64) -> i64
    requires count_in { unsigned_abs count ≤ 2 ^ 31 }
    requires size_in { unsigned_abs size ≤ 2 ^ 31 }
    ensures value { result ≡ count *ℤ size }
    ensures size { unsigned_abs result ≤ unsigned_abs count * 2 ^ 31 }
{
    count * size
}

/// A size by a number, rounded towards 0.
#[tactic(auto, using(crate::proofs::Bounds::quotient_small))]
pub fn quotient(size: i64, by: i64) -> i64
    requires { pos 0 <ℤ by }
    ensures value { result ≡ int_div size by }
    ensures size { unsigned_abs result ≤ unsigned_abs size }
{
    size / by
}
