//! Quotients: with a remainder, and to the nearest whole number. Products are formed in 128 bits.
ghost use Rattle.std.specs.Prelude.{◌≡◌, ◌≢◌, ◌+◌, ◌*◌, ◌≤◌, ◌<◌, ◌^◌, ◌*ℤ◌, pos, int_div, int_rem, unsigned_abs, IfOk, MatchResult};
ghost use Rattle.tx_num.specs.Limits.{limit};
ghost use Rattle.tx_num.specs.Fractions.{nearest, nearest_signed, signed};

use super::limits::{Overflow, Range};

/// The quotient of `x` by `n`, rounded towards zero, and the remainder, which has the sign of `x` (TeX: The Program,
/// section 106). `Overflow` exactly where the quotient is past the limit of its range.
pub fn x_over_n(x: i64, n: i64, range: Range) -> Result<(i64, i64), Overflow>
    requires { n ≢ pos 0 }
    ensures quotient { IfOk result (λ r. r.0 ≡ int_div x n) }
    ensures remainder { IfOk result (λ r. r.1 ≡ int_rem x n) }
    ensures overflow { MatchResult result
        (λ _. unsigned_abs (int_div x n) ≤ limit range)
        (λ _. limit range < unsigned_abs (int_div x n)) }
{
    divided(i128::from(x), n, range)
}

/// The quotient of `x` times `n` by `d`, rounded towards zero, and the remainder, which has the sign of the product
/// (TeX: The Program, section 107). `Overflow` exactly where the quotient is past the limit of its range.
pub fn xn_over_d(x: i64, n: i64, d: i64, range: Range) -> Result<(i64, i64), Overflow>
    requires { d ≢ pos 0 }
    ensures quotient { IfOk result (λ r. r.0 ≡ int_div (x *ℤ n) d) }
    ensures remainder { IfOk result (λ r. r.1 ≡ int_rem (x *ℤ n) d) }
    ensures overflow { MatchResult result
        (λ _. unsigned_abs (int_div (x *ℤ n) d) ≤ limit range)
        (λ _. limit range < unsigned_abs (int_div (x *ℤ n) d)) }
{
    divided(product(x, n), d, range)
}

/// How far set glue has moved what follows it, in sp: `sum` times `excess` by `total`, to the nearest whole number, halves
/// away from zero. `total` is the stretch or shrink of a box in the order that is set, `sum` the part of it up to a place,
/// `excess` what the box is short of or past its natural size. Negative stretch can make `sum` pass `total`.
pub fn set_at(total: i64, excess: i64, sum: i64) -> i64
    requires divisor { total ≢ pos 0 }
    requires total_in { unsigned_abs total < 2 ^ 31 }
    requires excess_in { unsigned_abs excess < 2 ^ 31 }
    requires sum_in { unsigned_abs sum < 2 ^ 31 }
    ensures { result ≡ nearest_signed (sum *ℤ excess) total }
{
    let moved = product(sum, excess);
    let size = rounded(moved.unsigned_abs() as u64, total.unsigned_abs());
    with_sign((moved < 0) != (total < 0), size)
}

fn product(a: i64, b: i64) -> i128
    ensures value { result ≡ a *ℤ b }
    ensures size { unsigned_abs result ≡ unsigned_abs a * unsigned_abs b }
{
    i128::from(a) * i128::from(b)
}

/// `a` by `d`, rounded towards zero, and the remainder, where the quotient is within the limit.
fn divided(a: i128, d: i64, range: Range) -> Result<(i64, i64), Overflow>
    requires { d ≢ pos 0 }
    ensures quotient { IfOk result (λ r. r.0 ≡ int_div a d) }
    ensures remainder { IfOk result (λ r. r.1 ≡ int_rem a d) }
    ensures overflow { MatchResult result
        (λ _. unsigned_abs (int_div a d) ≤ limit range)
        (λ _. limit range < unsigned_abs (int_div a d)) }
{
    let divisor = u128::from(d.unsigned_abs());
    let quotient = a.unsigned_abs() / divisor;
    if quotient > u128::from(range.limit()) {
        return Err(Overflow);
    }
    let remainder = a.unsigned_abs() % divisor;
    Ok((
        with_sign((a < 0) != (d < 0), quotient as u64),
        with_sign(a < 0, remainder as u64),
    ))
}

/// `a` by `d` to the nearest whole number, halves upwards.
pub fn rounded(a: u64, d: u64) -> u64
    requires divisor { 0 < d }
    requires dividend_in { a < 2 ^ 62 }
    requires divisor_in { d < 2 ^ 62 }
    ensures value { result ≡ nearest a d }
    ensures bound { result ≤ a + 1 }
{
    (2 * a + d) / (2 * d)
}

/// The number of this sign and magnitude.
fn with_sign(negative: bool, size: u64) -> i64
    requires { size < 2 ^ 63 }
    ensures { result ≡ signed negative size }
{
    if negative {
        -(size as i64)
    } else {
        size as i64
    }
}
