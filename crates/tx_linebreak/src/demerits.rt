//! The demerits of a line (TeX: The Program, section 859).
ghost use Rattle.std.specs.Prelude.{◌≡◌, ◌≤◌, ◌^◌, ◌+ℤ◌, ◌*ℤ◌, pos, unsigned_abs};
ghost use Rattle.tx_linebreak.specs.Lines.{are_apart, badness_cost, cost_of, penalty_cost, where_so};

use crate::params::BreakParams;
use crate::piece::Class;

/// What badness costs, 100000000 where it is at least 10000, either way.
fn badness_cost(l: i64) -> i128
    ensures value { result ≡ badness_cost l }
    ensures small { unsigned_abs result ≤ 100000000 }
{
    if l <= -10_000 || l >= 10_000 {
        return 100_000_000;
    }
    i128::from(l * l)
}

/// What \linepenalty and badness cost together.
fn line_cost(line_penalty: i32, badness: u32) -> i128
    ensures value { result ≡ badness_cost (line_penalty +ℤ pos badness) }
    ensures small { unsigned_abs result ≤ 100000000 }
{
    badness_cost(i64::from(line_penalty) + i64::from(badness))
}

/// A penalty's square.
fn square(penalty: i32) -> i128
    ensures value { result ≡ penalty *ℤ penalty }
    ensures small { unsigned_abs result ≤ 2 ^ 62 }
{
    let wide = i64::from(penalty);
    i128::from(wide * wide)
}

/// What the penalty of a line's break costs; less than nothing where it is negative, unless it forces the break.
fn penalty_cost(penalty: i32) -> i128
    ensures value { result ≡ penalty_cost penalty }
    ensures small { unsigned_abs result ≤ 2 ^ 62 }
{
    let square = square(penalty);
    if penalty > 0 {
        square
    } else if penalty > -10_000 {
        -square
    } else {
        0
    }
}

/// So much where this holds.
fn where_so(holds: bool, cost: i32) -> i128
    ensures value { result ≡ where_so holds cost }
    ensures small { unsigned_abs result ≤ 2 ^ 31 }
{
    if holds { i128::from(cost) } else { 0 }
}

/// The demerits of a line by what costs: its penalty, its badness, a class apart from that before, two hyphens in a row, one
/// before the last line.
pub(crate) fn line_demerits(
    params: &BreakParams,
    penalty: i32,
    badness: u32,
    apart: bool,
    double: bool,
    last: bool,
) -> i128
    ensures value { result ≡ cost_of params.now penalty badness apart double last }
    ensures small { unsigned_abs result ≤ 2 ^ 63 }
{
    let line_penalty = params.line_penalty;
    let adjacent = params.adj_demerits;
    let in_a_row = params.double_hyphen_demerits;
    let at_the_end = params.final_hyphen_demerits;
    cost(
        line_cost(line_penalty, badness),
        penalty_cost(penalty),
        where_so(apart, adjacent),
        where_so(double, in_a_row),
        where_so(last, at_the_end),
    )
}

/// All costs of a line together: of its badness, its penalty, its class, of two hyphens in a row, and of one before the last
/// line.
fn cost(badness: i128, penalty: i128, class: i128, double: i128, last: i128) -> i128
    requires badness { unsigned_abs badness ≤ 100000000 }
    requires penalty { unsigned_abs penalty ≤ 2 ^ 62 }
    requires class { unsigned_abs class ≤ 2 ^ 31 }
    requires double { unsigned_abs double ≤ 2 ^ 31 }
    requires last { unsigned_abs last ≤ 2 ^ 31 }
    ensures value { result ≡ badness +ℤ penalty +ℤ class +ℤ double +ℤ last }
    ensures small { unsigned_abs result ≤ 2 ^ 63 }
{
    badness + penalty + class + double + last
}

/// Whether two classes aren't next to each other.
pub(crate) fn are_apart(class: Class, other: Class) -> bool
    ensures { result ≡ are_apart class other }
{
    let (class, other) = (class.number(), other.number());
    class + 1 < other || other + 1 < class
}
