//! Cases of tx_num.
ghost use Rattle.std.specs.Prelude.{◌<◌, ◌^◌, unsigned_abs, IsTrue};

use std::alloc::{AllocError, Global};
use tx_cases::integers;
use tx_num::{Overflow, Range, badness, set_at, x_over_n, xn_over_d};

/// `badness T S`, `over X N`, `dimen_over X N`, `times_over X N D` and `setting TOTAL EXCESS SUM`.
pub fn write_answer(
    alloc: Global,
    text: &mut String,
    word: &str,
    rest: &str,
) -> Result<(), AllocError> {
    let numbers = integers(alloc, rest)?;
    let numbers = numbers.as_slice();
    match word {
        "badness" => write_badness(text, numbers),
        "over" => write_quotient_of(text, numbers, Range::Integer),
        "dimen_over" => write_quotient_of(text, numbers, Range::Dimen),
        "times_over" => write_fraction(text, numbers),
        "setting" => write_setting(text, numbers),
        _ => text.push_str("malformed"),
    }
}

fn write_badness(text: &mut String, numbers: &[i64]) -> Result<(), AllocError> {
    match numbers {
        [size, sum] if 0 <= *size => write!(text, "{}", badness(*size, *sum)),
        _ => text.push_str("malformed"),
    }
}

/// A quotient and a remainder.
fn write_quotient(
    text: &mut String,
    found: Result<(i64, i64), Overflow>,
) -> Result<(), AllocError> {
    match found {
        Ok((quotient, remainder)) => write!(text, "{quotient} {remainder}"),
        Err(Overflow) => text.push_str("overflow"),
    }
}

fn write_quotient_of(text: &mut String, numbers: &[i64], range: Range) -> Result<(), AllocError> {
    match numbers {
        [x, n] if *n != 0 => write_quotient(text, x_over_n(*x, *n, range)),
        _ => text.push_str("malformed"),
    }
}

fn write_fraction(text: &mut String, numbers: &[i64]) -> Result<(), AllocError> {
    match numbers {
        [x, n, d] if *d != 0 => write_quotient(text, xn_over_d(*x, *n, *d, Range::Integer)),
        _ => text.push_str("malformed"),
    }
}

fn write_setting(text: &mut String, numbers: &[i64]) -> Result<(), AllocError> {
    match numbers {
        [total, excess, sum]
            if *total != 0 && is_integer(*total) && is_integer(*excess) && is_integer(*sum) => {
            write!(text, "{}", set_at(*total, *excess, *sum))
        }
        _ => text.push_str("malformed"),
    }
}

/// Whether a number is an integer of TeX.
fn is_integer(number: i64) -> bool
    ensures { IsTrue result → unsigned_abs number < 2 ^ 31 }
{
    number.unsigned_abs() < 2147483648
}
