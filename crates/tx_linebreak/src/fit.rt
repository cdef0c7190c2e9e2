//! How a line fits, and its demerits (TeX: The Program, sections 851 to 859).
ghost use Rattle.std.specs.Prelude.{◌≡◌, ◌<◌, ◌≤◌, ◌^◌, ◌≤ℤ◌, pos, unsigned_abs, length};
ghost use Rattle.tx_linebreak.specs.Lines.{fit_of, line_width, shrunk, shrunk_class, stretched, stretched_class};
ghost use Rattle.tx_linebreak.specs.Totals.{IsWithin};

use crate::line::Fit;
use crate::params::LineShape;
use crate::piece::Class;
use crate::totals::Totals;
use tx_num::{Scaled, badness_of_sums};

/// The shape of a line, by the number of lines before it.
fn line_shape(shape: &[LineShape], lines: usize) -> LineShape
    requires { 0 < length shape.now }
    ensures { result.width ≡ line_width shape.now lines }
{
    let last = shape.len() - 1;
    shape[lines.min(last)]
}

/// The width of a line, by the number of lines before it.
pub(crate) fn line_width(shape: &[LineShape], lines: usize) -> Scaled
    requires { 0 < length shape.now }
    ensures { result ≡ line_width shape.now lines }
{
    line_shape(shape, lines).width
}

/// How a line of this width with these totals fits.
pub(crate) fn fit(width: i128, totals: &Totals) -> Fit
    requires width { unsigned_abs width ≤ 2 ^ 65 }
    requires totals { IsWithin (2 ^ 120) totals.now }
    ensures { result ≡ fit_of width totals.now }
{
    if totals.width < width {
        stretched(totals, width - totals.width)
    } else {
        shrunk(totals, totals.width - width)
    }
}

/// How a line fits that is too short by so much.
fn stretched(totals: &Totals, excess: i128) -> Fit
    requires { pos 0 ≤ℤ excess }
    ensures { result ≡ stretched totals.now excess }
{
    if totals.fil != 0 || totals.fill != 0 || totals.filll != 0 {
        return Fit::Set {
            badness: 0,
            class: Class::Decent,
        };
    }
    let badness = badness_of_sums(excess, totals.stretch);
    Fit::Set {
        badness,
        class: stretched_class(badness),
    }
}

/// How a line fits that is too long by so much, or just fits.
fn shrunk(totals: &Totals, excess: i128) -> Fit
    requires { pos 0 ≤ℤ excess }
    ensures { result ≡ shrunk totals.now excess }
{
    if totals.shrink < excess {
        return Fit::Overfull;
    }
    let badness = badness_of_sums(excess, totals.shrink);
    Fit::Set {
        badness,
        class: shrunk_class(badness),
    }
}

/// The class of a line that is stretched.
fn stretched_class(badness: u32) -> Class
    ensures { result ≡ stretched_class badness }
{
    if badness > 99 {
        Class::VeryLoose
    } else if badness > 12 {
        Class::Loose
    } else {
        Class::Decent
    }
}

/// The class of a line that is shrunk.
fn shrunk_class(badness: u32) -> Class
    ensures { result ≡ shrunk_class badness }
{
    if badness > 12 {
        Class::Tight
    } else {
        Class::Decent
    }
}
