//! How large TeX's numbers may be (TeX: The Program, sections 100, 104 and 421).
ghost use Rattle.std.specs.Prelude.{◌≡◌, ◌≤◌, ◌↔◌, IsTrue, unsigned_abs};
ghost use Rattle.tx_num.specs.Limits.{fits, limit};

use thiserror::Error;

/// The greatest dimension, in sp.
pub const GREATEST_DIMENSION: i64 = 1_073_741_823;

/// A number left the range of its use.
#[derive(Clone, Copy, Debug, Error)]
#[error("arithmetic overflow")]
pub struct Overflow;

/// What a number is used as, which says how large it may be, either way.
#[derive(Clone, Copy)]
pub enum Range {
    /// An integer, at most 2^31 - 1.
    Integer,
    /// A dimension in scaled points, at most 2^30 - 1.
    Dimen,
}

impl Range {
    /// The greatest magnitude.
    pub const fn limit(self) -> u64
        ensures { result ≡ limit self }
    {
        match self {
            Range::Integer => 2_147_483_647,
            Range::Dimen => 1_073_741_823,
        }
    }

    /// Whether a number lies within the range.
    pub const fn holds(self, number: i64) -> bool
        ensures { IsTrue result ↔ (unsigned_abs number ≤ limit self) }
    {
        number.unsigned_abs() <= self.limit()
    }
}

/// Whether a size in sp is a dimension, as definitions test it.
pub fn fits(size: i64) -> bool
    ensures value { result ≡ fits size }
{
    size.unsigned_abs() < 1 << 30
}
