//! The units of length that TeX knows by name.
ghost use Rattle.std.specs.Prelude.{◌≡◌, ◌<◌, ◌≤◌, ◌^◌, pos, IfOk, MatchResult};
ghost use Rattle.tx_num.specs.Limits.{limit};
ghost use Rattle.tx_num.specs.Units.{points_in, size_of};

use super::limits::{Overflow, Range};

/// A unit of length of the same size everywhere (The TeXbook, chapter 10).
#[derive(Clone, Copy)]
pub enum PhysicalUnit {
    /// `pt`, the printer's point.
    Point,
    /// `pc`, 12pt.
    Pica,
    /// `in`, 72.27pt.
    Inch,
    /// `bp`, a 72nd of an inch.
    BigPoint,
    /// `cm`, of which 2.54 are an inch.
    Centimetre,
    /// `mm`, a tenth of a centimetre.
    Millimetre,
    /// `dd`, of which 1157 are 1238pt.
    DidotPoint,
    /// `cc`, 12dd.
    Cicero,
    /// `sp`, of which 65536 are a point.
    ScaledPoint,
}

impl PhysicalUnit {
    /// The unit in points, as numerator and denominator (TeX: The Program, section 458).
    pub const fn points(self) -> (u64, u64)
        ensures { result ≡ points_in self }
    {
        match self {
            PhysicalUnit::Point => (1, 1),
            PhysicalUnit::Pica => (12, 1),
            PhysicalUnit::Inch => (7227, 100),
            PhysicalUnit::BigPoint => (7227, 7200),
            PhysicalUnit::Centimetre => (7227, 254),
            PhysicalUnit::Millimetre => (7227, 2540),
            PhysicalUnit::DidotPoint => (1238, 1157),
            PhysicalUnit::Cicero => (14856, 1157),
            PhysicalUnit::ScaledPoint => (1, 65536),
        }
    }

    /// So many whole units and `fraction` 65536ths of one, in sp, rounded down. Of scaled points a fraction is dropped.
    /// `Overflow` exactly where the size is past the limit of a dimension.
    pub fn to_scaled(self, whole: u32, fraction: u32) -> Result<i64, Overflow>
        requires { fraction ≤ 65536 }
        ensures value { IfOk result (λ size. size ≡ pos (size_of self whole fraction)) }
        ensures overflow { MatchResult result
            (λ _. size_of self whole fraction ≤ limit Range.Dimen)
            (λ _. limit Range.Dimen < size_of self whole fraction) }
    {
        let counted = match self {
            PhysicalUnit::ScaledPoint => 0,
            _ => u64::from(fraction),
        };
        let (numerator, denominator) = self.points();
        let size = numerator * (65536 * u64::from(whole) + counted) / denominator;
        if size > Range::Dimen.limit() {
            return Err(Overflow);
        }
        Ok(size as i64)
    }
}
