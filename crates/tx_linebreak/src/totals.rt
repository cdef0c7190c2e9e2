//! How wide pieces are together, and how far they stretch and shrink.
ghost use Rattle.std.specs.Prelude.{pos, ◌≡◌, ◌≤◌, ◌+ℤ◌, ◌-ℤ◌, ◌^◌, unsigned_abs, IfOk};
ghost use Rattle.tx_linebreak.specs.Totals.{IsWithin, both, elastic, glue_totals, less, piece_totals, rigid};
ghost use Rattle.tx_linebreak.specs.Sums.{AreSums};

use crate::params::BreakParams;
use crate::piece::Piece;
use std::alloc::{AllocError, Global};
use tx_num::{Glue, Scaled};

/// The sums of widths, of stretch by its orders, and of shrink, in sp.
#[derive(Clone, Copy)]
pub(crate) struct Totals {
    pub width: i128,
    pub stretch: i128,
    pub fil: i128,
    pub fill: i128,
    pub filll: i128,
    pub shrink: i128,
}

impl Totals {
    /// A width that can't move.
    pub fn rigid(width: i32) -> Totals
        ensures value { result ≡ rigid width }
        ensures small { IsWithin (2 ^ 31) result }
    {
        Totals {
            width: i128::from(width),
            stretch: 0,
            fil: 0,
            fill: 0,
            filll: 0,
            shrink: 0,
        }
    }

    /// A text, which can't move.
    pub fn text(width: Scaled) -> Totals
        ensures value { result ≡ rigid width }
        ensures small { IsWithin (2 ^ 63) result }
    {
        let mut totals = Totals::rigid(0);
        totals.width = i128::from(width);
        totals
    }

    /// \emergencystretch.
    pub fn emergency(params: &BreakParams) -> Totals
        ensures value { result ≡ elastic (pos 0) params.now.emergency_stretch 0 (pos 0) }
        ensures small { IsWithin (2 ^ 63) result }
    {
        let mut totals = Totals::rigid(0);
        totals.stretch = i128::from(params.emergency_stretch);
        totals
    }

    /// What glue has.
    pub fn of_glue(glue: &Glue) -> Totals
        ensures value { result ≡ glue_totals glue.now }
        ensures small { IsWithin (2 ^ 31) result }
    {
        let mut totals = Totals::rigid(0);
        totals.width = i128::from(glue.width());
        let stretch = i128::from(glue.stretch());
        match glue.stretch_order() {
            0 => totals.stretch = stretch,
            1 => totals.fil = stretch,
            2 => totals.fill = stretch,
            _ => totals.filll = stretch,
        }
        totals.shrink = i128::from(glue.shrink());
        totals
    }

    /// Both together.
    pub fn plus(&self, other: &Totals) -> Totals
        requires some { IsWithin (2 ^ 120) self.now }
        requires others { IsWithin (2 ^ 120) other.now }
        ensures { result ≡ both self.now other.now }
    {
        Totals {
            width: sum(self.width, other.width),
            stretch: sum(self.stretch, other.stretch),
            fil: sum(self.fil, other.fil),
            fill: sum(self.fill, other.fill),
            filll: sum(self.filll, other.filll),
            shrink: sum(self.shrink, other.shrink),
        }
    }

    /// These without the others.
    pub fn minus(&self, other: &Totals) -> Totals
        requires some { IsWithin (2 ^ 120) self.now }
        requires others { IsWithin (2 ^ 120) other.now }
        ensures { result ≡ less self.now other.now }
    {
        Totals {
            width: difference(self.width, other.width),
            stretch: difference(self.stretch, other.stretch),
            fil: difference(self.fil, other.fil),
            fill: difference(self.fill, other.fill),
            filll: difference(self.filll, other.filll),
            shrink: difference(self.shrink, other.shrink),
        }
    }
}

/// The sum of two sizes.
fn sum(a: i128, b: i128) -> i128
    requires a { unsigned_abs a ≤ 2 ^ 120 }
    requires b { unsigned_abs b ≤ 2 ^ 120 }
    ensures value { result ≡ a +ℤ b }
    ensures small { unsigned_abs result ≤ 2 ^ 121 }
{
    a + b
}

/// The difference of two sizes.
fn difference(a: i128, b: i128) -> i128
    requires a { unsigned_abs a ≤ 2 ^ 120 }
    requires b { unsigned_abs b ≤ 2 ^ 120 }
    ensures value { result ≡ a -ℤ b }
    ensures small { unsigned_abs result ≤ 2 ^ 121 }
{
    a - b
}

impl Totals {
    /// Adds what a piece has, where it isn't a break.
    #[tactic(auto, using(crate::proofs::Summing::both_none))]
    fn add(&mut self, piece: &Piece)
        requires { IsWithin (2 ^ 120) self.old }
        ensures value { self.new ≡ both self.old (piece_totals piece.now) }
        ensures small { IsWithin (2 ^ 31) (piece_totals piece.now) }
    {
        match piece {
            Piece::Solid(width) | Piece::Kern(width) => self.widen(*width),
            Piece::MathOn(width) | Piece::MathOff(width) => self.widen(*width),
            Piece::Glue(glue) => *self = self.plus(&Totals::of_glue(glue)),
            Piece::Penalty(_) | Piece::Discretionary(_) => {}
        }
    }

    /// Adds a width that can't move.
    fn widen(&mut self, width: i32)
        requires { IsWithin (2 ^ 120) self.old }
        ensures value { self.new ≡ both self.old (rigid width) }
        ensures small { IsWithin (2 ^ 31) (rigid width) }
    {
        self.width = sum(self.width, i128::from(width));
    }
}

/// The totals of the pieces before each place, up to all of them.
pub(crate) fn running_sums(alloc: Global, pieces: &[Piece]) -> Result<Vec<Totals>, AllocError>
    ensures { IfOk result (λ sums. AreSums sums.items pieces.now) }
{
    let mut total = Totals::rigid(0);
    let mut sums = Vec::with_capacity(alloc, pieces.len() + 1)?;
    sums.push(total)?;
    for piece in pieces {
        total.add(piece);
        sums.push(total)?;
    }
    Ok(sums)
}
