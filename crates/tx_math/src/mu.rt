//! Sizes in mu (TeX: The Program, sections 716 and 717).
ghost use Rattle.std.specs.Prelude.{◌≡◌, ◌<◌, ◌≤◌, ◌^◌, pos, unsigned_abs};
ghost use Rattle.std.specs.Int.{int_div_euclid, int_rem_euclid};
ghost use Rattle.tx_num.specs.Glue.{glue_of};
ghost use Rattle.tx_math.specs.Mu as spec;
ghost use Rattle.tx_math.specs.Setters.{math_in};

use crate::boxes::stored;
use crate::error::MathError;
use crate::setter::Setter;
use crate::sums::{plus, quotient, times};
use tx_num::{Glue, fits};

/// How many whole points so many sp are.
#[tactic(auto, using(crate::proofs::Bounds::points_small))]
fn whole_points(size: i64) -> i64
    requires { unsigned_abs size ≤ 2 ^ 31 }
    ensures value { result ≡ int_div_euclid size (pos 65536) }
    ensures bound { unsigned_abs result ≤ 2 ^ 16 }
{
    size.div_euclid(65_536)
}

/// How many sp they are beyond whole points.
fn part_of_point(size: i64) -> i64
    ensures value { result ≡ int_rem_euclid size (pos 65536) }
    ensures bound { unsigned_abs result < 2 ^ 16 }
{
    size.rem_euclid(65_536)
}

/// A size in mu as one in sp, where 1mu is so many sp.
#[tactic(auto, unfolding(crate::specs::Mu::times_mu))]
fn times_mu(unit: i64, size: i64) -> i64
    requires unit { unsigned_abs unit ≤ 2 ^ 31 }
    requires size { unsigned_abs size ≤ 2 ^ 31 }
    ensures { result ≡ spec.times_mu unit size }
{
    let whole = times(whole_points(unit), size);
    let part = quotient(times(size, part_of_point(unit)), 65_536);
    plus(whole, part)
}

/// The same of a stretch or shrink, unless it is infinite.
#[tactic(auto, unfolding(crate::specs::Mu::elastic_in_points))]
fn elastic_in_points(unit: i64, size: i64, order: u8) -> i64
    requires unit { unsigned_abs unit ≤ 2 ^ 31 }
    requires size { unsigned_abs size ≤ 2 ^ 31 }
    ensures { result ≡ spec.elastic_in_points unit size order }
{
    if order == 0 {
        times_mu(unit, size)
    } else {
        size
    }
}

/// Glue of these sizes, in sp. `SizeOutOfRange` exactly where one of them is no dimension.
#[tactic(auto, unfolding(crate::specs::Mu::fitting))]
fn fitting(
    width: i64,
    stretch: i64,
    stretch_order: u8,
    shrink: i64,
    shrink_order: u8,
) -> Result<Glue, MathError>
    requires stretch_order { stretch_order ≤ 3 }
    requires shrink_order { shrink_order ≤ 3 }
    ensures { result ≡ spec.fitting (glue_of width stretch stretch_order shrink shrink_order) }
{
    if fits(width) && fits(stretch) && fits(shrink) {
        Ok(Glue::new(width, stretch, stretch_order, shrink, shrink_order))
    } else {
        Err(MathError::SizeOutOfRange)
    }
}

/// Glue that is told in mu, where 1mu is so many sp. `SizeOutOfRange` exactly where a size of it is no dimension.
#[tactic(auto, unfolding(crate::specs::Mu::glue_in_points))]
fn glue_in_points(unit: i64, glue: &Glue) -> Result<Glue, MathError>
    requires { unsigned_abs unit ≤ 2 ^ 31 }
    ensures { result ≡ spec.fitting (spec.glue_in_points unit glue.now) }
{
    let width = times_mu(unit, glue.width());
    let stretch = elastic_in_points(unit, glue.stretch(), glue.stretch_order());
    let shrink = elastic_in_points(unit, glue.shrink(), glue.shrink_order());
    fitting(
        width,
        stretch,
        glue.stretch_order(),
        shrink,
        glue.shrink_order(),
    )
}

impl Setter<'_> {
    /// How many sp 1mu is in a style.
    fn mu(&self, style: u8) -> i64
        ensures value { result ≡ spec.mu (math_in self.now) style }
        ensures bound { unsigned_abs result ≤ 2 ^ 31 }
    {
        quotient(self.symbol_in(style, 6), 18)
    }

    /// Glue that is told in mu. `SizeOutOfRange` exactly where a size of it is no dimension.
    #[tactic(auto, unfolding(crate::specs::Mu::math_glue))]
    pub fn math_glue(&self, style: u8, glue: &Glue) -> Result<Glue, MathError>
        ensures { result ≡ spec.math_glue (math_in self.now) style glue.now }
    {
        glue_in_points(self.mu(style), glue)
    }

    /// A kern that is told in mu, in sp. `SizeOutOfRange` exactly where this is no dimension.
    #[tactic(auto, unfolding(crate::specs::Mu::math_kern))]
    pub fn math_kern(&self, style: u8, size: i32) -> Result<i32, MathError>
        ensures { result ≡ spec.math_kern (math_in self.now) style size }
    {
        stored(times_mu(self.mu(style), i64::from(size)))
    }
}
