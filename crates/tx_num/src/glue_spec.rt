//! Glue, the white space that stretches and shrinks.
ghost use Rattle.std.specs.Prelude.{◌≡◌, ◌≤◌, ◌<◌, ◌^◌, ◌+ℤ◌, pos, unsigned_abs, ◌↔◌, IsOk, IfOk};
ghost use Rattle.tx_num.specs.Glue.{IsDimension, IsGlue, glue_of, joined_elastic, order_of, glue_sum, glue_negated, zero_glue};

use super::limits::{Overflow, Range};
use std::alloc::AllocError;
use std::marker::Model;
use tx_list::Kept;

/// Glue: a natural width, how far it stretches and how far it shrinks, in sp, the last two each of an order 0 to 3: normal,
/// fil, fill, filll (TeX: The Program, section 150). Its three sizes are dimensions.
#[derive(Clone, Copy, PartialEq, Eq)]
pub struct Glue {
    width: i32,
    stretch: i32,
    shrink: i32,
    stretch_order: u8,
    shrink_order: u8,
}

impl Model for Glue {
    ghost use Rattle.tx_num.specs.Glue.{GlueSpec, IsGlue};

    ghost Value = { GlueSpec };

    ghost use Rattle.tx_num.specs.GlueFields.{spec_of, fields_of};

    ghost view = { spec_of };

    ghost invariant = { λ g. IsGlue (spec_of g) };

    ghost inverse = { fields_of };
}

/// Glue can be kept.
impl Kept for Glue {
    fn share(&self) -> Result<Self, AllocError> {
        Ok(*self)
    }

    fn same(&self, other: &Self) -> bool {
        *self == *other
    }
}

impl Glue {
    /// This glue.
    pub fn new(width: i64, stretch: i64, stretch_order: u8, shrink: i64, shrink_order: u8) -> Glue
        requires width_in { IsDimension width }
        requires stretch_in { IsDimension stretch }
        requires stretch_order_in { stretch_order ≤ 3 }
        requires shrink_in { IsDimension shrink }
        requires shrink_order_in { shrink_order ≤ 3 }
        ensures { result ≡ glue_of width stretch stretch_order shrink shrink_order }
    {
        Glue {
            width: width as i32,
            stretch: stretch as i32,
            shrink: shrink as i32,
            stretch_order,
            shrink_order,
        }
    }

    /// This glue. `Overflow` exactly where one of its sizes isn't a dimension.
    pub fn try_new(
        width: i64,
        stretch: i64,
        stretch_order: u8,
        shrink: i64,
        shrink_order: u8,
    ) -> Result<Glue, Overflow>
        requires stretch_order_in { stretch_order ≤ 3 }
        requires shrink_order_in { shrink_order ≤ 3 }
        ensures glue { IfOk result (λ g. g ≡ glue_of width stretch stretch_order shrink shrink_order) }
        ensures overflow { IsOk result ↔ IsGlue (glue_of width stretch stretch_order shrink shrink_order) }
    {
        let fits = Range::Dimen.holds(width)
            && Range::Dimen.holds(stretch)
            && Range::Dimen.holds(shrink);
        if !fits {
            return Err(Overflow);
        }
        Ok(Glue::new(width, stretch, stretch_order, shrink, shrink_order))
    }

    /// Glue that is no space at all.
    pub fn zero() -> Glue
        ensures { result ≡ zero_glue }
    {
        Glue::new(0, 0, 0, 0, 0)
    }

    /// The natural width.
    pub fn width(&self) -> i64
        ensures value { result ≡ self.now.width }
        ensures bound { IsDimension result }
    {
        i64::from(self.width)
    }

    /// How far it stretches.
    pub fn stretch(&self) -> i64
        ensures value { result ≡ self.now.stretch }
        ensures bound { IsDimension result }
    {
        i64::from(self.stretch)
    }

    /// The order of its stretch.
    pub fn stretch_order(&self) -> u8
        ensures value { result ≡ self.now.stretch_order }
        ensures bound { result ≤ 3 }
    {
        self.stretch_order
    }

    /// How far it shrinks.
    pub fn shrink(&self) -> i64
        ensures value { result ≡ self.now.shrink }
        ensures bound { IsDimension result }
    {
        i64::from(self.shrink)
    }

    /// The order of its shrink.
    pub fn shrink_order(&self) -> u8
        ensures value { result ≡ self.now.shrink_order }
        ensures bound { result ≤ 3 }
    {
        self.shrink_order
    }

    /// Both glues as one: widths add, and so do stretch of one order and shrink of one order; of two orders the higher is
    /// kept, unless there is nothing of it (TeX: The Program, section 1239). `Overflow` exactly where a size of the sum
    /// isn't a dimension.
    pub fn plus(&self, other: &Glue) -> Result<Glue, Overflow>
        ensures sum { IfOk result (λ g. g ≡ glue_sum self.now other.now) }
        ensures overflow { IsOk result ↔ IsGlue (glue_sum self.now other.now) }
    {
        let width = self.width() + other.width();
        let (stretch, stretch_order) = joined(
            (self.stretch(), self.stretch_order()),
            (other.stretch(), other.stretch_order()),
        );
        let (shrink, shrink_order) = joined(
            (self.shrink(), self.shrink_order()),
            (other.shrink(), other.shrink_order()),
        );
        Glue::try_new(width, stretch, stretch_order, shrink, shrink_order)
    }

    /// Each size negated; orders stay.
    pub fn negated(&self) -> Glue
        ensures { result ≡ glue_negated self.now }
    {
        Glue::new(
            -self.width(),
            -self.stretch(),
            self.stretch_order(),
            -self.shrink(),
            self.shrink_order(),
        )
    }
}

/// Two stretches, or two shrinks, as one: sizes, each with its order.
fn joined(a: (i64, u8), b: (i64, u8)) -> (i64, u8)
    requires a_in { IsDimension a.0 }
    requires b_in { IsDimension b.0 }
    ensures value { result ≡ joined_elastic a b }
    ensures order_in { a.1 ≤ 3 → b.1 ≤ 3 → result.1 ≤ 3 }
    ensures size_in { unsigned_abs result.0 < 2 ^ 31 }
{
    let (order_a, order_b) = (order(a), order(b));
    if order_a == order_b {
        (a.0 + b.0, order_a)
    } else if order_a < order_b {
        b
    } else {
        a
    }
}

/// The order, normal where there is nothing of it.
fn order(elastic: (i64, u8)) -> u8
    ensures { result ≡ order_of elastic }
{
    if elastic.0 == 0 { 0 } else { elastic.1 }
}
