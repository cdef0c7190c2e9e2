//! Sums over the items before a place.
ghost use Rattle.std.specs.Prelude.{◌≡◌, ◌≤◌, ◌^◌, ◌+◌, ◌+ℤ◌, ◌-ℤ◌, unsigned_abs, IfOk};
ghost use Rattle.tx_num.specs.Glue.{IsDimension};
ghost use Rattle.tx_node.specs.Setting.{glue_part};
ghost use Rattle.tx_insert.specs.Sums as spec;

use crate::error::SplitError;
use crate::kind::Kind;
use tx_node::{Change, glue_part};
use tx_num::{Glue, Scaled, fits};

/// What the items before a place have together, in sp: their height with all depths but the last, this depth, their stretch by its
/// order, and their shrink.
#[derive(Clone, Copy)]
pub struct Sums {
    pub height: i64,
    pub depth: i64,
    pub normal: i64,
    pub fil: i64,
    pub fill: i64,
    pub filll: i64,
    pub shrink: i64,
}

/// A size with one more, in sp.
pub fn plus(size: i64, more: i64) -> i64
    requires size_in { unsigned_abs size ≤ 2 ^ 40 }
    requires more_in { unsigned_abs more ≤ 2 ^ 40 }
    ensures value { result ≡ size +ℤ more }
    ensures size { unsigned_abs result ≤ unsigned_abs size + unsigned_abs more }
{
    size + more
}

/// A size less another, in sp.
fn minus(size: i64, other: i64) -> i64
    requires size_in { unsigned_abs size ≤ 2 ^ 41 }
    requires other_in { unsigned_abs other ≤ 2 ^ 41 }
    ensures { result ≡ size -ℤ other }
{
    size - other
}

/// The sums of nothing.
pub fn no_sums() -> Sums
    ensures value { result ≡ spec.no_sums }
    ensures small { spec.IsSmall result }
{
    Sums {
        height: 0,
        depth: 0,
        normal: 0,
        fil: 0,
        fill: 0,
        filll: 0,
        shrink: 0,
    }
}

/// The height with the last depth, in sp.
pub fn reach(sums: &Sums) -> i64
    requires { spec.IsSmall sums.now }
    ensures value { result ≡ spec.reach sums.now }
    ensures size { unsigned_abs result ≤ 2 ^ 31 }
{
    plus(sums.height, sums.depth)
}

/// With more height, and another depth, in sp.
fn lower(sums: &Sums, height: i64, depth: i64) -> Sums
    requires sums { spec.IsSmall sums.now }
    requires height { unsigned_abs height ≤ 2 ^ 31 }
    ensures { result ≡ spec.lower sums.now height depth }
{
    let mut more = *sums;
    more.height = plus(reach(sums), height);
    more.depth = depth;
    more
}

/// A sum with the stretch of an order of glue, in sp.
fn with_stretch(sum: i64, order: u8, glue: &Glue) -> i64
    requires { IsDimension sum }
    ensures { result ≡ spec.with_stretch sum order glue.now }
{
    plus(sum, glue_part(Change::Stretch, order, glue))
}

/// With the infinite stretch of glue.
fn with_infinite(sums: &Sums, glue: &Glue) -> Sums
    requires { spec.IsSmall sums.now }
    ensures { result ≡ spec.with_infinite sums.now glue.now }
{
    let mut more = *sums;
    more.fil = with_stretch(sums.fil, 1, glue);
    more.fill = with_stretch(sums.fill, 2, glue);
    more.filll = with_stretch(sums.filll, 3, glue);
    more
}

/// The sums with the stretch and the shrink of glue, each in sp.
pub fn with_elastic(sums: &Sums, glue: &Glue) -> Sums
    requires { spec.IsSmall sums.now }
    ensures { result ≡ spec.with_elastic sums.now glue.now }
{
    let mut more = with_infinite(sums, glue);
    more.normal = with_stretch(sums.normal, 0, glue);
    more.shrink = plus(sums.shrink, glue.shrink());
    more
}

/// With glue.
fn with_glue(sums: &Sums, glue: &Glue) -> Sums
    requires { spec.IsSmall sums.now }
    ensures value { result ≡ spec.with_glue sums.now glue.now }
    ensures size { unsigned_abs result.height ≤ 2 ^ 33 }
    ensures depth { unsigned_abs result.depth ≤ 2 ^ 31 }
{
    let mut more = with_elastic(sums, glue);
    more.height = plus(reach(sums), glue.width());
    more.depth = 0;
    more
}

/// With one more item.
fn joined(sums: &Sums, kind: &Kind) -> Sums
    requires { spec.IsSmall sums.now }
    ensures value { result ≡ spec.joined sums.now kind.now }
    ensures size { unsigned_abs result.height ≤ 2 ^ 33 }
    ensures depth { unsigned_abs result.depth ≤ 2 ^ 31 }
{
    match kind {
        Kind::Solid(height, depth) => lower(sums, i64::from(*height), i64::from(*depth)),
        Kind::Skip(glue) => with_glue(sums, glue),
        Kind::Kern(size) => lower(sums, i64::from(*size), 0),
        Kind::Penalty(_) | Kind::Still => *sums,
    }
}

/// Where the depth is beyond the greatest, the rest goes into the height.
fn carried(most: Scaled, sums: &Sums) -> Sums
    requires most { IsDimension most }
    requires size { unsigned_abs sums.now.height ≤ 2 ^ 33 }
    requires depth { unsigned_abs sums.now.depth ≤ 2 ^ 31 }
    ensures { result ≡ spec.carried most sums.now }
{
    let mut more = *sums;
    if most < sums.depth {
        more.height = minus(plus(sums.height, sums.depth), most);
        more.depth = most;
    }
    more
}

fn sizes_fit(sums: &Sums) -> bool
    ensures { result ≡ spec.sizes_fit sums.now }
{
    fits(sums.height) && fits(sums.depth)
}

/// Whether all stretch and the shrink are dimensions.
pub fn glue_fits(sums: &Sums) -> bool
    ensures { result ≡ spec.glue_fits sums.now }
{
    fits(sums.normal)
        && (fits(sums.fil) && (fits(sums.fill) && (fits(sums.filll) && fits(sums.shrink))))
}

/// Whether all sums are dimensions.
fn all_fit(sums: &Sums) -> bool
    ensures { result ≡ spec.all_fit sums.now }
{
    sizes_fit(sums) && glue_fits(sums)
}

/// Sums that all have to be dimensions.
fn checked(sums: Sums) -> Result<Sums, SplitError>
    ensures value { result ≡ spec.if_fits sums }
    ensures small { IfOk result spec.IsSmall }
{
    if all_fit(&sums) {
        Ok(sums)
    } else {
        Err(SplitError::SizeOutOfRange)
    }
}

/// The sums with one more item, as they stand behind it. `SizeOutOfRange` exactly where one of them is no dimension.
pub fn with_item(most: Scaled, sums: &Sums, kind: &Kind) -> Result<Sums, SplitError>
    requires most { IsDimension most }
    requires sums { spec.IsSmall sums.now }
    ensures value { result ≡ spec.with_item most sums.now kind.now }
    ensures small { IfOk result spec.IsSmall }
{
    checked(carried(most, &joined(sums, kind)))
}
