//! Whether what a box holds lies on the page.
ghost use Rattle.std.specs.Prelude.{◌≡◌, ◌≤◌, ◌^◌, ◌+ℤ◌, ◌-ℤ◌, unsigned_abs, IsTrue};
ghost use Rattle.tx_ship.specs.Commands.{cursor_at};
ghost use Rattle.tx_ship.specs.Within as spec;

use crate::places::{Cursor, Point, Sides};

/// The furthest place of a page, in sp, either way.
const FURTHEST: u64 = 1073741823;

fn is_on_page(place: i128) -> bool
    ensures { result ≡ spec.on_page place }
{
    place.unsigned_abs() <= u128::from(FURTHEST)
}

/// The same for a place that 64 bits hold.
pub fn is_within(place: i64) -> bool
    ensures { result ≡ spec.on_page place }
{
    place.unsigned_abs() <= FURTHEST
}

/// Whether a point lies on the page.
pub fn point_lies(at: Point) -> bool
    ensures value { result ≡ spec.point_lies at }
    ensures facts { IsTrue result → spec.IsReader (cursor_at at) }
{
    is_on_page(at.h) && is_on_page(at.v)
}

/// Whether the left edge of a rule or box and its right one do.
fn across_lies(at: Point, sides: Sides) -> bool
    requires at { spec.IsNear at }
    requires sides { spec.IsNearSides sides }
    ensures { result ≡ spec.across_lies at sides }
{
    is_on_page(at.h) && is_on_page(at.h + sides.width)
}

/// Where its upper edge lies.
fn top(at: Point, sides: Sides) -> i128
    requires at { spec.IsNear at }
    requires sides { spec.IsNearSides sides }
    ensures value { result ≡ at.v -ℤ sides.height }
    ensures near { unsigned_abs result ≤ 2 ^ 102 }
{
    at.v - sides.height
}

/// Where its lower edge lies.
fn bottom(at: Point, sides: Sides) -> i128
    requires at { spec.IsNear at }
    requires sides { spec.IsNearSides sides }
    ensures value { result ≡ at.v +ℤ sides.depth }
    ensures near { unsigned_abs result ≤ 2 ^ 102 }
{
    at.v + sides.depth
}

/// Whether its upper edge and its lower one do.
fn along_lies(at: Point, sides: Sides) -> bool
    requires at { spec.IsNear at }
    requires sides { spec.IsNearSides sides }
    ensures { result ≡ spec.along_lies at sides }
{
    is_on_page(top(at, sides)) && is_on_page(bottom(at, sides))
}

/// Whether all four edges of a rule or box lie on the page, which has its reference point there.
#[tactic(auto, unfolding(crate::specs::Within::edges_lie))]
pub fn edges_lie(at: Point, sides: Sides) -> bool
    requires at { spec.IsNear at }
    requires sides { spec.IsNearSides sides }
    ensures value { result ≡ spec.edges_lie at sides }
    ensures facts { IsTrue result → spec.Lies at sides }
{
    across_lies(at, sides) && along_lies(at, sides)
}

/// The cursor at a point of the page.
pub fn cursor_at(at: Point) -> Cursor
    requires { spec.IsReader (cursor_at at) }
    ensures { result ≡ cursor_at at }
{
    Cursor {
        right: at.h as i32,
        down: at.v as i32,
    }
}
