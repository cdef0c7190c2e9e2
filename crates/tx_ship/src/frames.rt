//! Where the items of a list stand on the page.
ghost use Rattle.std.specs.Prelude.{◌≡◌, ◌≤◌, ◌<◌, ◌^◌, ◌+ℤ◌, pos, true, unsigned_abs};
ghost use Rattle.tx_node.specs.Items.{items_of};
ghost use Rattle.tx_node.specs.Setting.{IsSet, reach_of, sums_fit};
ghost use Rattle.tx_ship.specs.Commands.{cursor_at, is_entered as entered_spec};
ghost use Rattle.tx_ship.specs.Standing as spec;
ghost use Rattle.tx_ship.specs.Within as within;

use crate::places::{Frame, Point, Sides, Span, Stand};
use tx_node::{BoxHead, BoxLeaders, BoxNode, Copies, Direction, Reached, Rule, side};

/// Where the list of a box begins: at its left edge, or at its upper one.
fn start_of(frame: Frame) -> i128
    requires { within.IsNearBox frame }
    ensures value { result ≡ spec.start_of frame.head.direction frame }
    ensures near { unsigned_abs result ≤ 2 ^ 67 }
{
    match frame.head.direction {
        Direction::Horizontal => frame.at.h,
        Direction::Vertical => frame.at.v - i128::from(frame.head.height),
    }
}

/// Where an item stands behind so much of the list, once its glue is set.
pub fn place(frame: Frame, reached: Reached) -> i128
    requires near { within.IsNearBox frame }
    requires is_set { IsSet frame.head.setting }
    requires natural { unsigned_abs reached.natural ≤ 2 ^ 97 }
    requires sum { unsigned_abs reached.sum < 2 ^ 30 }
    ensures value { result ≡ spec.place frame (reach_of reached) }
    ensures near { unsigned_abs result ≤ 2 ^ 99 }
{
    start_of(frame) + frame.head.stands(reached)
}

/// The reference point of an item.
fn reference(frame: Frame, stand: Stand) -> Point
    requires near { within.IsNearBox frame }
    requires from { unsigned_abs stand.from ≤ 2 ^ 100 }
    requires shift { unsigned_abs stand.shift ≤ 2 ^ 31 }
    requires height { unsigned_abs stand.height ≤ 2 ^ 100 }
    ensures value { result ≡ spec.reference frame.head.direction frame stand }
    ensures near { within.IsNear result }
{
    match frame.head.direction {
        Direction::Horizontal => Point {
            h: stand.from,
            v: frame.at.v + stand.shift,
        },
        Direction::Vertical => Point {
            h: frame.at.h + stand.shift,
            v: stand.from + stand.height,
        },
    }
}

/// That of an item of this height that isn't shifted.
pub fn upright_point(frame: Frame, span: Span, height: i128) -> Point
    requires near { within.IsNearBox frame }
    requires span_near { within.IsNearSpan span }
    requires height { unsigned_abs height ≤ 2 ^ 100 }
    ensures value { result ≡ spec.reference frame.head.direction frame (spec.upright span.from height) }
    ensures near { within.IsNear result }
{
    let stand = Stand {
        from: span.from,
        shift: 0,
        height,
    };
    reference(frame, stand)
}

/// That of a box that is so far shifted.
pub fn shifted_point(frame: Frame, span: Span, shift: i128, inner: &BoxNode) -> Point
    requires near { within.IsNearBox frame }
    requires span_near { within.IsNearSpan span }
    requires shift { unsigned_abs shift ≤ 2 ^ 31 }
    ensures value { result ≡ spec.reference frame.head.direction frame (spec.shifted span.from shift inner.now.head) }
    ensures near { within.IsNear result }
{
    let stand = Stand {
        from: span.from,
        shift,
        height: i128::from(inner.height()),
    };
    reference(frame, stand)
}

/// The sides of a rule, which run as far as the box across its list.
pub fn rule_sides(head: BoxHead, rule: Rule) -> Sides
    ensures value { result ≡ spec.rule_sides head.direction head rule }
    ensures near { within.IsNearSides result }
{
    match head.direction {
        Direction::Horizontal => Sides {
            width: i128::from(side(rule.width)),
            height: i128::from(rule.height.unwrap_or(head.height)),
            depth: i128::from(rule.depth.unwrap_or(head.depth)),
        },
        Direction::Vertical => Sides {
            width: i128::from(rule.width.unwrap_or(head.width)),
            height: i128::from(side(rule.height)),
            depth: i128::from(side(rule.depth)),
        },
    }
}

/// How long an item is, once glue is set.
pub fn size_of(span: Span) -> i128
    requires { within.IsNearSpan span }
    ensures value { result ≡ spec.size_of span }
    ensures near { unsigned_abs result ≤ 2 ^ 100 }
{
    span.to - span.from
}

/// Those of a rule that fills leaders from here to there.
pub fn leaders_sides(head: BoxHead, rule: Rule, span: Span) -> Sides
    requires { within.IsNearSpan span }
    ensures value { result ≡ spec.leaders_sides head.direction head rule (spec.size_of span) }
    ensures near { within.IsNearSides result }
{
    let size = size_of(span);
    match head.direction {
        Direction::Horizontal => Sides {
            width: size,
            height: i128::from(rule.height.unwrap_or(head.height)),
            depth: i128::from(rule.depth.unwrap_or(head.depth)),
        },
        Direction::Vertical => Sides {
            width: i128::from(rule.width.unwrap_or(head.width)),
            height: size,
            depth: 0,
        },
    }
}

/// The copies that leaders from here to there make of their box.
pub fn copies_from(frame: Frame, span: Span, leaders: &BoxLeaders) -> Copies
    requires near { within.IsNearBox frame }
    requires span_near { within.IsNearSpan span }
    ensures value { result ≡ spec.copies_from frame span leaders.now.head.kind leaders.now.inner.head }
    ensures before { result.before ≤ 2 ^ 34 }
    ensures step { result.step ≤ 2 ^ 34 }
{
    leaders.copies(
        frame.head.direction,
        span.from - start_of(frame),
        size_of(span),
    )
}

/// Where the first copy begins.
pub fn first_copy(span: Span, copies: Copies) -> i128
    requires span_near { within.IsNearSpan span }
    requires before { copies.before ≤ 2 ^ 34 }
    ensures value { result ≡ spec.first_copy span copies }
    ensures near { unsigned_abs result ≤ 2 ^ 100 }
{
    span.from + copies.before as i128
}

/// Where the copy behind one begins that begins there.
pub fn next_copy(from: i128, step: u128) -> i128
    requires from { unsigned_abs from ≤ 2 ^ 32 }
    requires step { step ≤ 2 ^ 34 }
    ensures value { result ≡ from +ℤ pos step }
    ensures near { unsigned_abs result ≤ 2 ^ 100 }
{
    from + step as i128
}

/// The reference point of a copy that begins there.
pub fn copy_at(frame: Frame, inner: &BoxNode, from: i128) -> Point
    requires near { within.IsNearBox frame }
    requires from { unsigned_abs from ≤ 2 ^ 100 }
    ensures value { result ≡ spec.copy_at frame inner.now.head from }
    ensures near { within.IsNear result }
    ensures on_page { within.IsReader (cursor_at result) → unsigned_abs from ≤ 2 ^ 32 }
{
    let stand = Stand {
        from,
        shift: 0,
        height: i128::from(inner.height()),
    };
    reference(frame, stand)
}

/// The sides of a box.
pub fn box_sides(inner: &BoxNode) -> Sides
    ensures value { result ≡ spec.box_sides inner.now.head }
    ensures near { within.IsNearSides result }
{
    Sides {
        width: i128::from(inner.width()),
        height: i128::from(inner.height()),
        depth: i128::from(inner.depth()),
    }
}

/// What a box is beside its list, which sets its glue by what its list has of it.
pub fn head_of(inner: &BoxNode) -> BoxHead
    ensures value { result ≡ inner.now.head }
    ensures is_set { IsSet result.setting }
    ensures sums { sums_fit result.setting (pos 0) (items_of inner.now.list) ≡ true }
{
    BoxHead {
        direction: inner.direction(),
        width: inner.width(),
        height: inner.height(),
        depth: inner.depth(),
        setting: inner.setting(),
    }
}

/// A box with its reference point there.
pub fn frame_at(inner: &BoxNode, at: Point) -> Frame
    ensures value { result ≡ spec.frame_at inner.now.head at }
    ensures is_set { IsSet result.head.setting }
    ensures sums { sums_fit result.head.setting (pos 0) (items_of inner.now.list) ≡ true }
{
    Frame {
        head: head_of(inner),
        at,
    }
}

/// Whether TeX enters a box: its list isn't empty.
pub fn is_entered(inner: &BoxNode) -> bool
    ensures { result ≡ entered_spec (items_of inner.now.list) }
{
    !inner.list().is_empty()
}
