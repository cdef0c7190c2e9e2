//! The commands of a list, appended to those before it.
ghost use Rattle.std.specs.Prelude.{◌≡◌, ◌≤◌, ◌^◌, ◌++◌, pos, true, unsigned_abs, IsTrue, IfOk, IfErr, OnOk};
ghost use Rattle.tx_node.specs.Items.{items_of, leaders_item};
ghost use Rattle.tx_node.specs.Nodes.{item_of, list_of};
ghost use Rattle.tx_node.specs.Setting.{IsSet, sums_fit, begun};
ghost use Rattle.tx_ship.specs.Commands as spec;
ghost use Rattle.tx_ship.specs.Standing.{copy_at as point_of_copy, frame_at as framed_at};
ghost use Rattle.tx_ship.specs.Within as within;
ghost use Rattle.tx_ship.specs.Written.{IsWritten};

use crate::commands::{close, move_down, move_to_copy, open};
use crate::error::ShipError;
use crate::frames::{
    box_sides, copies_from, copy_at, first_copy, frame_at, is_entered, next_copy, place,
    shifted_point,
};
use crate::output::Output;
use crate::places::{Cursor, Frame, Point, Span};
use crate::plain::put_plain;
use crate::shared::put_shared;
use crate::within::{cursor_at, edges_lie, point_lies};
use std::alloc::AllocError;
use tx_node::{BoxLeaders, BoxNode, Copies, Direction, Node, Reached};
use tx_tfm::Fonts;

/// Goes to the baseline of a box in a list of this direction, and answers the cursor there.
fn approach(
    body: &mut Vec<u8>,
    direction: Direction,
    cursor: Cursor,
    at: Cursor,
) -> Result<Cursor, AllocError>
    requires from { within.IsReader cursor }
    requires to { within.IsReader at }
    ensures commands { OnOk result (body.new.items ≡ body.old.items ++ spec.approach direction cursor at) }
    ensures next { IfOk result (λ next. next ≡ spec.approached direction cursor at) }
    ensures on_page { IfOk result within.IsReader }
{
    match direction {
        Direction::Horizontal => Ok(cursor),
        Direction::Vertical => {
            move_down(body, cursor, at)?;
            Ok(Cursor {
                right: cursor.right,
                down: at.down,
            })
        }
    }
}

/// Appends the commands of a list, from a cursor on. `OutsidePage` comes exactly where something of it lies outside.
#[cycle(put)]
pub fn put_list(
    output: &mut Output,
    fonts: &Fonts,
    list: &[Node],
    frame: Frame,
    start: Cursor,
) -> Result<(), ShipError>
    requires is_set { IsSet frame.head.setting }
    requires sums { sums_fit frame.head.setting (pos 0) (items_of (list_of list.now)) ≡ true }
    requires near { within.IsNearBox frame }
    requires on_page { within.IsReader start }
    ensures lies { OnOk result (within.list_lies frame begun (items_of (list_of list.now)) ≡ true) }
    ensures outside { IfErr result (λ e. within.IsOutside e (within.list_lies frame begun (items_of (list_of list.now)))) }
    ensures written { OnOk result (IsWritten output.old output.new (spec.list_commands fonts.now frame begun (spec.pen_at output.old.fonts start) (items_of (list_of list.now)))) }
{
    let mut cursor = start;
    let mut reached = Reached { natural: 0, sum: 0 };
    let mut from = place(frame, reached);
    for node in list {
        reached = frame.head.behind(reached, node);
        let to = place(frame, reached);
        cursor = put_node(output, fonts, node, frame, Span { from, to }, cursor)?;
        from = to;
    }
    Ok(())
}

/// Appends the commands of an item, and answers the cursor behind it.
#[cycle(put)]
#[tactic(auto, unfolding(crate::specs::Commands::list_commands, crate::specs::Within::list_lies))]
fn put_node(
    output: &mut Output,
    fonts: &Fonts,
    node: &Node,
    frame: Frame,
    span: Span,
    cursor: Cursor,
) -> Result<Cursor, ShipError>
    requires near { within.IsNearBox frame }
    requires span_near { within.IsNearSpan span }
    requires on_page { within.IsReader cursor }
    ensures lies { OnOk result (within.item_lies frame span (item_of node.now) ≡ true) }
    ensures outside { IfErr result (λ e. within.IsOutside e (within.item_lies frame span (item_of node.now))) }
    ensures written { OnOk result (IsWritten output.old output.new (spec.item_commands fonts.now frame span (spec.pen_at output.old.fonts cursor) (item_of node.now))) }
    ensures next { IfOk result (λ next. next ≡ (spec.item_commands fonts.now frame span (spec.pen_at output.old.fonts cursor) (item_of node.now)).1.at) }
    ensures still { IfOk result within.IsReader }
{
    match node {
        Node::Plain(item) => put_plain(output, fonts, *item, frame, span, cursor),
        Node::Shared(item) => put_shared(output, fonts, item, frame, span, cursor),
        Node::Box(shift, inner) => {
            let at = shifted_point(frame, span, i128::from(*shift), inner);
            put_box(output, fonts, inner, frame.head.direction, at, cursor)
        }
        Node::Discretionary(_) | Node::Adjustment(_) | Node::Insertion(_) => Ok(cursor),
        Node::BoxLeaders(leaders) => put_leaders(output, fonts, leaders, frame, span, cursor),
    }
}

/// Appends the commands of the copies that leaders make of a box, of which one whose list is empty has none, and answers the cursor
/// behind them.
#[cycle(put)]
#[tactic(auto, unfolding(crate::specs::Commands::list_commands, crate::specs::Within::list_lies))]
fn put_leaders(
    output: &mut Output,
    fonts: &Fonts,
    leaders: &BoxLeaders,
    frame: Frame,
    span: Span,
    cursor: Cursor,
) -> Result<Cursor, ShipError>
    requires near { within.IsNearBox frame }
    requires span_near { within.IsNearSpan span }
    requires on_page { within.IsReader cursor }
    ensures lies { OnOk result (within.item_lies frame span (leaders_item leaders.now.head leaders.now.inner) ≡ true) }
    ensures outside { IfErr result (λ e. within.IsOutside e (within.item_lies frame span (leaders_item leaders.now.head leaders.now.inner))) }
    ensures written { OnOk result (IsWritten output.old output.new (spec.item_commands fonts.now frame span (spec.pen_at output.old.fonts cursor) (leaders_item leaders.now.head leaders.now.inner))) }
    ensures next { IfOk result (λ next. next ≡ (spec.item_commands fonts.now frame span (spec.pen_at output.old.fonts cursor) (leaders_item leaders.now.head leaders.now.inner)).1.at) }
    ensures still { IfOk result within.IsReader }
{
    let inner = leaders.inner();
    if !is_entered(inner) {
        return Ok(cursor);
    }
    let copies = copies_from(frame, span, leaders);
    put_copies(
        output,
        fonts,
        inner,
        frame,
        copies,
        first_copy(span, copies),
        cursor,
    )
}

/// Appends the commands of copies of a box, of which the first begins there, and answers the cursor behind them.
#[cycle(put)]
fn put_copies(
    output: &mut Output,
    fonts: &Fonts,
    inner: &BoxNode,
    frame: Frame,
    copies: Copies,
    first: i128,
    start: Cursor,
) -> Result<Cursor, ShipError>
    requires near { within.IsNearBox frame }
    requires step { copies.step ≤ 2 ^ 34 }
    requires first { unsigned_abs first ≤ 2 ^ 100 }
    requires on_page { within.IsReader start }
    ensures lies { OnOk result (within.copies_lie (within.copy_lies inner.now) (point_of_copy frame inner.now.head) copies.step copies.count first ≡ true) }
    ensures outside { IfErr result (λ e. within.IsOutside e (within.copies_lie (within.copy_lies inner.now) (point_of_copy frame inner.now.head) copies.step copies.count first)) }
    ensures written { OnOk result (IsWritten output.old output.new (spec.copied frame.head.direction (spec.inside fonts.now inner.now) (point_of_copy frame inner.now.head) copies.step copies.count first (spec.pen_at output.old.fonts start))) }
    ensures next { IfOk result (λ next. next ≡ (spec.copied frame.head.direction (spec.inside fonts.now inner.now) (point_of_copy frame inner.now.head) copies.step copies.count first (spec.pen_at output.old.fonts start)).1.at) }
    ensures still { IfOk result within.IsReader }
{
    let mut cursor = start;
    let mut from = first;
    let mut left = copies.count;
    while left > 0 {
        let at = copy_at(frame, inner, from);
        cursor = put_copy(output, fonts, inner, frame.head.direction, at, cursor)?;
        from = next_copy(from, copies.step);
        left -= 1;
    }
    Ok(cursor)
}

/// Appends the commands of a copy of a box in a list of this direction, with its reference point there, and answers the cursor at it.
#[cycle(put)]
fn put_copy(
    output: &mut Output,
    fonts: &Fonts,
    inner: &BoxNode,
    direction: Direction,
    at: Point,
    cursor: Cursor,
) -> Result<Cursor, ShipError>
    requires near { within.IsNear at }
    requires on_page { within.IsReader cursor }
    ensures lies { OnOk result (within.copy_lies inner.now at ≡ true) }
    ensures outside { IfErr result (λ e. within.IsOutside e (within.copy_lies inner.now at)) }
    ensures written { OnOk result (IsWritten output.old output.new (spec.copy_commands direction (spec.pen_at output.old.fonts cursor) (spec.cursor_at at) (spec.inside fonts.now inner.now at (spec.pen_at output.old.fonts (spec.cursor_at at))))) }
    ensures next { IfOk result (λ next. next ≡ spec.cursor_at at) }
    ensures still { IfOk result within.IsReader }
{
    if !box_lies(inner, at) {
        return Err(ShipError::OutsidePage);
    }
    let reader = cursor_at(at);
    move_to_copy(&mut output.body, direction, cursor, reader)?;
    put_framed(output, fonts, inner, at, reader)?;
    Ok(reader)
}

/// Appends the commands of a box in a list of this direction, with a push and a pop round those of its list.
#[cycle(put)]
fn put_box(
    output: &mut Output,
    fonts: &Fonts,
    inner: &BoxNode,
    direction: Direction,
    at: Point,
    cursor: Cursor,
) -> Result<Cursor, ShipError>
    requires near { within.IsNear at }
    requires on_page { within.IsReader cursor }
    ensures lies { OnOk result (within.box_lies at inner.now.head (items_of inner.now.list) (within.inside_lies inner.now at) ≡ true) }
    ensures outside { IfErr result (λ e. within.IsOutside e (within.box_lies at inner.now.head (items_of inner.now.list) (within.inside_lies inner.now at))) }
    ensures written { OnOk result (IsWritten output.old output.new (spec.box_commands fonts.now direction (spec.pen_at output.old.fonts cursor) at inner.now)) }
    ensures next { IfOk result (λ next. next ≡ (spec.box_commands fonts.now direction (spec.pen_at output.old.fonts cursor) at inner.now).1.at) }
    ensures still { IfOk result within.IsReader }
{
    if !is_entered(inner) {
        return Ok(cursor);
    }
    if !box_lies(inner, at) {
        return Err(ShipError::OutsidePage);
    }
    let reader = approach(&mut output.body, direction, cursor, cursor_at(at))?;
    put_framed(output, fonts, inner, at, reader)?;
    Ok(reader)
}

/// Appends the commands of the list of a box, and a push and a pop round them.
#[cycle(put)]
fn put_framed(
    output: &mut Output,
    fonts: &Fonts,
    inner: &BoxNode,
    at: Point,
    cursor: Cursor,
) -> Result<(), ShipError>
    requires at_on_page { within.IsReader (spec.cursor_at at) }
    requires on_page { within.IsReader cursor }
    ensures lies { OnOk result (within.inside_lies inner.now at ≡ true) }
    ensures outside { IfErr result (λ e. within.IsOutside e (within.inside_lies inner.now at)) }
    ensures written { OnOk result (IsWritten output.old output.new (spec.framed_all (spec.inside fonts.now inner.now at (spec.pen_at output.old.fonts cursor)))) }
{
    let start = open(&mut output.body)?;
    put_inside(output, fonts, inner, at, cursor)?;
    close(&mut output.body, start)?;
    Ok(())
}

/// Appends the commands of the list of a box.
#[cycle(put)]
pub fn put_inside(
    output: &mut Output,
    fonts: &Fonts,
    inner: &BoxNode,
    at: Point,
    cursor: Cursor,
) -> Result<(), ShipError>
    requires at_on_page { within.IsReader (spec.cursor_at at) }
    requires on_page { within.IsReader cursor }
    ensures lies { OnOk result (within.inside_lies inner.now at ≡ true) }
    ensures outside { IfErr result (λ e. within.IsOutside e (within.inside_lies inner.now at)) }
    ensures written { OnOk result (IsWritten output.old output.new (spec.inside fonts.now inner.now at (spec.pen_at output.old.fonts cursor))) }
{
    put_list(output, fonts, inner.list(), frame_at(inner, at), cursor)
}

/// Whether the edges of a box and its reference point, which is there, lie on the page.
pub fn box_lies(inner: &BoxNode, at: Point) -> bool
    requires { within.IsNear at }
    ensures value { result ≡ within.head_lies at inner.now.head }
    ensures facts { IsTrue result → within.IsReader (spec.cursor_at at) }
{
    edges_lie(at, box_sides(inner)) && point_lies(at)
}
