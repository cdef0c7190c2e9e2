//! The commands of items that hold no list of their own.
ghost use Rattle.std.specs.Prelude.{◌≡◌, ◌++◌, true, IfOk, IfErr, OnOk};
ghost use Rattle.tx_ship.specs.Commands as spec;
ghost use Rattle.tx_ship.specs.Standing.{reference as reference_of, upright, rule_sides as sides_of_rule};
ghost use Rattle.tx_ship.specs.Within as within;
ghost use Rattle.tx_ship.specs.Written.{IsWritten};

use crate::characters::put_character;
use crate::commands::{put_rule, put_special};
use crate::error::ShipError;
use crate::frames::{leaders_sides, rule_sides, size_of, upright_point};
use crate::output::Output;
use crate::places::{CornerRule, Cursor, Frame, Point, Sides, Span};
use crate::within::{cursor_at, edges_lie, point_lies};
use tx_bytes::Bytes;
use tx_node::Shared;
use tx_tfm::Fonts;

/// A rule by its lower left corner, which lies on the page with all its edges.
fn cornered(at: Point, sides: Sides) -> CornerRule
    requires { within.Lies at sides }
    ensures value { result ≡ spec.cornered at sides }
    ensures on_page { within.IsCornered result }
{
    CornerRule {
        corner: Cursor {
            right: at.h as i32,
            down: (at.v + sides.depth) as i32,
        },
        height: (sides.height + sides.depth) as i32,
        width: sides.width as i32,
    }
}

/// Appends the commands of a rule of a list, and answers the cursor behind it.
fn put_rule_in(
    body: &mut Vec<u8>,
    frame: Frame,
    span: Span,
    cursor: Cursor,
    sides: Sides,
) -> Result<Cursor, ShipError>
    requires near { within.IsNearBox frame }
    requires span_near { within.IsNearSpan span }
    requires sides_near { within.IsNearSides sides }
    requires on_page { within.IsReader cursor }
    ensures lies { OnOk result (within.rule_lies frame span sides ≡ true) }
    ensures outside { IfErr result (λ e. within.IsOutside e (within.rule_lies frame span sides)) }
    ensures commands { OnOk result (body.new.items ≡ body.old.items ++ (spec.rule_commands frame span cursor sides).0) }
    ensures next { IfOk result (λ next. next ≡ (spec.rule_commands frame span cursor sides).1) }
    ensures still { IfOk result within.IsReader }
{
    let at = upright_point(frame, span, sides.height);
    if !edges_lie(at, sides) {
        return Err(ShipError::OutsidePage);
    }
    Ok(put_rule(body, frame.head.direction, cursor, cornered(at, sides))?)
}

/// Appends the commands of a special of a list, and answers the cursor at it.
fn put_special_in(
    body: &mut Vec<u8>,
    frame: Frame,
    span: Span,
    cursor: Cursor,
    text: &Bytes,
) -> Result<Cursor, ShipError>
    requires near { within.IsNearBox frame }
    requires span_near { within.IsNearSpan span }
    requires on_page { within.IsReader cursor }
    ensures lies { OnOk result (within.special_lies frame span ≡ true) }
    ensures outside { IfErr result (λ e. within.IsOutside e (within.special_lies frame span)) }
    ensures commands { OnOk result (body.new.items ≡ body.old.items ++ (spec.special_commands frame span cursor text.now).0) }
    ensures next { IfOk result (λ next. next ≡ (spec.special_commands frame span cursor text.now).1) }
    ensures still { IfOk result within.IsReader }
{
    let at = upright_point(frame, span, 0);
    if !point_lies(at) {
        return Err(ShipError::OutsidePage);
    }
    let to = cursor_at(at);
    put_special(body, cursor, to, text)?;
    Ok(to)
}

/// Appends the commands of a larger item without a list of its own, and answers the cursor behind it. Leaders of a rule are one
/// where their glue is longer than nothing.
pub fn put_shared(
    output: &mut Output,
    fonts: &Fonts,
    item: &Shared,
    frame: Frame,
    span: Span,
    cursor: Cursor,
) -> Result<Cursor, ShipError>
    requires near { within.IsNearBox frame }
    requires span_near { within.IsNearSpan span }
    requires on_page { within.IsReader cursor }
    ensures lies { OnOk result (within.shared_lies frame span item.now ≡ true) }
    ensures outside { IfErr result (λ e. within.IsOutside e (within.shared_lies frame span item.now)) }
    ensures written { OnOk result (IsWritten output.old output.new (spec.shared_commands fonts.now frame span (spec.pen_at output.old.fonts cursor) item.now)) }
    ensures next { IfOk result (λ next. next ≡ (spec.shared_commands fonts.now frame span (spec.pen_at output.old.fonts cursor) item.now).1.at) }
    ensures still { IfOk result within.IsReader }
{
    match item {
        Shared::Rule(rule) => {
            let sides = rule_sides(frame.head, *rule);
            put_rule_in(&mut output.body, frame, span, cursor, sides)
        }
        Shared::Leaders(leaders) => {
            if 0 < size_of(span) {
                let sides = leaders_sides(frame.head, leaders.rule, span);
                put_rule_in(&mut output.body, frame, span, cursor, sides)
            } else {
                Ok(cursor)
            }
        }
        Shared::Special(text) => put_special_in(&mut output.body, frame, span, cursor, text),
        Shared::Ligature(ligature) => {
            put_character(output, fonts, ligature.character, frame, span, cursor)
        }
        Shared::Mark(_) => Ok(cursor),
    }
}
