//! The commands of small items.
ghost use Rattle.std.specs.Prelude.{◌≡◌, true, IfOk, IfErr, OnOk};
ghost use Rattle.tx_ship.specs.Commands as spec;
ghost use Rattle.tx_ship.specs.Within as within;
ghost use Rattle.tx_ship.specs.Written.{IsWritten};

use crate::characters::put_character;
use crate::error::ShipError;
use crate::output::Output;
use crate::places::{Cursor, Frame, Span};
use tx_node::Plain;
use tx_tfm::Fonts;

/// Appends the commands of a small item, of which only a character has any, and answers the cursor behind it. `OutsidePage`
/// comes exactly where it lies outside.
pub fn put_plain(
    output: &mut Output,
    fonts: &Fonts,
    item: Plain,
    frame: Frame,
    span: Span,
    cursor: Cursor,
) -> Result<Cursor, ShipError>
    requires near { within.IsNearBox frame }
    requires span_near { within.IsNearSpan span }
    requires on_page { within.IsReader cursor }
    ensures lies { OnOk result (within.plain_lies frame span item ≡ true) }
    ensures outside { IfErr result (λ e. within.IsOutside e (within.plain_lies frame span item)) }
    ensures written { OnOk result (IsWritten output.old output.new (spec.plain_commands fonts.now frame span (spec.pen_at output.old.fonts cursor) item)) }
    ensures next { IfOk result (λ next. next ≡ (spec.plain_commands fonts.now frame span (spec.pen_at output.old.fonts cursor) item).1.at) }
    ensures still { IfOk result within.IsReader }
{
    match item {
        Plain::Kern(_, _) | Plain::Glue(_) | Plain::Penalty(_) => Ok(cursor),
        Plain::Character(character) => {
            put_character(output, fonts, character, frame, span, cursor)
        }
    }
}
