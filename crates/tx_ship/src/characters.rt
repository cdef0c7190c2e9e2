//! The commands of characters, and of the fonts that they need.
ghost use Rattle.std.specs.Prelude.{◌≡◌, ◌≤◌, ◌<◌, ◌^◌, ◌+ℤ◌, ◌-ℤ◌, ◌++◌, ◌&&◌, true, length, unsigned_abs, IsTrue, IfOk, IfErr, OnOk};
ghost use Rattle.tx_tfm.specs.Fonts.{font_at};
ghost use Rattle.tx_ship.specs.Standing.{character_sides as sides_of};
ghost use Rattle.tx_ship.specs.Characters as spec;
ghost use Rattle.tx_ship.specs.Commands as commands;
ghost use Rattle.tx_ship.specs.Within as within;
ghost use Rattle.tx_ship.specs.Written.{IsWritten};

use crate::commands::move_to;
use crate::error::ShipError;
use crate::fonts::{definition_for, dvi_number};
use crate::frames::upright_point;
use crate::output::Output;
use crate::places::{Cursor, Frame, Point, Span};
use crate::within::{cursor_at, is_within, point_lies};
use std::alloc::AllocError;
use tx_dvi::definition;
use tx_node::Character;
use tx_tfm::{Fonts, NamedFont};

const SET1: u8 = 128;

const FNT_NUM_0: u8 = 171;

const FNT1: u8 = 235;

/// Appends the command that chooses a font.
#[tactic(auto, unfolding(crate::specs::Characters::choice))]
fn put_choice(body: &mut Vec<u8>, number: u8) -> Result<(), AllocError>
    ensures { OnOk result (body.new.items ≡ body.old.items ++ spec.choice number) }
{
    if number < 64 {
        body.push(FNT_NUM_0 + number)?;
    } else {
        body.push(FNT1)?;
        body.push(number)?;
    }
    Ok(())
}

/// Appends the command that sets a character.
#[tactic(auto, unfolding(crate::specs::Characters::set_code))]
fn put_code(body: &mut Vec<u8>, code: u8) -> Result<(), AllocError>
    ensures { OnOk result (body.new.items ≡ body.old.items ++ spec.set_code code) }
{
    if code < 128 {
        body.push(code)?;
    } else {
        body.push(SET1)?;
        body.push(code)?;
    }
    Ok(())
}

/// Appends the definition of a font, if it isn't defined.
#[inline(never)]
#[tactic(auto, unfolding(crate::specs::Characters::definition_commands))]
fn define_font(output: &mut Output, number: u8, font: &NamedFont) -> Result<(), AllocError>
    requires { length font.now.name ≤ 255 }
    ensures bytes { OnOk result (output.new.body.items ≡ output.old.body.items ++ (spec.definition_commands (spec.definition_for number font.now) output.old.fonts).0) }
    ensures fonts { OnOk result (output.new.fonts ≡ (spec.definition_commands (spec.definition_for number font.now) output.old.fonts).1) }
{
    if output.fonts.is_known(dvi_number(number)) {
        return Ok(());
    }
    let defined = definition_for(number, font)?;
    let bytes = definition(*output.body.allocator(), &defined)?;
    output.body.extend_from_slice(bytes.as_slice())?;
    output.fonts.define(defined)
}

/// Appends the commands after which a font is the chosen one.
#[tactic(auto, unfolding(crate::specs::Characters::font_commands))]
fn choose_font(output: &mut Output, number: u8, font: &NamedFont) -> Result<(), AllocError>
    requires { length font.now.name ≤ 255 }
    ensures bytes { OnOk result (output.new.body.items ≡ output.old.body.items ++ (spec.font_commands (spec.definition_for number font.now) output.old.fonts).0) }
    ensures fonts { OnOk result (output.new.fonts ≡ (spec.font_commands (spec.definition_for number font.now) output.old.fonts).1) }
{
    let named = dvi_number(number);
    if output.fonts.is_chosen(named) {
        return Ok(());
    }
    define_font(output, number, font)?;
    put_choice(&mut output.body, named)?;
    output.fonts.choose(named);
    Ok(())
}

/// The cursor behind a character.
fn behind_character(at: Cursor, character: Character) -> Cursor
    requires { within.IsReader (commands.behind_character at character) }
    ensures { result ≡ commands.behind_character at character }
{
    Cursor {
        right: at.right + character.width,
        down: at.down,
    }
}

/// Appends a character of a font at a point, and answers the cursor behind it.
#[tactic(auto, unfolding(crate::specs::Commands::character_item))]
fn put_at(
    output: &mut Output,
    font: &NamedFont,
    cursor: Cursor,
    at: Cursor,
    character: Character,
) -> Result<Cursor, AllocError>
    requires name { length font.now.name ≤ 255 }
    requires from { within.IsReader cursor }
    requires to { within.IsReader at }
    requires behind { within.IsReader (commands.behind_character at character) }
    ensures written { OnOk result (IsWritten output.old output.new (commands.character_item (Some font.now) (commands.pen_at output.old.fonts cursor) at character)) }
    ensures next { IfOk result (λ next. next ≡ (commands.character_item (Some font.now) (commands.pen_at output.old.fonts cursor) at character).1.at) }
    ensures on_page { IfOk result within.IsReader }
{
    move_to(&mut output.body, cursor, at)?;
    choose_font(output, character.font, font)?;
    put_code(&mut output.body, character.code)?;
    Ok(behind_character(at, character))
}

/// Whether what lies so far to the right of a place of the page, or below it, lies on the page too.
fn lies_past(place: i64, size: i32) -> bool
    requires { unsigned_abs place < 2 ^ 30 }
    ensures { result ≡ within.on_page (place +ℤ size) }
{
    is_within(place + i64::from(size))
}

/// The same of what lies so far above it.
fn lies_above(place: i64, size: i32) -> bool
    requires { unsigned_abs place < 2 ^ 30 }
    ensures { result ≡ within.on_page (place -ℤ size) }
{
    is_within(place - i64::from(size))
}

/// Whether the right, the upper and the lower edge of a character lie on the page, which has its reference point there.
fn sides_lie(right: i64, down: i64, character: Character) -> bool
    requires right { unsigned_abs right < 2 ^ 30 }
    requires down { unsigned_abs down < 2 ^ 30 }
    ensures { result ≡ (within.on_page (right +ℤ character.width) && (within.on_page (down -ℤ character.height) && within.on_page (down +ℤ character.depth))) }
{
    lies_past(right, character.width)
        && (lies_above(down, character.height) && lies_past(down, character.depth))
}

/// Whether a character lies on the page whose reference point is there: its four edges and that point do.
fn lies(at: Point, character: Character) -> bool
    requires { within.IsNear at }
    ensures value { result ≡ (within.edges_lie at (sides_of character) && within.point_lies at) }
    ensures point { IsTrue result → within.IsReader (commands.cursor_at at) }
    ensures behind { IsTrue result → within.IsReader (commands.behind_character (commands.cursor_at at) character) }
{
    point_lies(at) && sides_lie(at.h as i64, at.v as i64, character)
}

/// Appends a character at a point, unless there is no font of its number, and answers the cursor behind it.
#[inline(always)]
fn put_found(
    output: &mut Output,
    fonts: &Fonts,
    cursor: Cursor,
    at: Cursor,
    character: Character,
) -> Result<Cursor, AllocError>
    requires from { within.IsReader cursor }
    requires to { within.IsReader at }
    requires behind { within.IsReader (commands.behind_character at character) }
    ensures written { OnOk result (IsWritten output.old output.new (commands.character_item (font_at fonts.now character.font) (commands.pen_at output.old.fonts cursor) at character)) }
    ensures next { IfOk result (λ next. next ≡ (commands.character_item (font_at fonts.now character.font) (commands.pen_at output.old.fonts cursor) at character).1.at) }
    ensures still { IfOk result within.IsReader }
{
    match fonts.get(character.font) {
        Some(font) => put_at(output, font, cursor, at, character),
        None => Ok(cursor),
    }
}

/// Appends a character of a list, and answers the cursor behind it. `OutsidePage` comes exactly where it lies outside.
#[inline(always)]
pub fn put_character(
    output: &mut Output,
    fonts: &Fonts,
    character: Character,
    frame: Frame,
    span: Span,
    cursor: Cursor,
) -> Result<Cursor, ShipError>
    requires near { within.IsNearBox frame }
    requires span_near { within.IsNearSpan span }
    requires on_page { within.IsReader cursor }
    ensures lies { OnOk result (within.character_lies frame span character ≡ true) }
    ensures outside { IfErr result (λ e. within.IsOutside e (within.character_lies frame span character)) }
    ensures written { OnOk result (IsWritten output.old output.new (commands.character_commands fonts.now frame span (commands.pen_at output.old.fonts cursor) character)) }
    ensures next { IfOk result (λ next. next ≡ (commands.character_commands fonts.now frame span (commands.pen_at output.old.fonts cursor) character).1.at) }
    ensures still { IfOk result within.IsReader }
{
    let at = upright_point(frame, span, i128::from(character.height));
    if !lies(at, character) {
        return Err(ShipError::OutsidePage);
    }
    Ok(put_found(output, fonts, cursor, cursor_at(at), character)?)
}
