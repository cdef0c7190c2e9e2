//! Which fonts a page uses.
ghost use Rattle.std.specs.Prelude.{◌≡◌, ◌<◌, ◌++◌, length, IfOk, OnOk};
ghost use Rattle.std.specs.List.{All};
ghost use Rattle.tx_dvi.specs.Page.{IsNamed};
ghost use Rattle.tx_dviselect.specs.Uses as spec;

use std::alloc::{AllocError, Global};
use tx_dvi::{FontDefinition, is_font_number, opcode_of, operands_of};
use tx_list::{Items, Kept};

/// Whether more bytes of the command are wanted that these begin; none are where they begin no command of a page.
fn is_wanting(bytes: &[u8]) -> bool
    ensures { result ≡ spec.is_wanting bytes.now }
{
    match operands_of(bytes) {
        Some(more) => bytes.len() as u128 <= more,
        None => false,
    }
}

/// Whether a command chooses the font of this number.
fn is_choice(number: u8, command: &[u8]) -> bool
    requires { 0 < length command.now }
    ensures { result ≡ spec.is_choice number command.now }
{
    let opcode = opcode_of(command);
    if is_font_number(opcode) {
        opcode - 171 == number
    } else if opcode == 235 {
        opcode_of(&command[1..]) == number
    } else {
        false
    }
}

/// Whether a command of a page chooses the font of this number.
pub(crate) fn chooses(number: u8, body: &[u8]) -> bool
    ensures { result ≡ spec.chooses number body.now }
{
    let mut start = 0;
    for at in 0..body.len() {
        let bytes = &body[start..at + 1];
        if !is_wanting(bytes) {
            if is_choice(number, bytes) {
                return true;
            }
            start = at + 1;
        }
    }
    false
}

/// Appends a copy of a font where the page chooses it.
fn append_if_chosen(
    fonts: &mut Items<FontDefinition>,
    font: &FontDefinition,
    body: &[u8],
) -> Result<(), AllocError>
    requires { IsNamed font.now }
    ensures fonts { OnOk result (fonts.new ≡ fonts.old ++ spec.if_chosen font.now body.now) }
    ensures names { OnOk result (All IsNamed fonts.old → All IsNamed fonts.new) }
{
    if chooses(font.number, body) {
        let font = font.share()?;
        fonts.push(font)?;
    }
    Ok(())
}

/// Of the fonts that earlier pages define, those that a page uses.
pub(crate) fn borrowed(
    alloc: Global,
    earlier: &[FontDefinition],
    body: &[u8],
) -> Result<Items<FontDefinition>, AllocError>
    requires { All IsNamed earlier.now }
    ensures fonts { IfOk result (λ fonts. fonts ≡ spec.borrowed earlier.now body.now) }
    ensures names { IfOk result (All IsNamed) }
{
    let mut fonts = Items::new(alloc);
    for font in earlier {
        append_if_chosen(&mut fonts, font, body)?;
    }
    Ok(fonts)
}
