//! \fontname, and a font as \meaning prints it.
ghost use Rattle.std.specs.Prelude.{◌≡◌, ◌++◌, OnOk};
ghost use Rattle.tx_convert.specs.Fonts.{at_size, font_text, size_behind};
ghost use Rattle.tx_convert.specs.Texts.{as_tokens};

use crate::texts::push_text;
use std::alloc::{AllocError, Global};
use tx_bytes::Bytes;
use tx_num::scaled_text;
use tx_tfm::{Font, Fonts};
use tx_toklist::Toks;

/// Puts a size at which a font is used at the end. Its only error is want of memory.
fn put_at(alloc: Global, text: &mut Bytes, size: i64) -> Result<(), AllocError>
    ensures { OnOk result (text.new ≡ text.old ++ at_size size) }
{
    let points = scaled_text(alloc, size)?;
    text.append(b" at ")?;
    text.append(points.as_slice())?;
    text.append(b"pt")
}

/// Puts the size at which a font is used at the end, where that isn't its design size. Its only error is want of memory.
fn put_size_behind(alloc: Global, text: &mut Bytes, font: &Font) -> Result<(), AllocError>
    ensures { OnOk result (text.new ≡ text.old ++ size_behind font.now) }
{
    let size = font.size();
    if size == font.design_size() {
        return Ok(());
    }
    put_at(alloc, text, size)
}

/// Puts the name of the font of a number at the end, with its size where that isn't its design size. Its only error is want of
/// memory.
pub(crate) fn put_font(
    alloc: Global,
    text: &mut Bytes,
    fonts: &Fonts,
    number: u8,
) -> Result<(), AllocError>
    ensures { OnOk result (text.new ≡ text.old ++ font_text fonts.now number) }
{
    match fonts.get(number) {
        Some(named) => {
            text.append(named.name.as_slice())?;
            put_size_behind(alloc, text, &named.font)
        }
        None => text.append(b"nullfont"),
    }
}

/// Puts what \fontname prints of the font of a number behind the tokens: its name as \font was given it, and its size where that
/// isn't its design size (TeX: The Program, section 472). Its only error is want of memory.
pub fn push_font_name(
    alloc: Global,
    tokens: &mut Toks,
    fonts: &Fonts,
    number: u8,
) -> Result<(), AllocError>
    ensures { OnOk result (tokens.new ≡ tokens.old ++ as_tokens (font_text fonts.now number)) }
{
    let mut text = Bytes::new(alloc);
    put_font(alloc, &mut text, fonts, number)?;
    push_text(tokens, text.as_slice())
}
