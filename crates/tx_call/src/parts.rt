//! Texts that are made of parts.
ghost use Rattle.std.specs.Prelude.{◌≡◌, ◌++◌, OnOk, IfOk};
ghost use Rattle.std.specs.Fmt.{decimal, signed_decimal};
ghost use Rattle.tx_call.specs.Parts.{part_text, parts_text};

use std::alloc::{AllocError, Global};
use tx_bytes::Bytes;

/// A part of a text: bytes as they stand, or a number in decimal digits.
#[derive(Clone, Copy)]
pub enum Part<'a> {
    Text(&'a [u8]),
    Number(u64),
    Signed(i64),
}

fn append_number(alloc: Global, text: &mut Bytes, number: u64) -> Result<(), AllocError>
    ensures { OnOk result (text.new ≡ text.old ++ decimal number) }
{
    text.append(number.to_string(alloc)?.as_bytes())
}

/// The same of a number that may be negative.
pub fn append_signed(alloc: Global, text: &mut Bytes, number: i64) -> Result<(), AllocError>
    ensures { OnOk result (text.new ≡ text.old ++ signed_decimal number) }
{
    text.append(number.to_string(alloc)?.as_bytes())
}

fn append_part(alloc: Global, text: &mut Bytes, part: Part<'_>) -> Result<(), AllocError>
    ensures { OnOk result (text.new ≡ text.old ++ part_text part.entry) }
{
    match part {
        Part::Text(bytes) => text.append(bytes),
        Part::Number(number) => append_number(alloc, text, number),
        Part::Signed(number) => append_signed(alloc, text, number),
    }
}

fn append_parts(alloc: Global, text: &mut Bytes, parts: &[Part<'_>]) -> Result<(), AllocError>
    ensures { OnOk result (text.new ≡ text.old ++ parts_text parts.now) }
{
    for part in parts {
        append_part(alloc, text, *part)?;
    }
    Ok(())
}

/// The text of these parts, one behind the other. Who makes a text so has nothing to drop where memory is wanting.
pub fn joined(alloc: Global, parts: &[Part<'_>]) -> Result<Bytes, AllocError>
    ensures { IfOk result (λ text. text ≡ parts_text parts.now) }
{
    let mut text = Bytes::new(alloc);
    append_parts(alloc, &mut text, parts)?;
    Ok(text)
}
