//! What comes of what was read.
ghost use Rattle.std.specs.Prelude.{◌≡◌, pos, IfOk};
ghost use Rattle.tx_seen.specs.declared.fed.Value.TheVariants.{Int};
ghost use Rattle.tx_convert.specs.Texts.{as_tokens};
ghost use Rattle.tx_scan.specs.Mapped.{fed_if, mapped, settled};
ghost use Rattle.tx_expand.specs.Parts as parts;
ghost use Rattle.tx_expand.specs.Scans as scans;
ghost use Rattle.tx_scan.specs.FileNames as files;
ghost use Rattle.tx_expand.specs.declared.types.Made.TheVariants as made;

use crate::part::Figures;
use crate::types::{Destination, Made};
use std::alloc::{AllocError, Global};
use tx_bytes::Bytes;
use tx_char::ControlName;
use tx_convert::{push_glue, push_number, push_roman, push_size};
use tx_scan::input_name;
use tx_seen::{Fed, FontName, TexError, Value};
use tx_toklist::Toks;

/// A name behind \csname.
pub(crate) fn named(fed: Fed<ControlName>) -> Fed<Made>
    ensures { result ≡ mapped (λ name. made.Names name) fed }
{
    match fed {
        Fed::More(want) => Fed::More(want),
        Fed::Need(kind) => Fed::Need(kind),
        Fed::Done(name, back) => Fed::Done(Made::Names(name), back),
        Fed::Wrong(error) => Fed::Wrong(error),
    }
}

/// The value of a test.
pub(crate) fn decided(fed: Fed<i64>) -> Fed<Made>
    ensures { result ≡ mapped (λ value. made.Decides value) fed }
{
    match fed {
        Fed::More(want) => Fed::More(want),
        Fed::Need(kind) => Fed::Need(kind),
        Fed::Done(value, back) => Fed::Done(Made::Decides(value), back),
        Fed::Wrong(error) => Fed::Wrong(error),
    }
}

/// The name of a file behind \input. Its only error is want of memory.
pub(crate) fn opened(fed: Fed<Bytes>) -> Result<Fed<Made>, AllocError>
    ensures { IfOk result (λ of. of ≡ mapped (λ name. made.Opens (files.input_name name)) fed) }
{
    match fed {
        Fed::More(want) => Ok(Fed::More(want)),
        Fed::Need(kind) => Ok(Fed::Need(kind)),
        Fed::Done(name, back) => {
            let mut name = name;
            input_name(&mut name)?;
            Ok(Fed::Done(Made::Opens(name), back))
        }
        Fed::Wrong(error) => Ok(Fed::Wrong(error)),
    }
}

/// A font behind \fontname.
pub(crate) fn font_named(fed: Fed<FontName>) -> Fed<Made>
    ensures { result ≡ mapped (λ font. made.Font font) fed }
{
    match fed {
        Fed::More(want) => Fed::More(want),
        Fed::Need(kind) => Fed::Need(kind),
        Fed::Done(font, back) => Fed::Done(Made::Font(font), back),
        Fed::Wrong(error) => Fed::Wrong(error),
    }
}

/// An integer as it is printed. Its only error is want of memory.
pub(crate) fn printed(
    alloc: Global,
    figures: Figures,
    fed: Fed<i64>,
) -> Result<Fed<Made>, AllocError>
    ensures { IfOk result (λ of. of ≡ mapped (parts.printed figures) fed) }
{
    match fed {
        Fed::More(want) => Ok(Fed::More(want)),
        Fed::Need(kind) => Ok(Fed::Need(kind)),
        Fed::Done(number, back) => Ok(Fed::Done(made_of(alloc, figures, number)?, back)),
        Fed::Wrong(error) => Ok(Fed::Wrong(error)),
    }
}

/// The characters of an integer. Its only error is want of memory.
fn made_of(alloc: Global, figures: Figures, number: i64) -> Result<Made, AllocError>
    ensures { IfOk result (λ of. of ≡ parts.printed figures number) }
{
    let mut tokens = Toks::new(alloc);
    match figures {
        Figures::Decimal => {
            push_number(&mut tokens, number)?;
            Ok(Made::Puts(tokens))
        }
        Figures::Roman => {
            push_roman(&mut tokens, number)?;
            Ok(Made::Puts(tokens))
        }
        Figures::Register { to } => Ok(Made::Register(to, number)),
    }
}

/// A number that a name stands for, as \the prints it. Its only error is want of memory.
pub(crate) fn number_shown(
    alloc: Global,
    to: Destination,
    number: u16,
) -> Result<Fed<Made>, AllocError>
    ensures { IfOk result (λ of. of ≡ fed_if (scans.value_shown to (Int (pos number))) 0) }
{
    value_shown(alloc, to, &Value::Int(i64::from(number)), 0)
}

/// A quantity as \the prints it. Its only error is want of memory.
pub(crate) fn quantity_shown(
    alloc: Global,
    to: Destination,
    fed: Fed<Value>,
) -> Result<Fed<Made>, AllocError>
    ensures { IfOk result (λ of. of ≡ settled (scans.value_shown to) fed) }
{
    match fed {
        Fed::More(want) => Ok(Fed::More(want)),
        Fed::Need(kind) => Ok(Fed::Need(kind)),
        Fed::Done(value, back) => value_shown(alloc, to, &value, back),
        Fed::Wrong(error) => Ok(Fed::Wrong(error)),
    }
}

/// A value as \the prints it, with the unit of a size and those of glue; so many tokens behind it are given back. Its only error is
/// want of memory.
fn value_shown(
    alloc: Global,
    to: Destination,
    value: &Value,
    back: usize,
) -> Result<Fed<Made>, AllocError>
    ensures { IfOk result (λ of. of ≡ fed_if (scans.value_shown to value.now) back) }
{
    let mut tokens = Toks::new(alloc);
    match value {
        Value::Int(number) => push_number(&mut tokens, *number)?,
        Value::Dimen(size) => push_size(alloc, &mut tokens, *size)?,
        Value::Glue(glue) => push_glue(alloc, &mut tokens, glue, false)?,
        Value::Muglue(glue) => push_glue(alloc, &mut tokens, glue, true)?,
        Value::Flag(_) | Value::Magnification(_) | Value::Absent | Value::OutOfRange => {
            return Ok(Fed::Wrong(TexError::NoAssignment));
        }
    }
    Ok(Fed::Done(shown(to, tokens), back))
}

/// The characters that \the prints: they are put in, or belong to a text.
fn shown(to: Destination, tokens: Toks) -> Made
    ensures { result ≡ scans.shown to tokens }
{
    match to {
        Destination::Input => Made::Puts(tokens),
        Destination::Text => Made::Gives(tokens),
    }
}
