//! The transcript's line of a box.
ghost use Rattle.std.specs.Prelude.{◌≡◌, ◌++◌, decimal, codes, OnOk, IfOk};
ghost use Rattle.tx_num.specs.Decimals.{scaled_text_of};
ghost use Rattle.tx_pack.specs.Verdicts as spec;

use crate::verdicts::Told;
use itoa::Buffer;
use std::alloc::{AllocError, Global};
use tx_bytes::Bytes;
use tx_node::Direction;
use tx_num::scaled_text;

/// Puts ` hbox ` or ` vbox ` at the end.
fn push_named(text: &mut Bytes, direction: Direction) -> Result<(), AllocError>
    ensures { OnOk result (text.new ≡ text.old ++ spec.named direction) }
{
    match direction {
        Direction::Horizontal => text.append(b" hbox "),
        Direction::Vertical => text.append(b" vbox "),
    }
}

/// A line: a word, which kind of box it is, and a size or badness.
fn line_of(
    alloc: Global,
    word: &[u8],
    direction: Direction,
    size: &[u8],
) -> Result<Bytes, AllocError>
    ensures { IfOk result (λ line. line ≡ spec.line_of word.now direction size.now) }
{
    let mut line = Bytes::from_slice(alloc, word)?;
    push_named(&mut line, direction)?;
    line.append(size)?;
    line.push(b'\n')?;
    Ok(line)
}

/// A size in points, with its unit.
fn size_text(alloc: Global, size: i64) -> Result<Bytes, AllocError>
    ensures { IfOk result (λ text. text ≡ scaled_text_of size ++ codes "pt") }
{
    let mut text = scaled_text(alloc, size)?;
    text.append(b"pt")?;
    Ok(text)
}

/// A line that tells a badness.
fn badness_line(
    alloc: Global,
    word: &[u8],
    direction: Direction,
    badness: u32,
) -> Result<Bytes, AllocError>
    ensures { IfOk result (λ line. line ≡ spec.line_of word.now direction (decimal badness)) }
{
    let mut buffer = Buffer::new();
    line_of(alloc, word, direction, buffer.format(badness).as_bytes())
}

/// What the transcript says of a box, in bytes. Its only error is want of memory.
pub fn report_of(alloc: Global, direction: Direction, told: Told) -> Result<Bytes, AllocError>
    ensures { IfOk result (λ report. report ≡ spec.report_of direction told) }
{
    match told {
        Told::Nothing => Ok(Bytes::new(alloc)),
        Told::Overfull(surplus) => {
            let size = size_text(alloc, surplus)?;
            line_of(alloc, b"overfull", direction, size.as_slice())
        }
        Told::Underfull(badness) => badness_line(alloc, b"underfull", direction, badness),
        Told::Loose(badness) => badness_line(alloc, b"loose", direction, badness),
        Told::Tight(badness) => badness_line(alloc, b"tight", direction, badness),
    }
}
