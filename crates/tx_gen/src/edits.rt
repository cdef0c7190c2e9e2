//! The script: edits of letters that begin pages, each put at the end of a text.
ghost use Rattle.std.specs.Prelude.{◌≡◌, ◌++◌, ◌<◌, length, slice_index, OnOk};
ghost use Rattle.tx_gen.specs.Draws.{times};
ghost use Rattle.tx_gen.specs.Edits.{lines_of, edit_text};

use crate::book::letter;
use crate::draws::Draws;
use itoa::Buffer;
use std::alloc::AllocError;
use tx_bytes::Bytes;

/// Puts the edit of one letter at the end.
fn append_lines(text: &mut Bytes, place: u64, code: u8) -> Result<(), AllocError>
    ensures { OnOk result (text.new ≡ text.old ++ lines_of place code) }
{
    let mut digits = Buffer::new();
    text.append(b"edit ")?;
    text.append(digits.format(place).as_bytes())?;
    text.append(b" 1 1 book.tex\n")?;
    text.append(&[code, b'\n'])?;
    Ok(())
}

/// Puts an edit of the first letter on one of the pages at the end; these are the places at which they begin.
fn append_edit(text: &mut Bytes, draws: &mut Draws, starts: &[u64]) -> Result<(), AllocError>
    requires { 0 < length starts.now }
    ensures text { OnOk result (text.new ≡ text.old ++ (edit_text (slice_index starts.now) (length starts.now) draws.old).0) }
    ensures draws { OnOk result (draws.new ≡ (edit_text (slice_index starts.now) (length starts.now) draws.old).1) }
{
    let page = draws.draw(starts.len() as u64) as usize;
    let code = letter(draws);
    append_lines(text, starts[page], code)?;
    Ok(())
}

/// Puts as many edits at the end as there are pages, which begin at these places.
pub fn append_edits(text: &mut Bytes, draws: &mut Draws, starts: &[u64]) -> Result<(), AllocError>
    ensures { OnOk result (text.new ≡ text.old ++ (times (length starts.now) (edit_text (slice_index starts.now) (length starts.now)) draws.old).0) }
{
    for _edit in 0..starts.len() {
        append_edit(text, draws, starts)?;
    }
    Ok(())
}
