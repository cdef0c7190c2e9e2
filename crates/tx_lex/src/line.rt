//! From the bytes of a file's line to the line that TeX sees.
ghost use Rattle.std.specs.Prelude.{◌≡◌, IfOk};
ghost use Rattle.tx_lex.specs.Line.{seen_line, without_line_end, without_trailing_blanks};

use std::alloc::{AllocError, Global};
use tx_bytes::Bytes;

/// The line that TeX sees of a line's bytes as they stand in a file, with the line feed that ends it or, for a last
/// line, without one. The line feed is dropped, and one carriage return just before it; then the blanks (code 32) at
/// the end, whatever their category; then the end-of-line character is appended, if there is one. Its only error is
/// want of memory.
pub fn line_text(alloc: Global, raw: &[u8], end_of_line: Option<u8>) -> Result<Bytes, AllocError>
    ensures { IfOk result (λ line. line ≡ seen_line raw.now end_of_line) }
{
    let text = trimmed(stripped(raw));
    let mut line = Bytes::from_vec(Vec::with_capacity(alloc, text.len() + 1)?);
    line.append(text)?;
    if let Some(code) = end_of_line {
        line.push(code)?;
    }
    Ok(line)
}

/// The bytes of a line without the line feed that ends it, and without one carriage return just before that.
fn stripped(raw: &[u8]) -> &[u8]
    ensures { result.now ≡ without_line_end raw.now }
{
    if raw.ends_with(b"\r\n") {
        &raw[..raw.len() - 2]
    } else if raw.ends_with(b"\n") {
        &raw[..raw.len() - 1]
    } else {
        raw
    }
}

/// A text without the blanks at its end.
fn trimmed(text: &[u8]) -> &[u8]
    ensures { result.now ≡ without_trailing_blanks text.now }
{
    let mut end = text.len();
    while end > 0 && text[end - 1] == b' ' {
        end -= 1;
    }
    &text[..end]
}
