//! How bytes are written in a text of cases.
use std::alloc::{AllocError, Global};
use tx_bytes::Bytes;

/// The bytes that a text stands for: `<` and `>` with two hexadecimal digits between them are one byte, all else is itself.
/// Its only error is want of memory.
pub fn bytes_of(alloc: Global, text: &str) -> Result<Bytes, AllocError> {
    let mut bytes = Bytes::new(alloc);
    for (number, piece) in text.split('<').enumerate() {
        match marked(piece) {
            Some((code, rest)) if number != 0 => {
                bytes.push(code)?;
                bytes.append(rest.as_bytes())?;
            }
            _ => append_unmarked(&mut bytes, number != 0, piece)?,
        }
    }
    Ok(bytes)
}

/// Puts a piece at the end, and the `<` before it where one was there.
fn append_unmarked(bytes: &mut Bytes, follows: bool, piece: &str) -> Result<(), AllocError> {
    if follows {
        bytes.push(b'<')?;
    }
    bytes.append(piece.as_bytes())
}

/// The byte whose digits and `>` begin a piece, and what is left of that.
fn marked(piece: &str) -> Option<(u8, &str)> {
    let (digits, rest) = piece.split_once('>')?;
    if digits.len() != 2 {
        return None;
    }
    Some((u8::from_str_radix(digits, 16).ok()?, rest))
}

/// Writes at the end of a text what stands for these bytes: visible ones but `<`, spaces and ends of lines as they are. Its only
/// error is want of memory.
pub fn write_bytes(text: &mut String, bytes: &[u8]) -> Result<(), AllocError> {
    for byte in bytes {
        match byte {
            b'\n' | b' '..=b';' | b'='..=b'~' => text.push(char::from(*byte))?,
            _ => write!(text, "<{byte:02x}>")?,
        }
    }
    Ok(())
}

/// Writes bytes in hexadecimal, 32 a line, at the end of a text. Its only error is want of memory.
pub fn write_hexadecimal(text: &mut String, bytes: &[u8]) -> Result<(), AllocError> {
    for (place, byte) in bytes.iter().enumerate() {
        if place != 0 && place % 32 == 0 {
            text.push('\n')?;
        }
        write!(text, "{byte:02x}")?;
    }
    Ok(())
}
