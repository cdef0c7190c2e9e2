//! Cases of tx_hyphen.
use std::alloc::{AllocError, Global};
use std::fmt::Display;
use tx_hyphen::hyphens::Hyphens;
use tx_hyphen::places::Places;

/// The \lccodes of plain TeX.
fn plain() -> [u8; 256] {
    let mut lower = [0; 256];
    for letter in b'a'..=b'z' {
        lower[letter as usize] = letter;
        lower[(letter - 32) as usize] = letter;
    }
    lower
}

/// Adds what `patterns PATTERN ..`, `pattern TEXT` and `exception WORD` say, up to what is refused; and writes that it is
/// added, or the number and the words of the error.
pub fn add(
    alloc: Global,
    text: &mut String,
    hyphens: &mut Hyphens,
    word: &str,
    rest: &str,
) -> Result<(), AllocError> {
    if word == "exception" {
        return match hyphens.except(alloc, rest.as_bytes(), &plain()) {
            Ok(()) => text.push_str("added"),
            Err(error) => write_refused(text, error.number(), &error),
        };
    }
    let end = if word == "pattern" { '\n' } else { ' ' };
    for pattern in rest.split(end) {
        if let Err(error) = hyphens.add(alloc, pattern.as_bytes(), &plain()) {
            return write_refused(text, error.number(), &error);
        }
    }
    text.push_str("added")
}

fn write_refused<E: Display>(
    text: &mut String,
    number: Option<u8>,
    error: &E,
) -> Result<(), AllocError> {
    match number {
        Some(number) => write!(text, "error {number}: {error}"),
        None => Err(AllocError),
    }
}

/// Writes the places of `places LEFT RIGHT WORD`, at which the word may be divided with these minimums.
pub fn write_places(
    alloc: Global,
    text: &mut String,
    hyphens: &Hyphens,
    rest: &str,
) -> Result<(), AllocError> {
    match row(rest) {
        Some((left, right, word)) => {
            write_each(text, &hyphens.points(alloc, word.as_bytes(), left, right)?)
        }
        None => text.push_str("malformed"),
    }
}

/// The minimums and the word of a case.
fn row(rest: &str) -> Option<(i64, i64, &str)> {
    let (left, rest) = rest.split_once(' ')?;
    let (right, word) = rest.split_once(' ')?;
    Some((left.parse().ok()?, right.parse().ok()?, word))
}

/// Writes places, with a space between them.
fn write_each(text: &mut String, places: &Places) -> Result<(), AllocError> {
    for place in places.as_slice() {
        if !text.is_empty() {
            text.push(' ')?;
        }
        write!(text, "{place}")?;
    }
    if places.is_empty() != (places.len() == 0) {
        text.push_str(" miscounted")?;
    }
    Ok(())
}
