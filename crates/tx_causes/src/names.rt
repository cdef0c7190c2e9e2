//! What is wrong with a file's name.
use std::alloc::AllocError;
use tx_files::name::is_name;

/// Whether a text has decimal digits alone.
pub fn are_digits(text: &str) -> bool {
    for byte in text.as_bytes() {
        if !byte.is_ascii_digit() {
            return false;
        }
    }
    true
}

/// Writes what is wrong with a name, if something is; `whose` says what it is to be the name of.
pub fn write_name_cause(text: &mut String, whose: &str, name: &str) -> Result<(), AllocError> {
    if is_name(name.as_bytes()) {
        return Ok(());
    }
    match name.len() {
        0 => write!(text, "{whose}: the name is empty"),
        1..=255 => write!(
            text,
            "{whose}: '{name}' is no name, it may have no space and only ASCII"
        ),
        length => write!(
            text,
            "{whose}: the name has {length} bytes, and 255 is the most"
        ),
    }
}

fn is_among(text: &str, others: &[&str]) -> bool {
    for other in others {
        if *other == text {
            return true;
        }
    }
    false
}

/// The first of the texts that stands again behind itself.
fn repeated<'a>(texts: &[&'a str]) -> Option<&'a str> {
    for i in 0..texts.len() {
        if is_among(texts[i], &texts[i + 1..]) {
            return Some(texts[i]);
        }
    }
    None
}

/// Writes what is wrong with the names of the files first, if something is.
pub fn write_files_cause(text: &mut String, names: &[&str]) -> Result<(), AllocError> {
    for name in names {
        if text.is_empty() {
            write_name_cause(text, "a file", name)?;
        }
    }
    match repeated(names) {
        Some(name) if text.is_empty() => write!(text, "{name}: it stands twice among the files"),
        _ => Ok(()),
    }
}
