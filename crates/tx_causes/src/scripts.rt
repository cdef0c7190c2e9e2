//! Where a script is refused, by line and column, and why.
use crate::run::refusal;
use std::alloc::AllocError;

/// A line and a column, both counted from 1.
#[derive(Clone, Copy)]
struct Spot {
    line: u64,
    column: u64,
}

fn after(spot: Spot, byte: u8) -> Spot {
    if byte == b'\n' {
        Spot {
            line: spot.line.saturating_add(1),
            column: 1,
        }
    } else {
        Spot {
            line: spot.line,
            column: spot.column.saturating_add(1),
        }
    }
}

/// Where a place of some bytes lies, which is how many come before it.
fn spot_of(bytes: &[u8], place: u64) -> Spot {
    let mut spot = Spot { line: 1, column: 1 };
    let mut left = place;
    for byte in bytes {
        if left == 0 {
            return spot;
        }
        left -= 1;
        spot = after(spot, *byte);
    }
    spot
}

/// What has to stand at the place of a refusal, by the number of its rule.
fn wanted(rule: &str) -> &'static str {
    match rule {
        "2" =>
            "'edit', 'remove', 'batch', 'save' or 'locate', in a batch 'edit' or 'remove', and one space",
        "3" => "a number (0 to 4294967295, in digits alone, no zero in front) and one space",
        "4" => "a file's name (1 to 255 characters of ASCII, no space) and the end of the line",
        "5" => "more bytes, as many as the edit's line says: the script ends within them",
        "6" =>
            "the end of the line behind the bytes that are put in: are they as many as the edit's line says?",
        "7" =>
            "how many changes the batch has (1 to 100, in digits alone, no zero in front) and the end of the line",
        _ => "something else",
    }
}

/// Writes why a script was refused, by what was said of it and by its bytes, where they can be had.
pub fn write_script_cause(
    text: &mut String,
    name: &str,
    said: &str,
    bytes: Option<&[u8]>,
) -> Result<(), AllocError> {
    match refusal(said, "script refused at ") {
        None => write!(text, "{name}: it is no script"),
        Some((_, "1")) => write!(text, "{name}: there is no such script"),
        Some((place, rule)) => write_wanted(text, name, place, wanted(rule), bytes),
    }
}

/// Writes what is wanted where these bytes go on.
fn write_here(text: &mut String, wanted: &str, byte: Option<&u8>) -> Result<(), AllocError> {
    match byte {
        Some(b'\r') => text.push_str(
            "here stands a CR: the lines of a script end by LF alone, and not by CR and LF",
        ),
        _ => write!(text, "here is wanted {wanted}"),
    }
}

/// Writes what is wanted at a place: by its line and column, where the bytes can be had.
fn write_wanted(
    text: &mut String,
    name: &str,
    place: &str,
    wanted: &str,
    bytes: Option<&[u8]>,
) -> Result<(), AllocError> {
    match (bytes, place.parse::<u64>()) {
        (Some(bytes), Ok(number)) => {
            let Spot { line, column } = spot_of(bytes, number);
            write!(text, "{name}:{line}:{column}: ")?;
            write_here(text, wanted, bytes.get(number as usize))
        }
        _ => write!(text, "{name}: at byte {place} is wanted {wanted}"),
    }
}
