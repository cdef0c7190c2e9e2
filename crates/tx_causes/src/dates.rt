//! What is wrong with a date.
use crate::names::are_digits;
use std::alloc::AllocError;

/// Whether a text is one to four decimal digits, and their number within a range.
fn is_within(text: &str, least: u32, most: u32) -> bool {
    match text.parse::<u32>() {
        Ok(number) => text.len() <= 4 && are_digits(text) && least <= number && number <= most,
        Err(_) => false,
    }
}

/// Writes what is wrong with a part of a date, if it is the first where something is.
fn write_part(
    text: &mut String,
    name: &str,
    least: u32,
    most: u32,
    part: &str,
) -> Result<(), AllocError> {
    if !text.is_empty() || is_within(part, least, most) {
        return Ok(());
    }
    write!(
        text,
        "--date: the {name} is {least} to {most}, and not '{part}'"
    )
}

/// The four parts of a date, if there are so many.
fn parts(text: &str) -> Option<(&str, &str, &str, &str)> {
    let (year, month_on) = text.split_once('-')?;
    let (month, day_on) = month_on.split_once('-')?;
    let (day, minutes) = day_on.split_once('-')?;
    Some((year, month, day, minutes))
}

/// Writes what is wrong with a date first, if something is.
pub fn write_date_cause(text: &mut String, date: &str) -> Result<(), AllocError> {
    let Some((year, month, day, minutes)) = parts(date) else {
        return write!(
            text,
            "--date: '{date}' isn't Y-M-D-T: year, month, day and minutes since midnight"
        );
    };
    write_part(text, "year", 1, 9999, year)?;
    write_part(text, "month", 1, 12, month)?;
    write_part(text, "day", 1, 31, day)?;
    write_part(text, "time in minutes", 0, 1439, minutes)
}
