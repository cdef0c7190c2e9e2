//! Where a DVI file is refused, and why.
use crate::run::refusal;
use std::alloc::AllocError;

/// What has to stand at the place of a refusal, by the number of its rule.
fn wanted(rule: &str) -> &'static str {
    match rule {
        "2" => "a byte of a preamble, which has TeX's units and a magnification from 1 to 32768",
        "3" =>
            "a byte of what begins a page, with the place of the page before it, or, behind a page, of the postamble",
        "4" => "a byte of a command of a page, with a font that is defined, or of the page's end",
        "5" =>
            "a byte of the postamble, with its places and numbers, and all fonts from the last one on",
        "6" => "a byte of the file's end, with the postamble's place, or nothing behind it",
        _ => "something else",
    }
}

/// Writes why a DVI file was refused, by what was said of it.
pub fn write_dvi_cause(text: &mut String, name: &str, said: &str) -> Result<(), AllocError> {
    match refusal(said, "dvi refused at ") {
        None => write!(text, "{name}: it is no DVI file"),
        Some((_, "1")) => write!(text, "{name}: there is no such file"),
        Some((place, rule)) => write_wanted(text, name, place, wanted(rule)),
    }
}

fn write_wanted(
    text: &mut String,
    name: &str,
    place: &str,
    wanted: &str,
) -> Result<(), AllocError> {
    write!(text, "{name}: at byte {place} is wanted {wanted}")
}
