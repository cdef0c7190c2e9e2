//! Cases of tx_ligkern.
ghost use Rattle.std.specs.Prelude.{◌↔◌, All, IsTrue};
ghost use Rattle.tx_tfm.specs.Format.{is_there};

use std::alloc::{AllocError, Global};
use tx_cases::{first_word, write_bytes};
use tx_ligkern::{LigItem, compose};
use tx_tfm::Font;

/// Writes what a word becomes in the font; an underscore before or behind it is a boundary that counts. A character stands for
/// itself; a ligature has the characters behind it, in parentheses, in whose stead it stands; `+` is a kern of 0.625pt, and
/// `*` one of 1.25pt.
pub fn write_answer(
    alloc: Global,
    text: &mut String,
    font: &Option<Font>,
    word: &str,
) -> Result<(), AllocError> {
    let (left, word) = match word.strip_prefix('_') {
        Some(rest) => (true, rest),
        None => (false, word),
    };
    let (right, word) = match word.strip_suffix('_') {
        Some(rest) => (true, rest),
        None => (false, word),
    };
    match font {
        Some(font) if has_all(font, word.as_bytes()) => {
            write_composed(alloc, text, font, word.as_bytes(), left, right, false)
        }
        _ => text.push_str("missing"),
    }
}

/// Whether the font has each of these characters.
fn has_all(font: &Font, chars: &[u8]) -> bool
    ensures { IsTrue result ↔ All (λ c. IsTrue (is_there font.now.file c)) chars.now }
{
    chars.iter().all(|c| font.is_there(*c))
}

/// Writes what these characters become, by codes or as characters.
fn write_composed(
    alloc: Global,
    text: &mut String,
    font: &Font,
    chars: &[u8],
    left: bool,
    right: bool,
    by_codes: bool,
) -> Result<(), AllocError>
    requires { All (λ c. IsTrue (is_there font.now.file c)) chars.now }
{
    let items = compose(alloc, font, chars, left, right)?;
    write_items(text, items.as_slice(), by_codes)
}

fn write_items(text: &mut String, items: &[LigItem], by_codes: bool) -> Result<(), AllocError> {
    for item in items {
        match by_codes {
            true => write_codes(text, item)?,
            false => write_item(text, item)?,
        }
    }
    Ok(())
}

fn write_item(text: &mut String, item: &LigItem) -> Result<(), AllocError> {
    match item {
        LigItem::Char(code) => write_bytes(text, &[*code]),
        LigItem::Lig { code, from } => {
            write_bytes(text, &[*code])?;
            text.push('(')?;
            write_bytes(text, from.as_slice())?;
            text.push(')')
        }
        LigItem::Kern(40960) => text.push('+'),
        LigItem::Kern(81920) => text.push('*'),
        LigItem::Kern(_) => text.push('?'),
    }
}

/// Writes an item behind those before it, by codes.
fn write_codes(text: &mut String, item: &LigItem) -> Result<(), AllocError> {
    if !text.is_empty() {
        text.push(' ')?;
    }
    match item {
        LigItem::Char(code) => write!(text, "c{code}"),
        LigItem::Kern(kern) => write!(text, "k{kern}"),
        LigItem::Lig { code, from } => {
            write!(text, "l{code}")?;
            for original in from.as_slice() {
                write!(text, ",{original}")?;
            }
            Ok(())
        }
    }
}

/// Writes what the characters of `BOUNDARIES CODE ..` become in the font; BOUNDARIES is `none`, `left`, `right` or `both`, those
/// that count. Each item is `c` and a character's code, `k` and a kern in sp, or `l` and a ligature's code with those of the
/// characters in whose stead it stands.
pub fn write_by_codes(
    alloc: Global,
    text: &mut String,
    font: &Option<Font>,
    rest: &str,
) -> Result<(), AllocError> {
    let (boundaries, codes) = first_word(rest);
    let chars = codes_of(alloc, codes)?;
    let left = boundaries == "left" || boundaries == "both";
    let right = boundaries == "right" || boundaries == "both";
    match font {
        Some(font) if has_all(font, chars.as_slice()) => {
            write_composed(alloc, text, font, chars.as_slice(), left, right, true)
        }
        _ => text.push_str("missing"),
    }
}

/// The codes among the words of a text.
fn codes_of(alloc: Global, text: &str) -> Result<Vec<u8>, AllocError> {
    let mut codes = Vec::new(alloc);
    for word in text.split(' ') {
        if let Ok(code) = word.parse() {
            codes.push(code)?;
        }
    }
    Ok(codes)
}
