//! Cases of tx_tfm.
use std::alloc::{AllocError, Global};
use std::{fs, io};
use tx_cases::first_word;
use tx_ligkern::every_word_ends;
use tx_tfm::{Font, FontError, Size};

/// 16pt, in sp: at this size lengths are the multiples of 2^-20 of the file itself.
const SIXTEEN_POINTS: i64 = 1048576;

/// Takes the font of a file of hexadecimal bytes, by `font FILE HOW`, where HOW is `design`, `at SP` or `scaled RATIO`, a size;
/// `first COUNT`, which takes so many bytes; or `changed PLACE VALUE ..`, which gives bytes of it these values. Where HOW is
/// `real`, the file is a font's as it stands, which is taken at 16pt.
pub fn take(
    rt: &HostRuntime,
    text: &mut String,
    font: &mut Option<Font>,
    rest: &str,
) -> io::Result<()> {
    let (name, how) = first_word(rest);
    let (word, numbers) = first_word(how);
    let mut bytes = contents(rt, name, word == "real")?;
    Ok(take_from(rt.alloc(), text, font, &mut bytes, word, numbers)?)
}

fn take_from(
    alloc: Global,
    text: &mut String,
    font: &mut Option<Font>,
    bytes: &mut Vec<u8>,
    word: &str,
    numbers: &str,
) -> Result<(), AllocError> {
    match change(bytes, word, numbers) {
        None => text.push_str("malformed"),
        Some(()) => read(alloc, text, font, bytes.as_slice(), size_of(word, numbers)),
    }
}

/// Reads a font from its bytes, and writes its size, or the rule that it breaks.
fn read(
    alloc: Global,
    text: &mut String,
    font: &mut Option<Font>,
    bytes: &[u8],
    size: Size,
) -> Result<(), AllocError> {
    put(font, None);
    match Font::read(alloc, bytes, size) {
        Ok(read) => {
            every_word_ends(&read);
            let size = read.size();
            put(font, Some(read));
            write!(text, "{size}")
        }
        Err(FontError::BadFont { rule }) => write!(text, "rule {rule}"),
        Err(FontError::OutOfMemory(error)) => Err(error),
    }
}

/// Puts a font, or none, in the place of another.
fn put(place: &mut Option<Font>, font: Option<Font>) {
    *place = font;
}

/// The bytes of a real file, or those of which a file tells.
pub fn contents(rt: &HostRuntime, name: &str, is_real: bool) -> io::Result<Vec<u8>> {
    if is_real {
        return fs::read(rt, name);
    }
    let text = fs::read_to_string(rt, name)?;
    Ok(bytes_of(rt.alloc(), text.as_str())?)
}

/// The bytes of a text of hexadecimal numbers. A line of `##` says what follows.
fn bytes_of(alloc: Global, text: &str) -> Result<Vec<u8>, AllocError> {
    let mut bytes = Vec::new(alloc);
    for line in text.split('\n') {
        if !line.starts_with("##") {
            append(&mut bytes, line)?;
        }
    }
    Ok(bytes)
}

fn append(bytes: &mut Vec<u8>, line: &str) -> Result<(), AllocError> {
    for word in line.split(' ') {
        if let Ok(byte) = u8::from_str_radix(word, 16) {
            bytes.push(byte)?;
        }
    }
    Ok(())
}

/// Takes the first of some bytes, or gives some of them new values, where a case says so; None where it doesn't say which.
pub fn change(bytes: &mut Vec<u8>, word: &str, numbers: &str) -> Option<()> {
    match word {
        "first" => bytes.truncate(numbers.parse().unwrap_or(0)),
        "changed" => set_each(bytes.as_mut_slice(), numbers)?,
        _ => {}
    }
    Some(())
}

/// Gives bytes at places new values; None where the text doesn't say so.
fn set_each(bytes: &mut [u8], text: &str) -> Option<()> {
    let mut place = None;
    for word in text.split(' ') {
        place = match place {
            None => Some(word),
            Some(at) => {
                set(bytes, at, word)?;
                None
            }
        };
    }
    Some(())
}

fn set(bytes: &mut [u8], place: &str, value: &str) -> Option<()> {
    let byte = bytes.get_mut(place.parse::<usize>().ok()?)?;
    *byte = value.parse().ok()?;
    Some(())
}

fn size_of(word: &str, number: &str) -> Size {
    let number = number.parse().unwrap_or(0);
    match word {
        "at" => Size::At(number),
        "scaled" => Size::Scaled(number),
        "real" => Size::At(SIXTEEN_POINTS),
        _ => Size::Design,
    }
}

/// Writes what the font answers to
///
/// - `there C`, `width C`, `height C`, `depth C`, `italic C`, `successor C` and `recipe C`, of a character;
/// - `parameter NUMBER`, `parameters`, `checksum` and `design`;
/// - `command LEFT RIGHT`, of two characters, of which `-` is a boundary: the command's third byte, and its kern, or the
///   character that a ligature puts in.
///
/// A character stands for itself, or is `=` and its code.
pub fn write_answer(
    text: &mut String,
    font: &Option<Font>,
    word: &str,
    rest: &str,
) -> Result<(), AllocError> {
    let Some(font) = font else {
        return text.push_str("no font");
    };
    let (left, right) = first_word(rest);
    match word {
        "parameters" => write!(text, "{}", font.parameter_count()),
        "checksum" => write!(text, "{}", font.checksum()),
        "design" => write!(text, "{}", font.design_size()),
        "parameter" => write_parameter(text, font, rest),
        "command" => write_command(text, font, character_of(left), character_of(right)),
        _ => match character_of(left) {
            Some(code) => write_of_character(text, font, word, code),
            None => text.push_str("malformed"),
        },
    }
}

/// A character; None for `-`.
fn character_of(word: &str) -> Option<u8> {
    if let Some(code) = word.strip_prefix('=') {
        return code.parse().ok();
    }
    match word.as_bytes() {
        [b'-'] => None,
        [code] => Some(*code),
        _ => None,
    }
}

fn write_of_character(
    text: &mut String,
    font: &Font,
    word: &str,
    code: u8,
) -> Result<(), AllocError> {
    match word {
        "there" => write!(text, "{}", font.is_there(code)),
        "width" => write!(text, "{}", font.width(code)),
        "height" => write!(text, "{}", font.height(code)),
        "depth" => write!(text, "{}", font.depth(code)),
        "italic" => write!(text, "{}", font.italic(code)),
        "successor" => match font.successor(code) {
            Some(next) => write!(text, "{next}"),
            None => text.push_str("none"),
        },
        "recipe" => match font.recipe(code) {
            Some(_) => text.push_str("one"),
            None => text.push_str("none"),
        },
        _ => text.push_str("malformed"),
    }
}

fn write_parameter(text: &mut String, font: &Font, number: &str) -> Result<(), AllocError> {
    match number.parse::<u16>() {
        Ok(number) if 1 <= number => write!(text, "{}", font.parameter(number)),
        _ => text.push_str("malformed"),
    }
}

fn write_command(
    text: &mut String,
    font: &Font,
    left: Option<u8>,
    right: Option<u8>,
) -> Result<(), AllocError> {
    match font.command(left, right) {
        Some(command) if 128 <= command.c => {
            write!(text, "{}, kern {}", command.c, font.kern(command))
        }
        Some(command) => write!(text, "{} to {}", command.c, command.d),
        None => text.push_str("none"),
    }
}
