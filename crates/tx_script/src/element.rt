//! The elements of a command, each read at the front of the bytes. Each answers what it read and the bytes after it.

ghost use Rattle.std.specs.Prelude.{◌≡◌, ◌∷◌, [], length};
ghost use Rattle.tx_script.specs.Reading.{Gives, change_word_at, count_at, literal_at, name_at, number_at, put_at, with_byte, with_count, word_at};
ghost use Rattle.tx_script.specs.Text as texts;

use crate::error::{Broken, Fault, Rule};
use std::alloc::Global;
use tx_bytes::Bytes;
use tx_files::Name;

/// The word that begins a command.
#[derive(Clone, Copy)]
pub enum CommandWord {
    Edit,
    Remove,
    Batch,
    Save,
    Locate,
}

/// The word that begins a command of a batch.
#[derive(Clone, Copy)]
pub enum ChangeWord {
    Edit,
    Remove,
}

/// The greatest number that a script may hold.
const GREATEST: u64 = 4_294_967_295;

/// The most changes that a batch may have.
const MOST_CHANGES: u64 = 100;

/// The bytes after a text that has to stand there.
pub fn literal<'a>(bytes: &'a [u8], text: &[u8], rule: Rule) -> Result<&'a [u8], Fault>
    ensures { Gives (λ rest. rest.now) result (literal_at rule text.now bytes.now) }
{
    let mut rest = bytes;
    for wanted in text {
        match rest {
            [byte, after @ ..] => {
                if *byte != *wanted {
                    return Err(stop(rest, rule));
                }
                rest = after;
            }
            [] => return Err(stop(rest, rule)),
        }
    }
    Ok(rest)
}

/// Reading ends before these bytes.
pub fn stop(rest: &[u8], rule: Rule) -> Fault
    ensures { result ≡ Fault.Broken (record { left = length rest.now; rule = rule }) }
{
    Fault::Broken(Broken {
        left: rest.len(),
        rule,
    })
}

/// The word that begins a command, and a space.
#[tactic(auto, unfolding(crate::specs::Reading::word_at))]
pub fn word(bytes: &[u8]) -> Result<(CommandWord, &[u8]), Fault>
    ensures { Gives (λ x. (x.0, x.1.now)) result (word_at bytes.now) }
{
    match bytes {
        [b's', ..] => Ok((CommandWord::Save, literal(bytes, b"save ", Rule::Word)?)),
        [b'b', ..] => Ok((CommandWord::Batch, literal(bytes, b"batch ", Rule::Word)?)),
        [b'r', ..] => Ok((CommandWord::Remove, literal(bytes, b"remove ", Rule::Word)?)),
        [b'l', ..] => Ok((CommandWord::Locate, literal(bytes, b"locate ", Rule::Word)?)),
        _ => Ok((CommandWord::Edit, literal(bytes, b"edit ", Rule::Word)?)),
    }
}

/// The word that begins a command of a batch, and a space.
#[tactic(auto, unfolding(crate::specs::Reading::change_word_at))]
pub fn change_word(bytes: &[u8]) -> Result<(ChangeWord, &[u8]), Fault>
    ensures { Gives (λ x. (x.0, x.1.now)) result (change_word_at bytes.now) }
{
    match bytes {
        [b'r', ..] => Ok((ChangeWord::Remove, literal(bytes, b"remove ", Rule::Word)?)),
        _ => Ok((ChangeWord::Edit, literal(bytes, b"edit ", Rule::Word)?)),
    }
}

/// A number of which one more byte has been read; None where no number goes on so.
pub fn with_byte(number: Option<u64>, byte: u8) -> Option<u64>
    ensures { result ≡ with_byte number byte }
{
    if !byte.is_ascii_digit() {
        return None;
    }
    let digit = u64::from(byte - b'0');
    match number {
        None => Some(digit),
        Some(value) if 0 < value && value <= (GREATEST - digit) / 10 => Some(10 * value + digit),
        Some(_) => None,
    }
}

/// A number and a space.
pub fn number(bytes: &[u8]) -> Result<(u64, &[u8]), Fault>
    ensures { Gives (λ x. (x.0, x.1.now)) result (number_at bytes.now) }
{
    let mut known = None;
    for (at, byte) in bytes.iter().enumerate() {
        if *byte == b' ' {
            return match known {
                Some(value) => Ok((value, &bytes[at + 1..])),
                None => Err(stop(&bytes[at..], Rule::Number)),
            };
        }
        match with_byte(known, *byte) {
            Some(value) => known = Some(value),
            None => return Err(stop(&bytes[at..], Rule::Number)),
        }
    }
    Err(stop(&[], Rule::Number))
}

/// Whether a batch may have so many changes.
fn is_count(value: u64) -> bool
    ensures { result ≡ texts.is_count value }
{
    1 <= value && value <= MOST_CHANGES
}

/// The number of changes of which one more byte has been read; None where no such number goes on so.
fn with_count(number: Option<u64>, byte: u8) -> Option<u64>
    ensures { result ≡ with_count number byte }
{
    match with_byte(number, byte) {
        Some(value) => { if is_count(value) { Some(value) } else { None } }
        None => None,
    }
}

/// How many changes a batch has, and LF.
pub fn count(bytes: &[u8]) -> Result<(u64, &[u8]), Fault>
    ensures { Gives (λ x. (x.0, x.1.now)) result (count_at bytes.now) }
{
    let mut known = None;
    for (at, byte) in bytes.iter().enumerate() {
        if *byte == b'\n' {
            return match known {
                Some(value) => Ok((value, &bytes[at + 1..])),
                None => Err(stop(&bytes[at..], Rule::Count)),
            };
        }
        match with_count(known, *byte) {
            Some(value) => known = Some(value),
            None => return Err(stop(&bytes[at..], Rule::Count)),
        }
    }
    Err(stop(&[], Rule::Count))
}

/// A name and LF.
pub fn name(alloc: Global, bytes: &[u8]) -> Result<(Name, &[u8]), Fault>
    ensures { Gives (λ x. (x.0, x.1.now)) result (name_at bytes.now) }
{
    for (at, byte) in bytes.iter().enumerate() {
        if *byte == b'\n' {
            return match Name::new(Bytes::from_slice(alloc, &bytes[..at])?) {
                Some(name) => Ok((name, &bytes[at + 1..])),
                None => Err(stop(&bytes[at..], Rule::Name)),
            };
        }
        if at >= 255 || *byte < 33 || 126 < *byte {
            return Err(stop(&bytes[at..], Rule::Name));
        }
    }
    Err(stop(&[], Rule::Name))
}

/// So many bytes.
#[tactic(auto, unfolding(crate::specs::Reading::put_at))]
pub(crate) fn put(alloc: Global, size: u64, bytes: &[u8]) -> Result<(Bytes, &[u8]), Fault>
    ensures { Gives (λ x. (x.0, x.1.now)) result (put_at size bytes.now) }
{
    if (bytes.len() as u64) < size {
        return Err(stop(&[], Rule::Put));
    }
    let (put, rest) = bytes.split_at(size as usize);
    Ok((Bytes::from_slice(alloc, put)?, rest))
}

/// LF.
pub(crate) fn line_feed(bytes: &[u8]) -> Result<&[u8], Fault>
    ensures { Gives (λ rest. rest.now) result (literal_at Rule.LineFeed (10 ∷ []) bytes.now) }
{
    literal(bytes, b"\n", Rule::LineFeed)
}
