//! The line with which a request begins, or a change of a batch, read at the front of the bytes. Its elements are those of a script's
//! commands, a number of bytes that a file may have, and the number of a page.
ghost use Rattle.std.specs.Prelude.{◌≡◌};
ghost use Rattle.tx_request.specs.Reading.{change_line_at, change_rest_at, command_rest_at, edit_line_at, head_at, lone_at, other_word_at, page_at, request_word_at, rest_at, size_at, with_size};
ghost use Rattle.tx_script.specs.Reading.{Gives};

use crate::head::{ChangeLine, EditLine, Head, RequestWord};
use std::alloc::Global;
use tx_script::element::{self, ChangeWord, CommandWord, literal, stop, with_byte};
use tx_script::{Fault, FilePlace, Rule};

/// No more bytes are put in by a request, as no file has more.
const MOST_BYTES: u64 = 67_108_864;

/// The word for the transcript, of the whole of it or of what a page brought, or one that begins a command of a script.
fn other_word(bytes: &[u8]) -> Result<(RequestWord, &[u8]), Fault>
    ensures { Gives (λ x. (x.0, x.1.now)) result (other_word_at bytes.now) }
{
    if bytes.starts_with(b"log\n") {
        return Ok((RequestWord::Log, literal(bytes, b"log\n", Rule::Word)?));
    }
    if bytes.starts_with(b"log") {
        return Ok((RequestWord::LogOf, literal(bytes, b"log ", Rule::Word)?));
    }
    let (word, rest) = element::word(bytes)?;
    Ok((RequestWord::Command(word), rest))
}

/// The word that begins a request, and a space, or for the whole transcript LF.
#[tactic(auto, unfolding(crate::specs::Reading::request_word_at))]
fn request_word(bytes: &[u8]) -> Result<(RequestWord, &[u8]), Fault>
    ensures { Gives (λ x. (x.0, x.1.now)) result (request_word_at bytes.now) }
{
    match bytes {
        [b'f', ..] => Ok((RequestWord::File, literal(bytes, b"file ", Rule::Word)?)),
        [b'p', ..] => Ok((RequestWord::Page, literal(bytes, b"page ", Rule::Word)?)),
        _ => other_word(bytes),
    }
}

/// The number of a page and LF.
fn page(bytes: &[u8]) -> Result<(u64, &[u8]), Fault>
    ensures { Gives (λ x. (x.0, x.1.now)) result (page_at bytes.now) }
{
    let mut known = None;
    for (at, byte) in bytes.iter().enumerate() {
        if *byte == b'\n' {
            return match known {
                Some(value) => Ok((value, &bytes[at + 1..])),
                None => Err(stop(&bytes[at..], Rule::Page)),
            };
        }
        match with_byte(known, *byte) {
            Some(value) => known = Some(value),
            None => return Err(stop(&bytes[at..], Rule::Page)),
        }
    }
    Err(stop(&[], Rule::Page))
}

/// A number of bytes of which one more digit has been read; None where no file may have as many.
fn with_size(number: Option<u64>, byte: u8) -> Option<u64>
    ensures { result ≡ with_size number byte }
{
    match with_byte(number, byte) {
        Some(size) if size <= MOST_BYTES => Some(size),
        _ => None,
    }
}

/// How many bytes are put in, and a space; no more than a file may have.
fn size(bytes: &[u8]) -> Result<(u64, &[u8]), Fault>
    ensures { Gives (λ x. (x.0, x.1.now)) result (size_at bytes.now) }
{
    let mut known = None;
    for (at, byte) in bytes.iter().enumerate() {
        if *byte == b' ' {
            return match known {
                Some(value) => Ok((value, &bytes[at + 1..])),
                None => Err(stop(&bytes[at..], Rule::Number)),
            };
        }
        match with_size(known, *byte) {
            Some(value) => known = Some(value),
            None => return Err(stop(&bytes[at..], Rule::Number)),
        }
    }
    Err(stop(&[], Rule::Number))
}

/// The line of an edit, after its word.
#[tactic(auto, unfolding(crate::specs::Reading::edit_line_at))]
fn edit_line(alloc: Global, bytes: &[u8]) -> Result<(EditLine, &[u8]), Fault>
    ensures { Gives (λ x. (x.0, x.1.now)) result (edit_line_at bytes.now) }
{
    let (place, rest) = element::number(bytes)?;
    let (removed, rest) = element::number(rest)?;
    let (size, rest) = size(rest)?;
    let (name, rest) = element::name(alloc, rest)?;
    let line = EditLine {
        name,
        place,
        removed,
        size,
    };
    Ok((line, rest))
}

/// The line of a change, after its word.
#[tactic(auto, unfolding(crate::specs::Reading::change_rest_at))]
fn change_rest(alloc: Global, word: ChangeWord, bytes: &[u8]) -> Result<(ChangeLine, &[u8]), Fault>
    ensures { Gives (λ x. (x.0, x.1.now)) result (change_rest_at word bytes.now) }
{
    match word {
        ChangeWord::Edit => {
            let (line, rest) = edit_line(alloc, bytes)?;
            Ok((ChangeLine::Edit(line), rest))
        }
        ChangeWord::Remove => {
            let (name, rest) = element::name(alloc, bytes)?;
            Ok((ChangeLine::Remove(name), rest))
        }
    }
}

/// The line of a change of a batch.
#[tactic(auto, unfolding(crate::specs::Reading::change_line_at))]
pub fn change_line(alloc: Global, bytes: &[u8]) -> Result<(ChangeLine, &[u8]), Fault>
    ensures { Gives (λ x. (x.0, x.1.now)) result (change_line_at bytes.now) }
{
    let (word, rest) = element::change_word(bytes)?;
    change_rest(alloc, word, rest)
}

/// The line of a lone change, as a head.
fn lone(alloc: Global, word: ChangeWord, bytes: &[u8]) -> Result<(Head, &[u8]), Fault>
    ensures { Gives (λ x. (x.0, x.1.now)) result (lone_at word bytes.now) }
{
    let (line, rest) = change_rest(alloc, word, bytes)?;
    Ok((Head::Change(line), rest))
}

/// The line of a script's command, after its word.
#[tactic(auto, unfolding(crate::specs::Reading::command_rest_at))]
fn command_rest(alloc: Global, word: CommandWord, bytes: &[u8]) -> Result<(Head, &[u8]), Fault>
    ensures { Gives (λ x. (x.0, x.1.now)) result (command_rest_at word bytes.now) }
{
    match word {
        CommandWord::Edit => lone(alloc, ChangeWord::Edit, bytes),
        CommandWord::Remove => lone(alloc, ChangeWord::Remove, bytes),
        CommandWord::Batch => {
            let (count, rest) = element::count(bytes)?;
            Ok((Head::Batch(count), rest))
        }
        CommandWord::Save => {
            let (name, rest) = element::name(alloc, bytes)?;
            Ok((Head::Save(name), rest))
        }
        CommandWord::Locate => {
            let (place, rest) = element::number(bytes)?;
            let (name, rest) = element::name(alloc, rest)?;
            Ok((Head::Locate(FilePlace { name, place }), rest))
        }
    }
}

/// The line of a request, after its word.
#[tactic(auto, unfolding(crate::specs::Reading::rest_at))]
fn rest_of(alloc: Global, word: RequestWord, bytes: &[u8]) -> Result<(Head, &[u8]), Fault>
    ensures { Gives (λ x. (x.0, x.1.now)) result (rest_at word bytes.now) }
{
    match word {
        RequestWord::Command(word) => command_rest(alloc, word, bytes),
        RequestWord::File => {
            let (size, rest) = size(bytes)?;
            let (name, rest) = element::name(alloc, rest)?;
            Ok((Head::File { size, name }, rest))
        }
        RequestWord::Page => {
            let (number, rest) = page(bytes)?;
            Ok((Head::Page(number), rest))
        }
        RequestWord::Log => Ok((Head::Log, bytes)),
        RequestWord::LogOf => {
            let (number, rest) = page(bytes)?;
            Ok((Head::LogOf(number), rest))
        }
    }
}

/// The line with which a request begins.
#[tactic(auto, unfolding(crate::specs::Reading::head_at))]
pub fn first_line(alloc: Global, bytes: &[u8]) -> Result<(Head, &[u8]), Fault>
    ensures { Gives (λ x. (x.0, x.1.now)) result (head_at bytes.now) }
{
    let (word, rest) = request_word(bytes)?;
    rest_of(alloc, word, rest)
}
