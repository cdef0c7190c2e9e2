//! The names of control sequences.
ghost use Rattle.std.specs.Prelude.{◌≡◌, ◌≤◌, drop, length, IfOk};
ghost use Rattle.tx_char.specs.declared.tokens.Token.TheVariants.{Name};
ghost use Rattle.tx_lex.specs.declared.types.Lexed.TheVariants.{Token as Lexed_token};
ghost use Rattle.tx_lex.specs.Characters.{characters};
ghost use Rattle.tx_lex.specs.Reading.{IsWithin, is_letter, meant, name_reading, state_after, word_reading};

use crate::characters::character_at;
use crate::known::{KnownNames, name_of};
use crate::types::{Lexed, ReadState};
use std::alloc::{AllocError, Global};
use tx_bytes::Bytes;
use tx_char::{Cat, Codes, ControlName, Token};

/// Reads the name that an escape character begins, behind which the bytes from this place on are unread. Its only
/// error is want of memory.
#[inline(never)]
pub(crate) fn read_name<K: KnownNames>(
    alloc: Global,
    codes: &Codes,
    known: &K,
    line: &[u8],
    place: usize,
    state: ReadState,
) -> Result<Lexed, AllocError>
    ensures reading { IfOk result (λ lexed. meant line.now lexed ≡ name_reading codes.now state (characters codes.now (drop place line.now))) }
    ensures within { IfOk result (λ lexed. IsWithin line.now lexed) }
{
    let Some(first) = character_at(codes, line, place) else {
        let name = ControlName::new(alloc, Bytes::new(alloc))?;
        return Ok(named(name, line.len(), None, state));
    };
    let category = codes.get(first.code);
    if is_letter_category(category) {
        return read_word(alloc, codes, known, line, place);
    }
    let name = name_of(alloc, known, &[first.code])?;
    Ok(named(name, first.next, None, state_behind(category)))
}

/// Reads the name of letters that begins at this place: as many as there are. A name that stands in the line as it is read
/// is taken from there whole. Its only error is want of memory.
fn read_word<K: KnownNames>(
    alloc: Global,
    codes: &Codes,
    known: &K,
    line: &[u8],
    begin: usize,
) -> Result<Lexed, AllocError>
    requires { begin ≤ length line.now }
    ensures reading { IfOk result (λ lexed. meant line.now lexed ≡ word_reading codes.now (characters codes.now (drop begin line.now))) }
    ensures within { IfOk result (λ lexed. IsWithin line.now lexed) }
{
    let mut place = begin;
    while let Some(found) = character_at(codes, line, place) {
        if found.next != place + 1 {
            return read_spelled_word(alloc, codes, line, begin);
        }
        if !is_letter_category(codes.get(found.code)) {
            let name = name_of(alloc, known, &line[begin..place])?;
            return Ok(word(name, place, None));
        }
        place = found.next;
    }
    let name = name_of(alloc, known, &line[begin..])?;
    Ok(word(name, line.len(), None))
}

/// Does the same character by character, where some are spelled by `^^`. Its only error is want of memory.
fn read_spelled_word(
    alloc: Global,
    codes: &Codes,
    line: &[u8],
    begin: usize,
) -> Result<Lexed, AllocError>
    ensures reading { IfOk result (λ lexed. meant line.now lexed ≡ word_reading codes.now (characters codes.now (drop begin line.now))) }
    ensures within { IfOk result (λ lexed. IsWithin line.now lexed) }
{
    let mut name = Bytes::new(alloc);
    let mut place = begin;
    while let Some(found) = character_at(codes, line, place) {
        if !is_letter_category(codes.get(found.code)) {
            let name = ControlName::new(alloc, name)?;
            // A character that stands in the line as it was read is left there.
            if found.next == place + 1 {
                return Ok(word(name, place, None));
            }
            return Ok(word(name, found.next, Some(found.code)));
        }
        name.push(found.code)?;
        place = found.next;
    }
    let name = ControlName::new(alloc, name)?;
    Ok(word(name, line.len(), None))
}

/// The answer that this name of letters was read; blanks are skipped behind it.
fn word(name: ControlName, used: usize, front: Option<u8>) -> Lexed
    ensures { result ≡ Lexed_token (Name name) used front ReadState.S }
{
    named(name, used, front, ReadState::S)
}

/// The answer that this name was read.
fn named(name: ControlName, used: usize, front: Option<u8>, state: ReadState) -> Lexed
    ensures { result ≡ Lexed_token (Name name) used front state }
{
    Lexed::Token {
        token: Token::Name(name),
        used,
        front,
        state,
    }
}

/// Whether this is the category of letters.
fn is_letter_category(category: Cat) -> bool
    ensures { result ≡ is_letter category }
{
    matches!(category, Cat::Letter)
}

/// The state behind the name of one character of this category, which is no letter.
fn state_behind(category: Cat) -> ReadState
    ensures { result ≡ state_after category }
{
    match category {
        Cat::Space => ReadState::S,
        _ => ReadState::M,
    }
}
