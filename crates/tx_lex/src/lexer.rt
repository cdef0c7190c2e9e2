//! One line to tokens.
ghost use Rattle.std.specs.Prelude.{◌≡◌, ◌≤◌, ◌++◌, length, None, IfOk};
ghost use Rattle.std.specs.Option.{option_to_list};
ghost use Rattle.tx_char.specs.declared.tokens.Token.TheVariants.{Character};
ghost use Rattle.tx_lex.specs.declared.types.Lexed.TheVariants.{Token as Lexed_token};
ghost use Rattle.tx_lex.specs.Rules.{IsReading};
ghost use Rattle.tx_lex.specs.Reading.{IsWithin, end_reading, meant, reading};

use crate::characters::first_kept;
use crate::known::{KnownNames, NoNames};
use crate::names::read_name;
use crate::types::{Lexed, ReadState};
use std::alloc::{AllocError, Global};
use tx_char::{Cat, Codes, ControlName, Token};

/// Reads the unread rest of a line up to its first token, in this state. `LineDone` comes exactly where nothing but
/// dropped characters was left, `E1` exactly where a character of category Invalid is read. Its only error is want of
/// memory.
pub fn lex(alloc: Global, rest: &[u8], state: ReadState, codes: &Codes) -> Result<Lexed, AllocError>
    ensures reading { IfOk result (λ lexed. meant rest.now lexed ≡ reading codes.now state rest.now) }
    ensures rules { IfOk result (λ lexed. IsReading codes.now state rest.now (meant rest.now lexed)) }
    ensures within { IfOk result (λ lexed. IsWithin rest.now lexed) }
{
    lex_on(alloc, None, rest, state, codes, &NoNames)
}

/// Does the same for a line of which an answer has left a character in front of the bytes that aren't used; a name that is
/// known takes no memory.
pub fn lex_on<K: KnownNames>(
    alloc: Global,
    front: Option<u8>,
    rest: &[u8],
    state: ReadState,
    codes: &Codes,
    known: &K,
) -> Result<Lexed, AllocError>
    ensures reading { IfOk result (λ lexed. meant rest.now lexed ≡ reading codes.now state (option_to_list front ++ rest.now)) }
    ensures within { IfOk result (λ lexed. IsWithin rest.now lexed) }
{
    let Some(found) = first_kept(codes, front, rest, state) else {
        return Ok(Lexed::LineDone);
    };
    let category = codes.get(found.code);
    match category {
        Cat::Escape => read_name(alloc, codes, known, rest, found.next, state),
        Cat::EndOfLine => line_end(alloc, rest, state),
        Cat::Space => Ok(character(b' ', Cat::Space, found.next, ReadState::S)),
        Cat::Comment => Ok(Lexed::LineDone),
        Cat::Invalid => Ok(Lexed::E1),
        _ => Ok(character(found.code, category, found.next, ReadState::M)),
    }
}

/// What an end of line gives, which drops what stands behind it. Its only error is want of memory.
fn line_end(alloc: Global, line: &[u8], state: ReadState) -> Result<Lexed, AllocError>
    ensures reading { IfOk result (λ lexed. meant line.now lexed ≡ end_reading state) }
    ensures within { IfOk result (λ lexed. IsWithin line.now lexed) }
{
    match state {
        ReadState::N => Ok(Lexed::Token {
            token: Token::Name(ControlName::from_slice(alloc, b"par")?),
            used: line.len(),
            front: None,
            state,
        }),
        ReadState::M => Ok(character(b' ', Cat::Space, line.len(), state)),
        ReadState::S => Ok(Lexed::LineDone),
    }
}

/// The answer that this character token was read.
fn character(code: u8, category: Cat, used: usize, state: ReadState) -> Lexed
    ensures { result ≡ Lexed_token (Character code category) used None state }
{
    Lexed::Token {
        token: Token::Character(code, category),
        used,
        front: None,
        state,
    }
}
