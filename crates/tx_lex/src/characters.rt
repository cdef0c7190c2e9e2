//! The characters of a line, one at a time, each `^^` replaced.
ghost use Rattle.std.specs.Prelude.{◌≡◌, ◌≤◌, ◌<◌, ◌∷◌, ◌+◌, ◌++◌, drop, length, [], MatchOption, IfSome};
ghost use Rattle.std.specs.Option.{option_to_list};
ghost use Rattle.tx_lex.specs.Steps.{IsReadFrom, IsKeptFrom};
ghost use Rattle.tx_lex.specs.Reading.{is_dropped, kept};
ghost use Rattle.tx_char.specs.Category.{category};

use crate::notation::denoted;
use crate::types::{Character, ReadState};
use tx_char::{Cat, Codes};

/// The character that is read where `code` stands before the bytes from `next` on: what the notations that begin there
/// stand for, one in the other, or the code itself.
fn reduced(codes: &Codes, line: &[u8], code: u8, next: usize) -> Character
    requires { next ≤ length line.now }
    ensures read { IsReadFrom codes.now (code ∷ drop next line.now) line.now result }
    ensures onward { next ≤ result.next }
    ensures plain { result.next ≡ next → result.code ≡ code }
{
    let mut character = Character { code, next };
    while let Some(inner) = denoted(codes, character.code, &line[character.next..]) {
        character = Character {
            code: inner.code,
            next: character.next + inner.next,
        };
    }
    character
}

/// The character that is read at this place of a line; None exactly at its end.
#[inline(always)]
pub(crate) fn character_at(codes: &Codes, line: &[u8], place: usize) -> Option<Character>
    ensures read { MatchOption result (length line.now ≤ place) (IsReadFrom codes.now (drop place line.now) line.now) }
    ensures inside { IfSome result (λ c. place < length line.now) }
    ensures onward { IfSome result (λ c. place < c.next) }
    ensures plain { IfSome result (λ c. c.next ≡ place + 1 → drop place line.now ≡ c.code ∷ drop c.next line.now) }
{
    let code = *line.get(place)?;
    Some(reduced(codes, line, code, place + 1))
}

/// The first character of a line, before which a character may stand that is not its own.
fn first_character(codes: &Codes, front: Option<u8>, line: &[u8]) -> Option<Character>
    ensures { MatchOption result (option_to_list front ++ line.now ≡ []) (IsReadFrom codes.now (option_to_list front ++ line.now) line.now) }
{
    match front {
        Some(code) => Some(reduced(codes, line, code, 0)),
        None => character_at(codes, line, 0),
    }
}

/// The first character of such a line that is not dropped in this state; None exactly where all are.
pub(crate) fn first_kept(
    codes: &Codes,
    front: Option<u8>,
    line: &[u8],
    state: ReadState,
) -> Option<Character>
    ensures { MatchOption result (kept codes.now state (option_to_list front ++ line.now) ≡ []) (IsKeptFrom codes.now state (option_to_list front ++ line.now) line.now) }
{
    let mut character = first_character(codes, front, line)?;
    while is_passed_over(state, codes.get(character.code)) {
        character = character_at(codes, line, character.next)?;
    }
    Some(character)
}

/// Whether a character of this category is dropped in this state.
fn is_passed_over(state: ReadState, category: Cat) -> bool
    ensures { result ≡ is_dropped state category }
{
    match category {
        Cat::Ignored => true,
        Cat::Space => !matches!(state, ReadState::M),
        _ => false,
    }
}
