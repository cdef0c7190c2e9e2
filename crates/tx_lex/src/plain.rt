//! Characters that are tokens as they stand in a line.
ghost use Rattle.std.specs.Prelude.{◌≡◌, ◌∷◌, ◌++◌, drop, IfSome};
ghost use Rattle.std.specs.Option.{option_to_list};
ghost use Rattle.tx_lex.specs.Plain.{Begins, IsPlain, category_of, code_of, state_behind};

use crate::types::{PlainToken, ReadState};
use tx_char::{Cat, Codes};

impl PlainToken {
    /// Its character code.
    #[inline(always)]
    pub fn code(self) -> u8
        ensures { result ≡ code_of self }
    {
        match self {
            PlainToken::Set(code) => code,
            PlainToken::Blank => b' ',
        }
    }

    /// Its category.
    #[inline(always)]
    pub fn category(self, codes: &Codes) -> Cat
        ensures { result ≡ category_of codes.now self }
    {
        match self {
            PlainToken::Set(code) => codes.get(code),
            PlainToken::Blank => Cat::Space,
        }
    }

    /// The state in which what is behind it is read.
    #[inline(always)]
    pub fn state_behind(self) -> ReadState
        ensures { result ≡ state_behind self }
    {
        match self {
            PlainToken::Set(_) => ReadState::M,
            PlainToken::Blank => ReadState::S,
        }
    }
}

/// The first byte of a line, before which a character may stand that is not its own.
#[inline(always)]
fn first_byte(front: Option<u8>, rest: &[u8]) -> Option<u8>
    ensures { IfSome result (λ code. option_to_list front ++ rest.now ≡ code ∷ drop 1 (option_to_list front ++ rest.now)) }
{
    match front {
        Some(code) => Some(code),
        None => rest.first().copied(),
    }
}

/// What a character of this category is as it stands, if it is a token so, where it is read in this state.
#[inline(always)]
fn plain_by(code: u8, category: Cat, state: ReadState) -> Option<PlainToken>
    ensures { IfSome result (IsPlain code category state) }
{
    match category {
        Cat::Letter | Cat::Other => Some(PlainToken::Set(code)),
        Cat::Space => match state {
            ReadState::M => Some(PlainToken::Blank),
            ReadState::N | ReadState::S => None,
        },
        _ => None,
    }
}

/// The token that is the first character of such a line, where it is one as it stands.
#[inline(always)]
pub fn first_plain(
    front: Option<u8>,
    rest: &[u8],
    state: ReadState,
    codes: &Codes,
) -> Option<PlainToken>
    ensures { IfSome result (Begins codes.now state (option_to_list front ++ rest.now)) }
{
    let code = first_byte(front, rest)?;
    plain_by(code, codes.get(code), state)
}
