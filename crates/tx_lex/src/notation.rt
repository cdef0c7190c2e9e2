//! The notation `^^`, by which any character can be typed.
ghost use Rattle.std.specs.Prelude.{◌≡◌, ◌<◌, MatchOption, IsTrue, None};
ghost use Rattle.tx_char.specs.Category.{category};
ghost use Rattle.tx_lex.specs.Notation.{is_superscript, is_hex_digit, hex_value, reduction};
ghost use Rattle.tx_lex.specs.Steps.{IsDenoted};

use crate::types::Character;
use tx_char::{Cat, Codes};

/// The character for which a notation stands that begins with `code` and goes on with the bytes behind it, and how
/// many of these it takes; None exactly where none begins there.
pub(crate) fn denoted(codes: &Codes, code: u8, behind: &[u8]) -> Option<Character>
    ensures { MatchOption result (reduction codes.now code behind.now ≡ None) (IsDenoted codes.now code behind.now) }
{
    if !is_superscript_code(codes, code) {
        return None;
    }
    match behind {
        [twin, first, second, ..] if *twin == code && is_hex(*first) && is_hex(*second) => Some(
            Character {
                code: 16 * hex(*first) + hex(*second),
                next: 3,
            },
        ),
        [twin, first, ..] if *twin == code && *first < 128 => Some(Character {
            code: if *first < 64 {
                *first + 64
            } else {
                *first - 64
            },
            next: 2,
        }),
        _ => None,
    }
}

/// Whether this code is of category Superscript, and so may begin a notation.
fn is_superscript_code(codes: &Codes, code: u8) -> bool
    ensures { result ≡ is_superscript (category codes.now code) }
{
    matches!(codes.get(code), Cat::Superscript)
}

/// Whether this is a digit of the pairs that may follow `^^`; capital letters are none.
fn is_hex(code: u8) -> bool
    ensures { result ≡ is_hex_digit code }
{
    matches!(code, b'0'..=b'9' | b'a'..=b'f')
}

/// The value of such a digit.
fn hex(digit: u8) -> u8
    requires { IsTrue (is_hex_digit digit) }
    ensures value { result ≡ hex_value digit }
    ensures small { result < 16 }
{
    if digit <= b'9' {
        digit - b'0'
    } else {
        digit - b'a' + 10
    }
}
