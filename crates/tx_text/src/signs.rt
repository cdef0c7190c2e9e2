//! What a token is to a text.
ghost use Rattle.std.specs.Prelude.{◌≡◌};
ghost use Rattle.tx_text.specs.Signs as spec;

use tx_char::Cat;
use tx_seen::Meaning;

/// The code of the character that stands for #, where a token that means this is one.
pub(crate) fn sign_of(meaning: &Meaning) -> Option<u8>
    ensures { result ≡ spec.sign_of meaning.now }
{
    match meaning {
        Meaning::Character(code, Cat::Parameter) => Some(*code),
        _ => None,
    }
}
