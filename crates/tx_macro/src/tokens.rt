//! What tokens are in the arguments of macros.
ghost use Rattle.std.specs.Prelude.{◌≡◌};
ghost use Rattle.tx_macro.specs.Tokens.{is_par, is_space};

use tx_char::{Cat, Token};

/// Whether this is a space token.
pub(crate) fn is_space_token(token: &Token) -> bool
    ensures { result ≡ is_space token.now }
{
    matches!(token, Token::Character(_, Cat::Space))
}

/// Whether this is the token \par.
pub(crate) fn is_paragraph(token: &Token) -> bool
    ensures { result ≡ is_par token.now }
{
    match token {
        Token::Name(name) => matches!(name.as_slice(), [b'p', b'a', b'r']),
        Token::Character(_, _) | Token::FrozenRelax | Token::FontIdentifier(_) => false,
    }
}
