//! The braces of groups.
ghost use Rattle.std.specs.Prelude.{◌≡◌};
ghost use Rattle.tx_toklist.specs.Macros.{is_begin, is_end};

use tx_char::{Cat, Token};

/// Whether this is a begin-group token.
#[inline(always)]
pub fn begins_group(token: &Token) -> bool
    ensures { result ≡ is_begin token.now }
{
    matches!(token, Token::Character(_, Cat::BeginGroup))
}

/// Whether this is an end-group token.
#[inline(always)]
pub fn ends_group(token: &Token) -> bool
    ensures { result ≡ is_end token.now }
{
    matches!(token, Token::Character(_, Cat::EndGroup))
}
