//! Texts with other letters (TeX: The Program, section 1289).
ghost use Rattle.std.specs.Prelude.{◌≡◌, map, IfOk};
ghost use Rattle.tx_lettering.specs.Letters as spec;

use std::alloc::{AllocError, Global};
use tx_char::Token;
use tx_eqtb::Eqtb;
use tx_prim::CharacterCode;
use tx_scan::byte;
use tx_seen::Place;
use tx_toklist::Toks;

/// The character for a character: that of its \uccode or \lccode, where this isn't 0.
fn letter_for(table: &Eqtb, kind: CharacterCode, code: u8) -> u8
    ensures { result ≡ spec.letter_for table.now.table kind code }
{
    match byte(i64::from(table.number(&Place::Code(kind, code)))) {
        Some(0) | None => code,
        Some(other) => other,
    }
}

/// The token for a token: another character of its category. Names are as they are.
fn token_for(table: &Eqtb, kind: CharacterCode, token: Token) -> Token
    ensures { result ≡ spec.token_for table.now.table kind token }
{
    match token {
        Token::Character(code, category) => {
            Token::Character(letter_for(table, kind, code), category)
        }
        token => token,
    }
}

/// The tokens with other letters. Its only error is want of memory.
pub(crate) fn with_letters(
    alloc: Global,
    table: &Eqtb,
    kind: CharacterCode,
    tokens: Toks,
) -> Result<Toks, AllocError>
    ensures { IfOk result (λ changed. changed ≡ map (spec.token_for table.now.table kind) tokens) }
{
    let mut changed = Toks::new(alloc);
    for token in tokens.into_vec() {
        changed.push(token_for(table, kind, token))?;
    }
    Ok(changed)
}
