//! Texts as tokens, and \string.
ghost use Rattle.std.specs.Prelude.{◌≡◌, ◌++◌, ◌∷◌, [], OnOk};
ghost use Rattle.tx_convert.specs.Texts as spec;
ghost use Rattle.tx_convert.specs.Texts.{as_tokens};

use std::alloc::AllocError;
use tx_char::{Cat, Token};
use tx_tfm::Fonts;
use tx_toklist::Toks;

/// A character of a text as a token.
fn as_token(code: u8) -> Token
    ensures { result ≡ spec.as_token code }
{
    if code == b' ' {
        Token::Character(code, Cat::Space)
    } else {
        Token::Character(code, Cat::Other)
    }
}

/// Puts a character behind the tokens. Its only error is want of memory.
pub(crate) fn push_code(tokens: &mut Toks, code: u8) -> Result<(), AllocError>
    ensures { OnOk result (tokens.new ≡ tokens.old ++ as_tokens (code ∷ [])) }
{
    tokens.push(as_token(code))
}

/// Puts the tokens of a text behind these: a blank is a space, of category 10, and every other character has category 12
/// (TeX: The Program, section 464). Its only error is want of memory.
pub fn push_text(tokens: &mut Toks, text: &[u8]) -> Result<(), AllocError>
    ensures { OnOk result (tokens.new ≡ tokens.old ++ as_tokens text.now) }
{
    for code in text {
        push_code(tokens, *code)?;
    }
    Ok(())
}

/// Puts a word with the escape character before it, if there is one, behind the tokens. Its only error is want of memory.
fn push_escaped(tokens: &mut Toks, escape: Option<u8>, word: &[u8]) -> Result<(), AllocError>
    ensures { OnOk result (tokens.new ≡ tokens.old ++ as_tokens (spec.escaped escape word.now)) }
{
    if let Some(code) = escape {
        push_code(tokens, code)?;
    }
    push_text(tokens, word)
}

/// Puts the text of a name behind the tokens. Its only error is want of memory.
fn push_name(tokens: &mut Toks, escape: Option<u8>, name: &[u8]) -> Result<(), AllocError>
    ensures { OnOk result (tokens.new ≡ tokens.old ++ as_tokens (spec.name_text escape name.now)) }
{
    match name {
        [] => {
            push_escaped(tokens, escape, b"csname")?;
            push_escaped(tokens, escape, b"endcsname")
        }
        [_, ..] => push_escaped(tokens, escape, name),
    }
}

/// Puts what \string prints of a token behind these: a name has the escape character before it, if there is one, and no blank
/// behind it, and so has the identifier of a font; a character, also an active one, is itself (TeX: The Program, sections 263 and
/// 472). Its only error is want of memory.
pub fn push_string(
    tokens: &mut Toks,
    escape: Option<u8>,
    fonts: &Fonts,
    token: &Token,
) -> Result<(), AllocError>
    ensures { OnOk result (tokens.new ≡ tokens.old ++ as_tokens (spec.string_text escape fonts.now token.now)) }
{
    match token {
        Token::Character(code, _) => push_code(tokens, *code),
        Token::Name(name) => push_name(tokens, escape, name.as_slice()),
        Token::FrozenRelax => push_escaped(tokens, escape, b"relax"),
        Token::FontIdentifier(font) => push_escaped(tokens, escape, fonts.identifier(*font)),
    }
}
