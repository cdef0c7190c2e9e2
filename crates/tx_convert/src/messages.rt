//! Tokens as messages print them.
ghost use Rattle.std.specs.Prelude.{◌≡◌, ◌++◌, ◌==◌, ◌||◌, ◌&&◌, [], not, IfOk, OnOk};
ghost use Rattle.std.specs.List.{list_all};
ghost use Rattle.tx_convert.specs.Messages.{identifier_text, is_letter_code, is_word, name_text, printed, token_text};

use std::alloc::{AllocError, Global};
use tx_bytes::Bytes;
use tx_char::{Cat, Codes, Token};
use tx_tfm::Fonts;

/// The text of these tokens as a message prints it: each character is its byte; a name has the escape character before
/// it, if there is one, and a blank behind it, if it is a word, that is, if all its characters are letters at this
/// moment and there is one (The TeXbook, chapter 20); the identifier of a font always has one behind it (TeX: The Program,
/// section 262). Its only error is want of memory.
pub fn text_of(
    alloc: Global,
    tokens: &[Token],
    escape: Option<u8>,
    codes: &Codes,
    fonts: &Fonts,
) -> Result<Bytes, AllocError>
    ensures { IfOk result (λ text. text ≡ printed escape codes.now fonts.now tokens.now) }
{
    let mut text = Bytes::new(alloc);
    for token in tokens {
        print_token(&mut text, token, escape, codes, fonts)?;
    }
    Ok(text)
}

/// Puts the text of one token at the end. Its only error is want of memory.
fn print_token(
    text: &mut Bytes,
    token: &Token,
    escape: Option<u8>,
    codes: &Codes,
    fonts: &Fonts,
) -> Result<(), AllocError>
    ensures { OnOk result (text.new ≡ text.old ++ token_text escape codes.now fonts.now token.now) }
{
    match token {
        Token::Character(code, _) => text.push(*code),
        Token::Name(name) => print_name(text, name.as_slice(), escape, codes),
        Token::FrozenRelax => print_name(text, b"relax", escape, codes),
        Token::FontIdentifier(font) => print_identifier(text, escape, fonts.identifier(*font)),
    }
}

/// Puts the text of the identifier of a font at the end. Its only error is want of memory.
pub(crate) fn print_identifier(
    text: &mut Bytes,
    escape: Option<u8>,
    identifier: &[u8],
) -> Result<(), AllocError>
    ensures { OnOk result (text.new ≡ text.old ++ identifier_text escape identifier.now) }
{
    if let Some(code) = escape {
        text.push(code)?;
    }
    text.append(identifier)?;
    text.push(b' ')
}

/// Puts the text of a name at the end. Its only error is want of memory.
fn print_name(
    text: &mut Bytes,
    name: &[u8],
    escape: Option<u8>,
    codes: &Codes,
) -> Result<(), AllocError>
    ensures { OnOk result (text.new ≡ text.old ++ name_text escape codes.now name.now) }
{
    if let Some(code) = escape {
        text.push(code)?;
    }
    text.append(name)?;
    if is_word_of_letters(name, codes) {
        text.push(b' ')?;
    }
    Ok(())
}

/// Whether there are characters and all are letters.
fn is_word_of_letters(name: &[u8], codes: &Codes) -> bool
    ensures { result ≡ is_word codes.now name.now }
{
    !name.is_empty() && are_letters(name, codes)
}

/// Whether all characters are letters.
fn are_letters(name: &[u8], codes: &Codes) -> bool
    ensures { result ≡ list_all (is_letter_code codes.now) name.now }
{
    name.iter().all(|code| is_letter(codes, *code))
}

/// Whether this character is a letter.
pub(crate) fn is_letter(codes: &Codes, code: u8) -> bool
    ensures { result ≡ is_letter_code codes.now code }
{
    matches!(codes.get(code), Cat::Letter)
}
