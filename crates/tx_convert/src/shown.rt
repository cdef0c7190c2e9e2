//! Tokens and macros as \meaning prints them.
ghost use Rattle.std.specs.Prelude.{◌≡◌, ◌++◌, OnOk, length};
ghost use Rattle.tx_toklist.specs.Bodies.{ArePlaced};
ghost use Rattle.tx_convert.specs.Meanings as spec;
ghost use Rattle.tx_convert.specs.Texts.{escaped, name_text};

use crate::messages::{is_letter, print_identifier};
use itoa::Buffer;
use std::alloc::AllocError;
use tx_bytes::Bytes;
use tx_char::{Cat, Codes, Token};
use tx_tfm::Fonts;
use tx_toklist::{Slot, Toks};

// The only error of each of these is want of memory.

/// Puts a word with the escape character before it, if there is one, at the end.
pub(crate) fn put_escaped(
    text: &mut Bytes,
    escape: Option<u8>,
    word: &[u8],
) -> Result<(), AllocError>
    ensures { OnOk result (text.new ≡ text.old ++ escaped escape word.now) }
{
    if let Some(code) = escape {
        text.push(code)?;
    }
    text.append(word)
}

/// Puts the text of a name at the end.
fn put_name(text: &mut Bytes, escape: Option<u8>, name: &[u8]) -> Result<(), AllocError>
    ensures { OnOk result (text.new ≡ text.old ++ name_text escape name.now) }
{
    match name {
        [] => {
            put_escaped(text, escape, b"csname")?;
            put_escaped(text, escape, b"endcsname")
        }
        [_, ..] => put_escaped(text, escape, name),
    }
}

/// Whether a blank stands behind a name.
fn has_blank(codes: &Codes, name: &[u8]) -> bool
    ensures { result ≡ spec.has_blank codes.now name.now }
{
    match name {
        [code] => is_letter(codes, *code),
        _ => true,
    }
}

/// Puts a name in the text of a macro at the end.
fn put_shown_name(
    text: &mut Bytes,
    escape: Option<u8>,
    codes: &Codes,
    name: &[u8],
) -> Result<(), AllocError>
    ensures { OnOk result (text.new ≡ text.old ++ spec.shown_name escape codes.now name.now) }
{
    put_name(text, escape, name)?;
    if has_blank(codes, name) {
        text.push(b' ')?;
    }
    Ok(())
}

/// Puts a token in the text of a macro at the end.
fn put_shown(
    text: &mut Bytes,
    escape: Option<u8>,
    codes: &Codes,
    fonts: &Fonts,
    token: &Token,
) -> Result<(), AllocError>
    ensures { OnOk result (text.new ≡ text.old ++ spec.shown escape codes.now fonts.now token.now) }
{
    match token {
        Token::Character(code, Cat::Parameter) => {
            text.push(*code)?;
            text.push(*code)
        }
        Token::Character(code, _) => text.push(*code),
        Token::Name(name) => put_shown_name(text, escape, codes, name.as_slice()),
        Token::FrozenRelax => put_shown_name(text, escape, codes, b"relax"),
        Token::FontIdentifier(font) => print_identifier(text, escape, fonts.identifier(*font)),
    }
}

/// Puts tokens in the text of a macro at the end.
pub(crate) fn put_all(
    text: &mut Bytes,
    escape: Option<u8>,
    codes: &Codes,
    fonts: &Fonts,
    tokens: &[Token],
) -> Result<(), AllocError>
    ensures { OnOk result (text.new ≡ text.old ++ spec.all_shown escape codes.now fonts.now tokens.now) }
{
    for token in tokens {
        put_shown(text, escape, codes, fonts, token)?;
    }
    Ok(())
}

/// Puts a parameter with its sign at the end.
fn put_parameter(text: &mut Bytes, sign: u8, number: usize) -> Result<(), AllocError>
    ensures { OnOk result (text.new ≡ text.old ++ spec.parameter sign number) }
{
    let mut buffer = Buffer::new();
    text.push(sign)?;
    text.append(buffer.format(number).as_bytes())
}

/// Puts the parameters, each with the tokens behind it, at the end.
pub(crate) fn put_parameters(
    text: &mut Bytes,
    escape: Option<u8>,
    codes: &Codes,
    fonts: &Fonts,
    signs: &[u8],
    delimiters: &[Toks],
) -> Result<(), AllocError>
    requires { length signs.now ≡ length delimiters.now }
    ensures { OnOk result (text.new ≡ text.old ++ spec.parameters escape codes.now fonts.now 1 signs.now delimiters.now) }
{
    for k in 0..signs.len() {
        put_parameter(text, signs[k], k + 1)?;
        put_all(text, escape, codes, fonts, delimiters[k].as_slice())?;
    }
    Ok(())
}

/// The character that stands for # in a body.
pub(crate) fn last_sign(signs: &[u8]) -> u8
    ensures { result ≡ spec.last_sign signs.now }
{
    if signs.is_empty() {
        b'#'
    } else {
        signs[signs.len() - 1]
    }
}

/// Puts the tokens of a body, with its parameters where they stand, at the end.
pub(crate) fn put_body(
    text: &mut Bytes,
    escape: Option<u8>,
    codes: &Codes,
    fonts: &Fonts,
    sign: u8,
    tokens: &[Token],
    slots: &[Slot],
) -> Result<(), AllocError>
    requires { ArePlaced 0 (length tokens.now) slots.now }
    ensures { OnOk result (text.new ≡ text.old ++ spec.body_from escape codes.now fonts.now sign tokens.now 0 slots.now) }
{
    let mut from = 0;
    for slot in slots {
        put_all(text, escape, codes, fonts, &tokens[from..slot.before])?;
        put_parameter(text, sign, slot.number as usize)?;
        from = slot.before;
    }
    put_all(text, escape, codes, fonts, &tokens[from..])
}
