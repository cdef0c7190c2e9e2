//! \meaning.
ghost use Rattle.std.specs.Prelude.{◌≡◌, ◌++◌, OnOk, codes, string_bytes};
ghost use Rattle.std.specs.Fmt.{digits};
ghost use Rattle.tx_convert.specs.Meanings as spec;
ghost use Rattle.tx_convert.specs.Texts.{as_tokens, escaped};

use crate::fonts::put_font;
use crate::shown::{last_sign, put_all, put_body, put_escaped, put_parameters};
use crate::texts::push_text;
use itoa::Buffer;
use std::alloc::{AllocError, Global};
use tx_bytes::Bytes;
use tx_char::{Cat, Codes, Token};
use tx_prim::{Expandable, MarkKind, Primitive};
use tx_seen::Meaning;
use tx_tfm::Fonts;
use tx_toklist::{Macro, Toks};

/// What a character is for TeX, by its category.
fn kind_text(category: Cat) -> &'static [u8]
    ensures { result.now ≡ spec.kind_text category }
{
    match category {
        Cat::BeginGroup => b"begin-group character ",
        Cat::EndGroup => b"end-group character ",
        Cat::MathShift => b"math shift character ",
        Cat::AlignmentTab => b"alignment tab character ",
        Cat::Parameter => b"macro parameter character ",
        Cat::Superscript => b"superscript character ",
        Cat::Subscript => b"subscript character ",
        Cat::Space => b"blank space ",
        Cat::Letter => b"the letter ",
        Cat::Other => b"the character ",
        Cat::Escape | Cat::EndOfLine | Cat::Ignored => b"",
        Cat::Active | Cat::Comment | Cat::Invalid => b"",
    }
}

// The only error of each of these is want of memory.

/// Puts a primitive word and a number with 16 as the base at the end.
fn put_hexadecimal(
    alloc: Global,
    text: &mut Bytes,
    escape: Option<u8>,
    word: &[u8],
    number: u16,
) -> Result<(), AllocError>
    ensures { OnOk result (text.new ≡ text.old ++ (escaped escape word.now ++ spec.hexadecimal number)) }
{
    let digits = format!(in alloc; "{number:X}")?;
    put_escaped(text, escape, word)?;
    text.push(b'"')?;
    text.append(digits.as_bytes())
}

/// Puts a register at the end.
fn put_register(
    text: &mut Bytes,
    escape: Option<u8>,
    word: &[u8],
    number: u8,
) -> Result<(), AllocError>
    ensures { OnOk result (text.new ≡ text.old ++ (escaped escape word.now ++ spec.register number)) }
{
    let mut buffer = Buffer::new();
    put_escaped(text, escape, word)?;
    text.append(buffer.format(number).as_bytes())
}

/// Puts the prefixes with which a macro was defined at the end.
fn put_prefixes(
    text: &mut Bytes,
    escape: Option<u8>,
    long: bool,
    outer: bool,
) -> Result<(), AllocError>
    ensures { OnOk result (text.new ≡ text.old ++ spec.prefixes escape long outer) }
{
    if long {
        put_escaped(text, escape, b"long")?;
    }
    if outer {
        put_escaped(text, escape, b"outer")?;
    }
    if long || outer {
        text.push(b' ')?;
    }
    Ok(())
}

/// Puts the text of a macro at the end.
fn put_macro(
    text: &mut Bytes,
    escape: Option<u8>,
    codes: &Codes,
    fonts: &Fonts,
    shown: &Macro,
) -> Result<(), AllocError>
    ensures { OnOk result (text.new ≡ text.old ++ spec.macro_text escape codes.now fonts.now shown.now) }
{
    put_prefixes(text, escape, shown.is_long(), shown.is_outer())?;
    text.append(b"macro:")?;
    put_all(text, escape, codes, fonts, shown.before())?;
    put_parameters(
        text,
        escape,
        codes,
        fonts,
        shown.signs(),
        shown.delimiters(),
    )?;
    text.append(b"->")?;
    put_body(
        text,
        escape,
        codes,
        fonts,
        last_sign(shown.signs()),
        shown.tokens().as_slice(),
        shown.slots(),
    )
}

/// Puts a character with its kind at the end.
fn put_character(text: &mut Bytes, code: u8, category: Cat) -> Result<(), AllocError>
    ensures { OnOk result (text.new ≡ text.old ++ spec.character_text code category) }
{
    text.append(kind_text(category))?;
    text.push(code)
}

/// Puts a name of a font at the end.
fn put_selection(
    alloc: Global,
    text: &mut Bytes,
    fonts: &Fonts,
    number: u8,
) -> Result<(), AllocError>
    ensures { OnOk result (text.new ≡ text.old ++ spec.selection fonts.now number) }
{
    text.append(b"select font ")?;
    put_font(alloc, text, fonts, number)
}

/// Puts the text of a meaning at the end.
fn put_meaning(
    alloc: Global,
    text: &mut Bytes,
    escape: Option<u8>,
    codes: &Codes,
    fonts: &Fonts,
    meaning: &Meaning,
) -> Result<(), AllocError>
    ensures { OnOk result (text.new ≡ text.old ++ spec.meaning_text escape codes.now fonts.now meaning.now) }
{
    match meaning {
        Meaning::Undefined => text.append(b"undefined"),
        Meaning::Command(Primitive::NullFont) => put_selection(alloc, text, fonts, 0),
        Meaning::Command(primitive) => put_escaped(text, escape, primitive.name()),
        Meaning::Character(code, category) => put_character(text, *code, *category),
        Meaning::CharacterNumber(number) => {
            put_hexadecimal(alloc, text, escape, b"char", u16::from(*number))
        }
        Meaning::MathNumber(number) => put_hexadecimal(alloc, text, escape, b"mathchar", *number),
        Meaning::CountRegister(number) => put_register(text, escape, b"count", *number),
        Meaning::DimenRegister(number) => put_register(text, escape, b"dimen", *number),
        Meaning::SkipRegister(number) => put_register(text, escape, b"skip", *number),
        Meaning::MuskipRegister(number) => put_register(text, escape, b"muskip", *number),
        Meaning::ToksRegister(number) => put_register(text, escape, b"toks", *number),
        Meaning::Font(number) => put_selection(alloc, text, fonts, *number),
        Meaning::Expandable(expandable) => put_escaped(text, escape, expandable.name()),
        Meaning::Macro(shown) => put_macro(text, escape, codes, fonts, shown),
        Meaning::Held => put_escaped(text, escape, b"relax"),
    }
}

/// Puts what \meaning prints behind the tokens: `undefined`, a primitive's name, what a character is, a register or a number of
/// \chardef as the command that it stands for, `select font` and a font, or `macro:` and a macro's texts, whose names have a blank
/// behind them unless they are one character that isn't a letter at this moment (TeX: The Program, sections 292 to 298). Its only
/// error is want of memory.
pub fn push_meaning(
    alloc: Global,
    tokens: &mut Toks,
    escape: Option<u8>,
    codes: &Codes,
    fonts: &Fonts,
    meaning: &Meaning,
) -> Result<(), AllocError>
    ensures { OnOk result (tokens.new ≡ tokens.old ++ as_tokens (spec.meaning_text escape codes.now fonts.now meaning.now)) }
{
    let mut text = Bytes::new(alloc);
    put_meaning(alloc, &mut text, escape, codes, fonts, meaning)?;
    push_text(tokens, text.as_slice())
}

/// Puts what \meaning prints of \topmark or its kin behind the tokens: its name, a colon, and the tokens of the mark, printed as
/// those of a macro (TeX: The Program, section 296). Its only error is want of memory.
pub fn push_mark(
    alloc: Global,
    tokens: &mut Toks,
    escape: Option<u8>,
    codes: &Codes,
    fonts: &Fonts,
    kind: MarkKind,
    mark: &[Token],
) -> Result<(), AllocError>
    ensures { OnOk result (tokens.new ≡ tokens.old ++ as_tokens (spec.mark_text escape codes.now fonts.now kind mark.now)) }
{
    let mut text = Bytes::new(alloc);
    put_escaped(&mut text, escape, Expandable::Mark(kind).name())?;
    text.push(b':')?;
    put_all(&mut text, escape, codes, fonts, mark)?;
    push_text(tokens, text.as_slice())
}
