//! \number, \romannumeral, and \the of numbers, sizes and glue.
ghost use Rattle.std.specs.Prelude.{◌≡◌, ◌++◌, ◌<◌, OnOk, codes, replicate};
ghost use Rattle.tx_convert.specs.Numerals.{number_text, roman_digit, roman, roman_text, size_text};
ghost use Rattle.tx_convert.specs.Glues as glues;
ghost use Rattle.tx_convert.specs.Texts.{as_tokens};

use crate::texts::{push_code, push_text};
use itoa::Buffer;
use std::alloc::{AllocError, Global};
use tx_bytes::Bytes;
use tx_num::{Glue, scaled_text};
use tx_toklist::Toks;

/// Puts an integer in decimal digits behind the tokens, with `-` before it where it is negative (TeX: The Program, section 65).
/// Its only error is want of memory.
pub fn push_number(tokens: &mut Toks, number: i64) -> Result<(), AllocError>
    ensures { OnOk result (tokens.new ≡ tokens.old ++ as_tokens (number_text number)) }
{
    let mut buffer = Buffer::new();
    push_text(tokens, buffer.format(number).as_bytes())
}

/// Puts a size in points, with its unit, behind the tokens; it counts in scaled points (TeX: The Program, section 103). Its
/// only error is want of memory.
pub fn push_size(alloc: Global, tokens: &mut Toks, size: i64) -> Result<(), AllocError>
    ensures { OnOk result (tokens.new ≡ tokens.old ++ as_tokens (size_text size)) }
{
    let points = scaled_text(alloc, size)?;
    push_points(tokens, points.as_slice())
}

/// Puts a number of points with its unit behind the tokens. Its only error is want of memory.
fn push_points(tokens: &mut Toks, points: &[u8]) -> Result<(), AllocError>
    ensures { OnOk result (tokens.new ≡ tokens.old ++ as_tokens (points.now ++ codes "pt")) }
{
    push_text(tokens, points)?;
    push_text(tokens, b"pt")
}

/// The unit in which a stretch or a shrink of this order is told: that of the width, or an infinite one.
fn unit_of(mu: bool, order: u8) -> &'static [u8]
    ensures { result.now ≡ glues.unit_of mu order }
{
    match order {
        0 => { if mu { b"mu" } else { b"pt" } }
        1 => b"fil",
        2 => b"fill",
        _ => b"filll",
    }
}

/// Puts a size with its unit at the end. Its only error is want of memory.
fn put_size(
    alloc: Global,
    text: &mut Bytes,
    size: i64,
    mu: bool,
    order: u8,
) -> Result<(), AllocError>
    ensures { OnOk result (text.new ≡ text.old ++ glues.told mu size order) }
{
    let digits = scaled_text(alloc, size)?;
    put_told(text, digits.as_slice(), unit_of(mu, order))
}

/// Puts digits and a unit behind them at the end. Its only error is want of memory.
fn put_told(text: &mut Bytes, digits: &[u8], unit: &[u8]) -> Result<(), AllocError>
    ensures { OnOk result (text.new ≡ text.old ++ (digits.now ++ unit.now)) }
{
    text.append(digits)?;
    text.append(unit)
}

/// Puts a stretch or a shrink with the word before it at the end, unless there is nothing of it. Its only error is want of memory.
fn put_elastic(
    alloc: Global,
    text: &mut Bytes,
    word: &[u8],
    size: i64,
    mu: bool,
    order: u8,
) -> Result<(), AllocError>
    ensures { OnOk result (text.new ≡ text.old ++ glues.elastic_text word.now mu size order) }
{
    if size == 0 {
        return Ok(());
    }
    text.append(word)?;
    put_size(alloc, text, size, mu, order)
}

/// Puts glue behind the tokens, told in mu or in points (TeX: The Program, sections 177 and 178). Its only error is want of memory.
pub fn push_glue(alloc: Global, tokens: &mut Toks, glue: &Glue, mu: bool) -> Result<(), AllocError>
    ensures { OnOk result (tokens.new ≡ tokens.old ++ as_tokens (glues.glue_text mu glue.now)) }
{
    let mut text = Bytes::new(alloc);
    put_size(alloc, &mut text, glue.width(), mu, 0)?;
    put_elastic(
        alloc,
        &mut text,
        b" plus ",
        glue.stretch(),
        mu,
        glue.stretch_order(),
    )?;
    put_elastic(
        alloc,
        &mut text,
        b" minus ",
        glue.shrink(),
        mu,
        glue.shrink_order(),
    )?;
    push_text(tokens, text.as_slice())
}

/// Puts a character behind the tokens so many times. Its only error is want of memory.
fn push_repeated(tokens: &mut Toks, count: u64, code: u8) -> Result<(), AllocError>
    ensures { OnOk result (tokens.new ≡ tokens.old ++ as_tokens (replicate count code)) }
{
    let mut left = count;
    while left > 0 {
        push_code(tokens, code)?;
        left -= 1;
    }
    Ok(())
}

/// Puts a decimal digit in Roman letters behind the tokens, by the letters for one, five and ten. Its only error is want of
/// memory.
fn push_roman_digit(tokens: &mut Toks, letters: (u8, u8, u8), digit: u64) -> Result<(), AllocError>
    requires { digit < 10 }
    ensures { OnOk result (tokens.new ≡ tokens.old ++ as_tokens (roman_digit letters.0 letters.1 letters.2 digit)) }
{
    let (one, five, ten) = letters;
    if digit <= 3 {
        return push_repeated(tokens, digit, one);
    }
    if digit == 4 {
        push_code(tokens, one)?;
        return push_code(tokens, five);
    }
    if digit <= 8 {
        push_code(tokens, five)?;
        return push_repeated(tokens, digit - 5, one);
    }
    push_code(tokens, one)?;
    push_code(tokens, ten)
}

/// Puts a Roman numeral behind the tokens, and nothing for a number below 1 (TeX: The Program, section 69). Its only error is
/// want of memory.
pub fn push_roman(tokens: &mut Toks, number: i64) -> Result<(), AllocError>
    ensures { OnOk result (tokens.new ≡ tokens.old ++ as_tokens (roman_text number)) }
{
    if number < 0 {
        return Ok(());
    }
    push_positive(tokens, number as u64)
}

/// The Roman numeral of a number that isn't negative. Its only error is want of memory.
fn push_positive(tokens: &mut Toks, number: u64) -> Result<(), AllocError>
    ensures { OnOk result (tokens.new ≡ tokens.old ++ as_tokens (roman number)) }
{
    push_repeated(tokens, number / 1000, b'm')?;
    push_roman_digit(tokens, (b'c', b'd', b'm'), number / 100 % 10)?;
    push_roman_digit(tokens, (b'x', b'l', b'c'), number / 10 % 10)?;
    push_roman_digit(tokens, (b'i', b'v', b'x'), number % 10)
}
