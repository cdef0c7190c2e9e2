//! The values of options: numbers, dates and names.
ghost use Rattle.std.specs.Prelude.{◌≡◌, ◌≤◌, true, length, drop, map, Some, None, if◌then◌else◌, IfOk, IfSome};
ghost use Rattle.std.specs.Char.{is_ascii_digit};
ghost use Rattle.std.specs.List.{list_all, list_any};
ghost use Rattle.std.specs.Str.{bytes_eq};
ghost use Rattle.tx_files.specs.Names.{is_name};
ghost use Rattle.tx_machine.specs.Ranges.{IsDate};
ghost use Rattle.tx_words.specs.Values.{is_number, number, checked, date_of, date_meant, before_hyphen, after_hyphen, named, begins_with_zero, is_plain, plain_number, seed_meant, limit_meant, is_first_repeated, are_distinct, all_named};

use crate::given::Names;
use std::alloc::{AllocError, Global};
use tx_bytes::Bytes;
use tx_files::Name;
use tx_machine::Date;

fn are_digits(text: &str) -> bool
    ensures { result ≡ list_all is_ascii_digit text.now }
{
    text.bytes().all(|c| c.is_ascii_digit())
}

/// A number of a date has one to four decimal digits.
fn is_number(text: &str) -> bool
    ensures { result ≡ is_number text.now }
{
    1 <= text.len() && text.len() <= 4 && are_digits(text)
}

fn read_number(text: &str) -> Option<u32>
    ensures { result ≡ number text.now }
{
    if !is_number(text) {
        return None;
    }
    text.parse().ok()
}

/// The date, if there is such a year, month, day and minute.
fn checked(date: Date) -> Option<Date>
    ensures date { result ≡ checked date }
    ensures ranges { IfSome result (λ date. IsDate date) }
{
    let is_day = 1 <= date.month && date.month <= 12 && 1 <= date.day && date.day <= 31;
    let is_year = 1 <= date.year && date.year <= 9999;
    if is_year && is_day && date.minutes <= 1439 {
        Some(date)
    } else {
        None
    }
}

/// The date of four numbers, where all four are numbers.
fn date_of(
    year: Option<u32>,
    month: Option<u32>,
    day: Option<u32>,
    minutes: Option<u32>,
) -> Option<Date>
    ensures date { result ≡ date_of year month day minutes }
    ensures ranges { IfSome result (λ date. IsDate date) }
{
    checked(Date {
        year: year?,
        month: month?,
        day: day?,
        minutes: minutes?,
    })
}

/// What stands before the first hyphen, all where there is none.
fn before_hyphen(text: &str) -> &str
    ensures { result.now ≡ before_hyphen text.now }
{
    match text.split_once('-') {
        Some((before, _)) => before,
        None => text,
    }
}

/// What follows the first hyphen, nothing where there is none.
fn after_hyphen(text: &str) -> &str
    ensures { result.now ≡ after_hyphen text.now }
{
    match text.split_once('-') {
        Some((_, after)) => after,
        None => "",
    }
}

/// A date is written Y-M-D-T.
pub fn read_date(text: &str) -> Option<Date>
    ensures date { result ≡ date_meant text.now }
    ensures ranges { IfSome result (λ date. IsDate date) }
{
    let month_on = after_hyphen(text);
    let day_on = after_hyphen(month_on);
    date_of(
        read_number(before_hyphen(text)),
        read_number(before_hyphen(month_on)),
        read_number(before_hyphen(day_on)),
        read_number(after_hyphen(day_on)),
    )
}

/// The text as a name, if it is one.
pub fn read_name(alloc: Global, text: &str) -> Result<Option<Name>, AllocError>
    ensures { IfOk result (λ name. name ≡ named text.now) }
{
    Ok(Name::new(Bytes::from_slice(alloc, text.as_bytes())?))
}

fn begins_with_zero(text: &str) -> bool
    ensures { result ≡ begins_with_zero text.now }
{
    matches!(text.as_bytes().first(), Some(b'0'))
}

/// Decimal digits, no more than any limit has, and no zero in front of others.
fn is_plain(text: &str) -> bool
    ensures { result ≡ is_plain text.now }
{
    let is_short = 1 <= text.len() && text.len() <= 10;
    is_short && are_digits(text) && (text.len() == 1 || !begins_with_zero(text))
}

fn read_plain(text: &str) -> Option<u64>
    ensures { result ≡ plain_number text.now }
{
    if !is_plain(text) {
        return None;
    }
    text.parse().ok()
}

/// A number of 32 bits.
pub fn read_seed(text: &str) -> Option<u32>
    ensures { result ≡ seed_meant text.now }
{
    let number = read_plain(text)?;
    if number <= 4_294_967_295 {
        Some(number as u32)
    } else {
        None
    }
}

/// A number from 1 on.
pub fn read_limit(most: u32, text: &str) -> Option<u32>
    ensures limit { result ≡ limit_meant most text.now }
    ensures range { IfSome result (λ n. (1 ≤ n) × (n ≤ most)) }
{
    let number = read_plain(text)?;
    if 1 <= number && number <= u64::from(most) {
        Some(number as u32)
    } else {
        None
    }
}

fn is_among(names: &[Name], name: &Name) -> bool
    ensures { result ≡ list_any (bytes_eq name.now) names.now }
{
    names
        .iter()
        .any(|other| name.as_slice() == other.as_slice())
}

/// The names from a place on.
fn names_from(names: &[Name], place: usize) -> &[Name]
    requires { place ≤ length names.now }
    ensures { result.now ≡ drop place names.now }
{
    &names[place..]
}

/// Whether the first name is equal to one behind it.
fn is_first_repeated(names: &[Name]) -> bool
    ensures { result ≡ is_first_repeated names.now }
{
    match names {
        [] => false,
        [first, ..] => is_among(names_from(names, 1), first),
    }
}

/// Whether no name is equal to one behind it.
fn are_distinct(names: &[Name]) -> bool
    ensures { result ≡ are_distinct names.now }
{
    for i in 0..names.len() {
        if is_first_repeated(names_from(names, i)) {
            return false;
        }
    }
    true
}

/// The texts as names, in order, if each is one.
#[tactic(auto, using(crate::proofs::Rows::unnamed))]
fn read_each(alloc: Global, texts: &[&str]) -> Result<Option<Names>, AllocError>
    ensures { IfOk result (λ names. names ≡ (if list_all is_name (map (λ t. t.now) texts.now) then Some (map (λ t. t.now) texts.now) else None)) }
{
    let mut names = Names::new(alloc);
    for text in texts {
        let Some(name) = read_name(alloc, text)? else {
            return Ok(None);
        };
        names.push(name)?;
    }
    Ok(Some(names))
}

/// The texts as names, if each is one and they are distinct.
pub fn read_names(alloc: Global, texts: &[&str]) -> Result<Option<Names>, AllocError>
    ensures names { IfOk result (λ names. names ≡ all_named (map (λ t. t.now) texts.now)) }
    ensures apart { IfOk result (λ names. IfSome names (λ n. are_distinct n ≡ true)) }
{
    let Some(names) = read_each(alloc, texts)? else {
        return Ok(None);
    };
    if are_distinct(names.as_slice()) {
        Ok(Some(names))
    } else {
        Ok(None)
    }
}
