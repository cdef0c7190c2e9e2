//! Decimal fractions of a point: what digits stand for, and the digits that stand for a size.
ghost use Rattle.std.specs.Prelude.{◌≡◌, ◌<◌, ◌≤◌, ◌^◌, ◌++◌, length, take, IfOk, OnOk};
ghost use Rattle.std.specs.Str.Parse.{AllDigits, digits_value};
ghost use Rattle.tx_num.specs.Fractions.{nearest};
ghost use Rattle.tx_num.specs.Decimals.{fraction_of, to_places, stands_for, places_of, spelled, sign_of, scaled_text_of, IsShortest};

use super::fractions::rounded;
use itoa::Buffer;
use std::alloc::{AllocError, Global};
use tx_bytes::Bytes;

/// Digits past these have no effect.
const COUNTED_DIGITS: usize = 17;

/// The fraction that ASCII digits after a decimal point stand for, in 65536ths, to the nearest, halves upwards: 0 to
/// 65536. The first seventeen digits count (TeX: The Program, sections 102 and 452).
pub fn decimals(digits: &[u8]) -> u32
    requires { AllDigits 10 digits.now }
    ensures value { result ≡ fraction_of digits.now }
    ensures bound { result ≤ 65536 }
{
    let (number, scale) = parts(counted(digits));
    let (number, scale) = (u128::from(number), u128::from(scale));
    ((2 * (65536 * number) + scale) / (2 * scale)) as u32
}

/// The digits that count.
fn counted(digits: &[u8]) -> &[u8]
    requires { AllDigits 10 digits.now }
    ensures value { result.now ≡ take 17 digits.now }
    ensures digits_in { AllDigits 10 result.now }
    ensures few { length result.now ≤ 17 }
{
    if digits.len() > COUNTED_DIGITS {
        &digits[..COUNTED_DIGITS]
    } else {
        digits
    }
}

/// The number that digits spell, and the power of ten that it lies below.
fn parts(digits: &[u8]) -> (u64, u64)
    requires digits_in { AllDigits 10 digits.now }
    requires few { length digits.now ≤ 17 }
    ensures number { result.0 ≡ digits_value 10 digits.now }
    ensures scale { result.1 ≡ 10 ^ length digits.now }
    ensures below { result.0 < result.1 }
{
    let mut number = 0u64;
    let mut scale = 1u64;
    for digit in digits {
        number = 10 * number + u64::from(*digit - b'0');
        scale *= 10;
    }
    (number, scale)
}

/// The size `x` in points, as TeX writes it: a sign if it is negative, the whole points, a point, and the fewest digits, at
/// least one, that read back as its fraction; of those, the nearest ones (TeX: The Program, section 103). The unit is left
/// to the caller.
pub fn scaled_text(alloc: Global, x: i64) -> Result<Bytes, AllocError>
    ensures text { IfOk result (λ text. text ≡ scaled_text_of x) }
    ensures shortest { IfOk result (IsShortest x) }
{
    let size = x.unsigned_abs();
    let mut text = Bytes::new(alloc);
    push_sign(&mut text, x)?;
    let mut buffer = Buffer::new();
    text.append(buffer.format(size / 65536).as_bytes())?;
    text.push(b'.')?;
    let fraction = size % 65536;
    let places = fewest_places(fraction);
    push_digits(&mut text, places, rounded_to(places, fraction))?;
    Ok(text)
}

/// Appends `-` where `x` is negative.
fn push_sign(text: &mut Bytes, x: i64) -> Result<(), AllocError>
    ensures { OnOk result (text.new ≡ text.old ++ sign_of x) }
{
    if x < 0 {
        return text.push(b'-');
    }
    Ok(())
}

/// `fraction` 65536ths to so many decimal places, as a number of units of the last place.
fn rounded_to(places: u32, fraction: u64) -> u64
    requires places_in { places ≤ 5 }
    requires fraction_in { fraction < 65536 }
    ensures value { result ≡ to_places places fraction }
    ensures bound { result ≤ 100000 }
{
    rounded(power_of_ten(places) * fraction, 65536)
}

/// Whether so many places, rounded, are read as `fraction` again.
fn is_read_back(places: u32, fraction: u64) -> bool
    requires places_in { places ≤ 5 }
    requires fraction_in { fraction < 65536 }
    ensures { result ≡ stands_for fraction places }
{
    rounded(65536 * rounded_to(places, fraction), power_of_ten(places)) == fraction
}

/// The fewest places, at least one, that are read back as `fraction`. Five always are.
fn fewest_places(fraction: u64) -> u32
    requires { fraction < 65536 }
    ensures value { result ≡ places_of fraction }
    ensures bound { result ≤ 5 }
{
    if is_read_back(1, fraction) {
        1
    } else if is_read_back(2, fraction) {
        2
    } else if is_read_back(3, fraction) {
        3
    } else if is_read_back(4, fraction) {
        4
    } else {
        5
    }
}

/// Appends the last `places` digits of `number`.
fn push_digits(text: &mut Bytes, places: u32, number: u64) -> Result<(), AllocError>
    ensures { OnOk result (text.new ≡ text.old ++ spelled places number) }
{
    if places == 0 {
        return Ok(());
    }
    push_digits(text, places - 1, number / 10)?;
    text.push(b'0' + (number % 10) as u8)
}

/// 10 to the power of `places`.
fn power_of_ten(places: u32) -> u64
    requires { places ≤ 5 }
    ensures value { result ≡ 10 ^ places }
    ensures some { 0 < result }
    ensures bound { result ≤ 100000 }
{
    10u64.pow(places)
}
