//! The names of units, letter by letter (TeX: The Program, sections 453 to 458).
ghost use Rattle.std.specs.Prelude.{◌≡◌, ◌≤◌, ◌<◌, if◌then◌else◌};
ghost use Rattle.tx_seen.specs.Seen.{is_key};
ghost use Rattle.tx_scan.specs.Dimensions as spec;

use crate::scans::{Beginning, Letters, Order, Spelled, UnitName, Units};
use tx_num::PhysicalUnit;
use tx_seen::{FontSize, Seen};

/// Whether a token begins an internal quantity.
pub(crate) fn is_internal(beginning: &Beginning) -> bool
    ensures { result ≡ spec.is_internal beginning.now }
{
    match beginning {
        Beginning::Number(_) | Beginning::At(_) | Beginning::Numbered(_) => true,
        Beginning::FontDimen | Beginning::FontInteger(_) => true,
        Beginning::Plus | Beginning::Minus | Beginning::Digit(_) | Beginning::Digits(_) => false,
        Beginning::Character | Beginning::Point | Beginning::Nothing(_) => false,
    }
}

/// The letters where this one is there.
fn on_if(there: bool, letters: Letters) -> Spelled
    ensures { result ≡ (if there then Spelled.On letters else Spelled.No) }
{
    if there {
        Spelled::On(letters)
    } else {
        Spelled::No
    }
}

/// The unit where its last letter is there.
fn whole_if(there: bool, unit: UnitName) -> Spelled
    ensures { result ≡ (if there then Spelled.Whole unit else Spelled.No) }
{
    if there {
        Spelled::Whole(unit)
    } else {
        Spelled::No
    }
}

/// The one of two units whose last letter is there.
fn either(token: &Seen, one: u8, unit: UnitName, other: u8, otherwise: UnitName) -> Spelled
    ensures { result ≡ (if is_key one token.now then Spelled.Whole unit else if is_key other token.now then Spelled.Whole otherwise else Spelled.No) }
{
    if token.is_key(one) {
        return Spelled::Whole(unit);
    }
    whole_if(token.is_key(other), otherwise)
}

/// What the first letter begins.
pub(crate) fn first_letter(units: Units, token: &Seen) -> Spelled
    ensures { result ≡ spec.first_letter units token.now }
{
    if units.infinite && token.is_key(b'f') {
        return Spelled::On(Letters::F);
    }
    if token.is_key(b'm') {
        return Spelled::On(Letters::M);
    }
    if units.mu {
        return Spelled::No;
    }
    if token.is_key(b'p') {
        return Spelled::On(Letters::P);
    }
    if token.is_key(b'i') {
        return Spelled::On(Letters::I);
    }
    if token.is_key(b'b') {
        return Spelled::On(Letters::B);
    }
    if token.is_key(b'c') {
        return Spelled::On(Letters::C);
    }
    if token.is_key(b'd') {
        return Spelled::On(Letters::D);
    }
    if token.is_key(b's') {
        return Spelled::On(Letters::S);
    }
    if token.is_key(b'e') {
        return Spelled::On(Letters::E);
    }
    on_if(token.is_key(b't'), Letters::T)
}

/// What the first letter begins behind `true`: a unit that is of the same size everywhere.
pub(crate) fn first_letter_behind_true(token: &Seen) -> Spelled
    ensures { result ≡ spec.first_letter_behind_true token.now }
{
    if token.is_key(b'm') {
        return Spelled::On(Letters::M);
    }
    if token.is_key(b'p') {
        return Spelled::On(Letters::P);
    }
    if token.is_key(b'i') {
        return Spelled::On(Letters::I);
    }
    if token.is_key(b'b') {
        return Spelled::On(Letters::B);
    }
    if token.is_key(b'c') {
        return Spelled::On(Letters::C);
    }
    if token.is_key(b'd') {
        return Spelled::On(Letters::D);
    }
    on_if(token.is_key(b's'), Letters::S)
}

/// What an m begins that stands for so much by the next letter.
fn behind_m(units: Units, token: &Seen) -> Spelled
    ensures { result ≡ spec.letter_on units Letters.M token.now }
{
    if units.mu {
        return whole_if(token.is_key(b'u'), UnitName::Mathematical);
    }
    whole_if(
        token.is_key(b'm'),
        UnitName::Physical(PhysicalUnit::Millimetre),
    )
}

/// What the next letter makes of a name.
pub(crate) fn letter_on(units: Units, letters: Letters, token: &Seen) -> Spelled
    ensures { result ≡ spec.letter_on units letters token.now }
{
    match letters {
        Letters::P => either(
            token,
            b't',
            UnitName::Physical(PhysicalUnit::Point),
            b'c',
            UnitName::Physical(PhysicalUnit::Pica),
        ),
        Letters::I => whole_if(token.is_key(b'n'), UnitName::Physical(PhysicalUnit::Inch)),
        Letters::B => whole_if(
            token.is_key(b'p'),
            UnitName::Physical(PhysicalUnit::BigPoint),
        ),
        Letters::C => either(
            token,
            b'm',
            UnitName::Physical(PhysicalUnit::Centimetre),
            b'c',
            UnitName::Physical(PhysicalUnit::Cicero),
        ),
        Letters::M => behind_m(units, token),
        Letters::D => whole_if(
            token.is_key(b'd'),
            UnitName::Physical(PhysicalUnit::DidotPoint),
        ),
        Letters::S => whole_if(
            token.is_key(b'p'),
            UnitName::Physical(PhysicalUnit::ScaledPoint),
        ),
        Letters::E => either(
            token,
            b'm',
            UnitName::Font(FontSize::Quad),
            b'x',
            UnitName::Font(FontSize::XHeight),
        ),
        Letters::F => on_if(token.is_key(b'i'), Letters::Fi),
        Letters::Fi => {
            if token.is_key(b'l') {
                Spelled::Infinite
            } else {
                Spelled::No
            }
        }
        Letters::T => on_if(token.is_key(b'r'), Letters::Tr),
        Letters::Tr => on_if(token.is_key(b'u'), Letters::Tru),
        Letters::Tru => {
            if token.is_key(b'e') {
                Spelled::True
            } else {
                Spelled::No
            }
        }
    }
}

/// Past every dimension, in whole units of each kind.
const TOO_MANY: u64 = 2_147_483_647;

/// So many whole units and 65536ths of one where `true` stands before the unit: they are divided by this magnification over 1000,
/// so that they come out as long as they are told; too many units are as many as don't fit (TeX: The Program, section 457).
pub(crate) fn magnified(whole: u32, part: u32, magnification: u16) -> (u32, u32)
    requires part { part ≤ 65536 }
    requires some { 0 < magnification }
    ensures value { result.0 < 2147483647 → result ≡ spec.magnified whole part magnification }
    ensures many { 2147483647 ≤ result.0 → 2147483647 ≤ (spec.magnified whole part magnification).0 }
    ensures bound { result.1 ≤ 65536 }
{
    if magnification == 1000 {
        return (whole, part);
    }
    let magnification = u64::from(magnification);
    let thousandfold = u64::from(whole) * 1000;
    let fraction = (u64::from(part) * 1000 + 65536 * (thousandfold % magnification))
        / magnification;
    let units = thousandfold / magnification + fraction / 65536;
    if units > TOO_MANY {
        return (TOO_MANY as u32, 0);
    }
    (units as u32, (fraction % 65536) as u32)
}

/// One more l makes a size more infinite.
pub(crate) fn raised(order: Order) -> Option<Order>
    ensures { result ≡ spec.raised order }
{
    match order {
        Order::Normal => Some(Order::Fil),
        Order::Fil => Some(Order::Fill),
        Order::Fill => Some(Order::Filll),
        Order::Filll => None,
    }
}
