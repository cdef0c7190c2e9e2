//! What assignments give values, and in what ranges (The TeXbook, chapter 24; TeX: The Program, sections 1224 to 1240).
ghost use Rattle.std.specs.Prelude.{◌≡◌, ◌≤ℤ◌, pos, neg_ℤ, IsTrue};
ghost use Rattle.tx_assign.specs.Targets as spec;

use crate::types::{Bounds, Change, Purpose};
use tx_char::Cat;
use tx_eqtb::Entry;
use tx_num::Glue;
use tx_prim::{CharacterCode, Operation, Shorthand};
use tx_seen::{Meaning, Place};

/// The greatest integer.
const GREATEST: i64 = 2_147_483_647;

/// The numbers up to this one.
fn up_to(greatest: i64) -> Bounds
    ensures least { result.least ≡ pos 0 }
    ensures greatest { result.greatest ≡ greatest }
{
    Bounds { least: 0, greatest }
}

/// All integers.
fn all_integers() -> Bounds
    ensures least { result.least ≡ neg_ℤ (pos 2147483647) }
    ensures greatest { result.greatest ≡ pos 2147483647 }
{
    Bounds {
        least: -GREATEST,
        greatest: GREATEST,
    }
}

/// The numbers that may stand at a place.
fn place_bounds(place: &Place) -> Bounds
    ensures { result ≡ spec.place_bounds place.now }
{
    match place {
        Place::Category(_) => up_to(15),
        Place::Code(CharacterCode::LowerCase, _) => up_to(255),
        Place::Code(CharacterCode::UpperCase, _) => up_to(255),
        Place::Code(CharacterCode::SpaceFactor, _) => up_to(32767),
        Place::Code(CharacterCode::Math, _) => up_to(32768),
        Place::Code(CharacterCode::Delimiter, _) => Bounds {
            least: -GREATEST,
            greatest: 16_777_215,
        },
        _ => all_integers(),
    }
}

/// The numbers that a name may stand for.
fn name_bounds(kind: Shorthand) -> Bounds
    ensures { result ≡ spec.name_bounds kind }
{
    match kind {
        Shorthand::CountRegister | Shorthand::DimenRegister | Shorthand::ToksRegister => up_to(255),
        Shorthand::SkipRegister | Shorthand::MuskipRegister => up_to(255),
        Shorthand::Character => up_to(255),
        Shorthand::MathCharacter => up_to(32767),
    }
}

/// The category of a number, 0 to 15; of a greater one Other.
fn category(number: u8) -> Cat
    ensures { result ≡ spec.category_numbered number }
{
    Cat::from_number(number).unwrap_or(Cat::Other)
}

/// A number as it stands at a place, if it may stand there.
fn entry_at(place: &Place, number: i64) -> Entry
    requires { IsTrue (spec.is_within (spec.place_bounds place.now) number) }
    ensures { result ≡ spec.entry_at place.now number }
{
    match place {
        Place::Category(_) => Entry::InCategory(category(number as u8)),
        _ => Entry::Number(number as i32),
    }
}

/// What a name means that stands for a number, if it may stand for it.
fn meaning_by(kind: Shorthand, number: i64) -> Meaning
    requires { IsTrue (spec.is_within (spec.name_bounds kind) number) }
    ensures { result ≡ spec.meaning_by kind number }
{
    match kind {
        Shorthand::CountRegister => Meaning::CountRegister(number as u8),
        Shorthand::DimenRegister => Meaning::DimenRegister(number as u8),
        Shorthand::SkipRegister => Meaning::SkipRegister(number as u8),
        Shorthand::MuskipRegister => Meaning::MuskipRegister(number as u8),
        Shorthand::ToksRegister => Meaning::ToksRegister(number as u8),
        Shorthand::Character => Meaning::CharacterNumber(number as u8),
        Shorthand::MathCharacter => Meaning::MathNumber(number as u16),
    }
}

impl Purpose {
    /// Whether it takes a size, at a place: what multiplies or divides is a number.
    pub(crate) fn takes_size(self, place: &Place) -> bool
        ensures { result ≡ spec.takes_size self place.now }
    {
        match self {
            Purpose::Set | Purpose::Compute(Operation::Advance) => place.is_size(),
            Purpose::Define(_) | Purpose::Compute(Operation::Multiply | Operation::Divide) => false,
            Purpose::Copy => false,
        }
    }

    /// Whether it takes glue, at a place: what multiplies or divides is a number.
    pub(crate) fn takes_glue(self, place: &Place) -> bool
        ensures { result ≡ spec.takes_glue self place.now }
    {
        match self {
            Purpose::Set | Purpose::Compute(Operation::Advance) => {
                place.is_glue() || place.is_muglue()
            }
            Purpose::Compute(Operation::Multiply | Operation::Divide) => false,
            Purpose::Define(_) | Purpose::Copy => false,
        }
    }

    /// Whether it takes a list of tokens, at a place.
    pub(crate) fn takes_list(self, place: &Place) -> bool
        ensures { result ≡ spec.takes_list self place.now }
    {
        match self {
            Purpose::Set => place.is_list(),
            Purpose::Define(_) | Purpose::Compute(_) | Purpose::Copy => false,
        }
    }

    /// The numbers that it takes, at a place.
    fn bounds(self, place: &Place) -> Bounds
        ensures { result ≡ spec.purpose_bounds self place.now }
    {
        match self {
            Purpose::Set => place_bounds(place),
            Purpose::Define(kind) => name_bounds(kind),
            Purpose::Compute(_) => all_integers(),
            Purpose::Copy => up_to(255),
        }
    }

    /// Whether it takes this number, at a place.
    pub(crate) fn takes(self, place: &Place, number: i64) -> bool
        ensures { result ≡ spec.is_within (spec.purpose_bounds self place.now) number }
    {
        let bounds = self.bounds(place);
        bounds.least <= number && number <= bounds.greatest
    }

    /// What becomes of a place by a number that it takes.
    pub(crate) fn change_by(self, place: &Place, number: i64) -> Change
        requires { IsTrue (spec.is_within (spec.purpose_bounds self place.now) number) }
        ensures { result ≡ spec.change_by self place.now number }
    {
        match self {
            Purpose::Set => Change::Set(entry_at(place, number)),
            Purpose::Define(kind) => Change::Set(Entry::Means(meaning_by(kind, number))),
            Purpose::Compute(operation) => Change::Compute(operation, number as i32),
            Purpose::Copy => Change::Copy(Place::Toks(number as u8)),
        }
    }

    /// What becomes of a place by glue.
    pub(crate) fn change_by_glue(self, glue: Glue) -> Change
        ensures { result ≡ spec.change_by_glue self glue }
    {
        match self {
            Purpose::Set | Purpose::Define(_) | Purpose::Copy => Change::Set(Entry::Glue(glue)),
            Purpose::Compute(_) => Change::Add(glue),
        }
    }

    /// What becomes of a place by a size in sp.
    pub(crate) fn change_by_size(self, size: i64) -> Change
        requires low { neg_ℤ (pos 1073741823) ≤ℤ size }
        requires high { size ≤ℤ pos 1073741823 }
        ensures { result ≡ spec.change_by_size self size }
    {
        match self {
            Purpose::Set | Purpose::Define(_) | Purpose::Copy => {
                Change::Set(Entry::Number(size as i32))
            }
            Purpose::Compute(operation) => Change::Compute(operation, size as i32),
        }
    }
}
