//! What follows a number or a size, by what it is for.
ghost use Rattle.std.specs.Prelude.{◌≡◌, ◌≤ℤ◌, pos, neg_ℤ};
ghost use Rattle.tx_scan.specs.Integers.{IsInRange};
ghost use Rattle.tx_scan.specs.IntegerRests.{IsInteger};
ghost use Rattle.tx_scan.specs.DimensionRests.{IsSize};
ghost use Rattle.tx_scan.specs.Mapped.{mapped};
ghost use Rattle.tx_shape.specs.Boxes.{shift_by};
ghost use Rattle.tx_shape.specs.Nexts as spec;

use crate::scans::{Next, NumberSetting, Plain, Registering, SizeSetting, Sizing};
use crate::types::{BoxContext, BoxGoal, BoxRead, Opener, Shaped};
use tx_prim::{MathSize, ShiftKind};
use tx_scan::{FontSought, Measure, byte, parameter};
use tx_seen::{Fed, TexError};

/// What follows the number of a class of insertions.
fn behind_class(class: u8) -> Next
    ensures { result ≡ spec.behind_class class }
{
    if class == 255 {
        return Next::Wrong(TexError::NumberOutOfRange);
    }
    Next::Part(Plain::Open(Opener::Insert(class)))
}

/// What follows the number of a family.
fn behind_family(size: MathSize, family: u8) -> Next
    ensures { result ≡ spec.behind_family size family }
{
    if family <= 15 {
        return Next::Part(Plain::FamilyEquals(size, family));
    }
    Next::Wrong(TexError::NumberOutOfRange)
}

/// What follows the number of a register.
fn behind_register(registering: Registering, register: u8) -> Next
    ensures { result ≡ spec.behind_register registering register }
{
    match registering {
        Registering::Use(context) => Next::Whole(Shaped::Box(BoxRead::Use(register), context)),
        Registering::Copy(context) => Next::Whole(Shaped::Box(BoxRead::Copy(register), context)),
        Registering::Unbox(kind) => Next::Whole(Shaped::Unbox(kind, register)),
        Registering::Set => Next::Part(Plain::Equals(register)),
        Registering::Character => Next::Whole(Shaped::Character(register)),
        Registering::Accent => Next::Whole(Shaped::Accent(register)),
        Registering::Insert => behind_class(register),
        Registering::Split(context) => Next::Part(Plain::To(register, context)),
        Registering::Family(size) => behind_family(size, register),
    }
}

/// What follows a number that is to be that of a register.
#[inline(never)]
fn behind_number(registering: Registering, number: i64) -> Next
    ensures { result ≡ spec.behind_number registering number }
{
    match byte(number) {
        Some(register) => behind_register(registering, register),
        None => Next::Wrong(TexError::NumberOutOfRange),
    }
}

/// How far a box is shifted by a size in sp.
fn shift_by(kind: ShiftKind, size: i32) -> i32
    requires low { neg_ℤ (pos 1073741823) ≤ℤ size }
    requires high { size ≤ℤ pos 1073741823 }
    ensures { result ≡ shift_by kind size }
{
    match kind {
        ShiftKind::Raise | ShiftKind::Left => -size,
        ShiftKind::Lower | ShiftKind::Right => size,
    }
}

/// What follows a size in sp.
#[inline(never)]
fn behind_size(sizing: Sizing, size: i32) -> Next
    requires low { neg_ℤ (pos 1073741823) ≤ℤ size }
    requires high { size ≤ℤ pos 1073741823 }
    ensures { result ≡ spec.behind_size sizing size }
{
    match sizing {
        Sizing::To(opening) => Next::Part(Plain::Brace(opening, BoxGoal::To(size))),
        Sizing::Spread(opening) => Next::Part(Plain::Brace(opening, BoxGoal::Spread(size))),
        Sizing::Shift(kind) => {
            Next::Part(Plain::Needed(BoxContext::Append(shift_by(kind, size))))
        }
        Sizing::Set(SizeSetting::Depth) => Next::Whole(Shaped::SetDepth(size)),
        Sizing::Set(SizeSetting::FontDimen(font, number)) => {
            Next::Whole(Shaped::SetFontDimen(font, number, size))
        }
        Sizing::Set(SizeSetting::Page(quantity)) => Next::Whole(Shaped::SetPage(quantity, size)),
        Sizing::Split(register, context) => {
            Next::Whole(Shaped::Box(BoxRead::Split(register, size), context))
        }
    }
}

/// What follows a penalty.
#[inline(always)]
pub(crate) fn penalized(fed: Fed<i64>) -> Fed<Next>
    requires { IsInteger fed }
    ensures { result ≡ mapped spec.behind_penalty fed }
{
    match fed {
        Fed::More(want) => Fed::More(want),
        Fed::Need(kind) => Fed::Need(kind),
        Fed::Done(number, back) => { Fed::Done(Next::Whole(Shaped::Penalize(number as i32)), back) }
        Fed::Wrong(error) => Fed::Wrong(error),
    }
}

/// What follows a number that is set.
#[inline(never)]
fn behind_set(setting: NumberSetting, number: i32) -> Next
    ensures { result ≡ spec.behind_set setting number }
{
    match setting {
        NumberSetting::Factor => Next::Whole(Shaped::SetFactor(number)),
        NumberSetting::PrevGraf => Next::Whole(Shaped::SetPrevGraf(number)),
        NumberSetting::ParShape => Next::Whole(Shaped::BeginShape(number)),
        NumberSetting::DeadCycles => Next::Whole(Shaped::SetDeadCycles(number)),
        NumberSetting::MathCharacter => Next::Whole(Shaped::MathCharacter(number)),
        NumberSetting::Coded(kind) => Next::Whole(Shaped::Coded(kind, number)),
        NumberSetting::Page(quantity) => Next::Whole(Shaped::SetPage(quantity, number)),
        NumberSetting::FontInteger(kind, font) => {
            Next::Whole(Shaped::SetFontInteger(kind, font, number))
        }
    }
}

/// The same.
#[inline(always)]
pub(crate) fn set(setting: NumberSetting, fed: Fed<i64>) -> Fed<Next>
    requires { IsInteger fed }
    ensures { result ≡ mapped (spec.behind_set setting) fed }
{
    match fed {
        Fed::More(want) => Fed::More(want),
        Fed::Need(kind) => Fed::Need(kind),
        Fed::Done(number, back) => Fed::Done(behind_set(setting, number as i32), back),
        Fed::Wrong(error) => Fed::Wrong(error),
    }
}

/// What follows the number of a parameter: its font.
#[inline(always)]
pub(crate) fn parametered(fed: Fed<i64>) -> Fed<Next>
    ensures { result ≡ mapped spec.behind_parameter fed }
{
    match fed {
        Fed::More(want) => Fed::More(want),
        Fed::Need(kind) => Fed::Need(kind),
        Fed::Done(number, back) => {
            Fed::Done(Next::Font(FontSought::Dimen(parameter(number))), back)
        }
        Fed::Wrong(error) => Fed::Wrong(error),
    }
}

/// What follows a number that is to be that of a register.
#[inline(always)]
pub(crate) fn registered(registering: Registering, fed: Fed<i64>) -> Fed<Next>
    ensures { result ≡ mapped (spec.behind_number registering) fed }
{
    match fed {
        Fed::More(want) => Fed::More(want),
        Fed::Need(kind) => Fed::Need(kind),
        Fed::Done(number, back) => Fed::Done(behind_number(registering, number), back),
        Fed::Wrong(error) => Fed::Wrong(error),
    }
}

/// What follows a size.
#[inline(always)]
pub(crate) fn sized(sizing: Sizing, fed: Fed<Measure>) -> Fed<Next>
    requires { IsSize fed }
    ensures { result ≡ mapped (spec.behind_measure sizing) fed }
{
    match fed {
        Fed::More(want) => Fed::More(want),
        Fed::Need(kind) => Fed::Need(kind),
        Fed::Done(measure, back) => Fed::Done(behind_size(sizing, measure.size as i32), back),
        Fed::Wrong(error) => Fed::Wrong(error),
    }
}
