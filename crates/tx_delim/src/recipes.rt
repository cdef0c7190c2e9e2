//! How often a recipe's piece is repeated, and how tall the stack is then (TeX: The Program, section 714).
ghost use Rattle.std.specs.Prelude.{◌≡◌, ◌≤◌, ◌+◌, ◌-◌, ◌*◌, ◌/◌, ◌^◌, ◌-ℤ◌, ◌*ℤ◌, pos, unsigned_abs};
ghost use Rattle.tx_delim.specs.Stacking as spec;

use crate::finding::tallness;
use tx_tfm::{Fonts, Word};

/// How often a piece stands that isn't repeated.
pub(crate) fn times_of(code: u8) -> u64
    ensures { result ≡ spec.times_of code }
{
    if code == 0 { 0 } else { 1 }
}

/// How often the repeated piece stands above the middle.
pub(crate) fn middle_times(recipe: Word, repeats: u64) -> u64
    ensures { result ≡ spec.middle_times recipe repeats }
{
    if recipe.b == 0 { 0 } else { repeats }
}

/// How tall a piece is that isn't repeated, in sp.
fn piece_tallness(fonts: &Fonts, font: u8, code: u8) -> i64
    ensures value { result ≡ spec.piece_tallness fonts.now font code }
    ensures bound { unsigned_abs result ≤ 2 ^ 32 }
{
    if code == 0 {
        0
    } else {
        tallness(fonts, font, code)
    }
}

/// How tall all of these are, in sp.
#[tactic(auto, unfolding(crate::specs::Stacking::least_tallness))]
fn least_tallness(fonts: &Fonts, font: u8, recipe: Word) -> i64
    ensures value { result ≡ spec.least_tallness fonts.now font recipe }
    ensures bound { unsigned_abs result ≤ 2 ^ 34 }
{
    let bottom = piece_tallness(fonts, font, recipe.c);
    let middle = piece_tallness(fonts, font, recipe.b);
    let top = piece_tallness(fonts, font, recipe.a);
    bottom + middle + top
}

/// How much taller the stack is with one repetition more, in sp.
#[tactic(auto, unfolding(crate::specs::Stacking::step_tallness))]
fn step_tallness(fonts: &Fonts, font: u8, recipe: Word) -> i64
    ensures value { result ≡ spec.step_tallness fonts.now font recipe }
    ensures bound { unsigned_abs result ≤ 2 ^ 33 }
{
    let piece = tallness(fonts, font, recipe.d);
    if recipe.b == 0 { piece } else { piece + piece }
}

/// The least number of steps of this size that make up so much.
#[tactic(auto, using(crate::proofs::Steps::steps_small, crate::proofs::Steps::few_steps))]
fn rounded_up(lacking: u64, step: u64) -> u64
    requires some { 1 ≤ step }
    requires step_in { step ≤ 2 ^ 33 }
    requires lacking_in { lacking ≤ 2 ^ 60 }
    ensures value { result ≡ (lacking + step - 1) / step }
    ensures count { result ≤ 2 ^ 61 }
    ensures size { result * step ≤ 2 ^ 61 }
{
    (lacking + step - 1) / step
}

/// The same of sizes with signs, in sp; no step where nothing is lacking or a step is nothing.
#[tactic(auto, unfolding(crate::specs::Stacking::least_steps))]
fn least_steps(step: i64, lacking: i64) -> u64
    requires step_in { unsigned_abs step ≤ 2 ^ 33 }
    requires lacking_in { unsigned_abs lacking ≤ 2 ^ 60 }
    ensures value { result ≡ spec.least_steps step lacking }
    ensures count { result ≤ 2 ^ 61 }
    ensures size { result * unsigned_abs step ≤ 2 ^ 61 }
{
    if 0 < step && 0 < lacking {
        rounded_up(lacking.unsigned_abs(), step.unsigned_abs())
    } else {
        0
    }
}

/// How much the pieces that aren't repeated lack of what is asked, in sp.
fn lacking_of(fonts: &Fonts, font: u8, recipe: Word, asked: i64) -> i64
    requires { unsigned_abs asked ≤ 2 ^ 59 }
    ensures value { result ≡ asked -ℤ spec.least_tallness fonts.now font recipe }
    ensures bound { unsigned_abs result ≤ 2 ^ 60 }
{
    asked - least_tallness(fonts, font, recipe)
}

/// How often the repeated piece stands on each side, so that the stack is as tall as is asked, in sp.
pub(crate) fn repeats_of(fonts: &Fonts, font: u8, recipe: Word, asked: i64) -> u64
    requires { unsigned_abs asked ≤ 2 ^ 59 }
    ensures value { result ≡ spec.repeats fonts.now font recipe asked }
    ensures count { result ≤ 2 ^ 61 }
    ensures size { result * unsigned_abs (spec.step_tallness fonts.now font recipe) ≤ 2 ^ 61 }
{
    let step = step_tallness(fonts, font, recipe);
    let lacking = lacking_of(fonts, font, recipe, asked);
    least_steps(step, lacking)
}

/// A product of two numbers.
fn product(a: i64, b: i64) -> i128
    ensures value { result ≡ a *ℤ b }
    ensures size { unsigned_abs result ≡ unsigned_abs a * unsigned_abs b }
{
    i128::from(a) * i128::from(b)
}

/// How tall so many steps of this size are, in sp.
fn steps_tall(count: u64, step: i64) -> i64
    requires count_in { count ≤ 2 ^ 61 }
    requires size_in { count * unsigned_abs step ≤ 2 ^ 61 }
    ensures value { result ≡ pos count *ℤ step }
    ensures bound { unsigned_abs result ≤ 2 ^ 61 }
{
    product(count as i64, step) as i64
}

/// How tall the stack is with so many repetitions on each side, in sp.
#[tactic(auto, unfolding(crate::specs::Stacking::stack_tallness))]
fn stack_tallness(fonts: &Fonts, font: u8, recipe: Word, repeats: u64) -> i64
    requires count { repeats ≤ 2 ^ 61 }
    requires size { repeats * unsigned_abs (spec.step_tallness fonts.now font recipe) ≤ 2 ^ 61 }
    ensures value { result ≡ spec.stack_tallness fonts.now font recipe repeats }
    ensures bound { unsigned_abs result ≤ 2 ^ 62 }
{
    let step = step_tallness(fonts, font, recipe);
    least_tallness(fonts, font, recipe) + steps_tall(repeats, step)
}

/// The uppermost piece of the stack.
fn uppermost(recipe: Word, repeats: u64) -> Option<u8>
    ensures { result ≡ spec.uppermost recipe repeats }
{
    if 0 < recipe.a {
        Some(recipe.a)
    } else if 0 < repeats {
        Some(recipe.d)
    } else if 0 < recipe.b {
        Some(recipe.b)
    } else if 0 < recipe.c {
        Some(recipe.c)
    } else {
        None
    }
}

/// How high the stack is, in sp.
pub(crate) fn stack_height(fonts: &Fonts, font: u8, recipe: Word, repeats: u64) -> i64
    ensures value { result ≡ spec.stack_height fonts.now font recipe repeats }
    ensures bound { unsigned_abs result ≤ 2 ^ 31 }
{
    match uppermost(recipe, repeats) {
        Some(code) => fonts.height(font, code),
        None => 0,
    }
}

/// How deep it is, in sp.
#[tactic(auto, unfolding(crate::specs::Stacking::stack_depth))]
pub(crate) fn stack_depth(fonts: &Fonts, font: u8, recipe: Word, repeats: u64) -> i64
    requires count { repeats ≤ 2 ^ 61 }
    requires size { repeats * unsigned_abs (spec.step_tallness fonts.now font recipe) ≤ 2 ^ 61 }
    ensures { result ≡ spec.stack_depth fonts.now font recipe repeats }
{
    stack_tallness(fonts, font, recipe, repeats) - stack_height(fonts, font, recipe, repeats)
}
