//! How bad a box is, and what is said of it.
ghost use Rattle.std.specs.Prelude.{◌≡◌, ◌<◌, ◌^◌, ◌≤ℤ◌, ◌-ℤ◌, neg_ℤ, pos, unsigned_abs, IfSome};
ghost use Rattle.tx_num.specs.Glue.{IsDimension};
ghost use Rattle.tx_pack.specs.Verdicts as spec;
ghost use Rattle.tx_pack.specs.Sums.{IsSmall};

use crate::stretching::{Most, highest, is_overfull};
use crate::sums::Sums;
use crate::types::PackParams;
use tx_node::{Direction, Nodes};
use tx_num::badness;

/// What the transcript says of a box: that it is too long by so many sp, or how bad it is.
#[derive(Clone, Copy)]
pub enum Told {
    Nothing,
    Overfull(i64),
    Underfull(u32),
    Loose(u32),
    Tight(u32),
}

/// How bad a box is, and what is said of it.
#[derive(Clone, Copy)]
pub struct Verdict {
    pub badness: u32,
    pub told: Told,
}

/// What \badness is after an overfull box.
const OVERFULL: u32 = 1_000_000;

fn good() -> Verdict
    ensures { result ≡ spec.good }
{
    Verdict {
        badness: 0,
        told: Told::Nothing,
    }
}

/// What is said of a list that stretches by glue of normal order.
fn stretched_told(params: &PackParams, badness: u32) -> Told
    ensures { result ≡ spec.stretched_told params.now badness }
{
    if params.badness >= i64::from(badness) {
        return Told::Nothing;
    }
    if badness > 100 {
        Told::Underfull(badness)
    } else {
        Told::Loose(badness)
    }
}

/// What is said of a list that is too long by so much, when all its shrink is used up.
fn overfull_told(params: &PackParams, surplus: i64) -> Told
    ensures { result ≡ spec.overfull_told params.now surplus }
{
    if params.fuzz < surplus || params.badness < 100 {
        Told::Overfull(surplus)
    } else {
        Told::Nothing
    }
}

/// What is said of a list that shrinks by glue of normal order.
fn shrunk_told(params: &PackParams, badness: u32) -> Told
    ensures { result ≡ spec.shrunk_told params.now badness }
{
    if params.badness < i64::from(badness) {
        Told::Tight(badness)
    } else {
        Told::Nothing
    }
}

/// Of a list that stretches.
fn verdict_stretched(params: &PackParams, most: Most, excess: i64) -> Verdict
    requires { pos 0 ≤ℤ excess }
    ensures { result ≡ spec.verdict_stretched params.now most excess }
{
    if most.order != 0 {
        return good();
    }
    let badness = badness(excess, most.total);
    Verdict {
        badness,
        told: stretched_told(params, badness),
    }
}

/// By how many sp a list is too long when all its shrink is used up.
fn surplus_past(most: Most, excess: i64) -> i64
    requires total { IsDimension most.total }
    requires excess { unsigned_abs excess < 2 ^ 31 }
    ensures { result ≡ neg_ℤ excess -ℤ most.total }
{
    -excess - most.total
}

/// By how many sp a list has to shrink.
fn negated(excess: i64) -> i64
    requires negative { excess ≤ℤ pos 0 }
    requires excess { unsigned_abs excess < 2 ^ 31 }
    ensures value { result ≡ neg_ℤ excess }
    ensures sign { pos 0 ≤ℤ result }
{
    -excess
}

/// Of a list that is too long when all its shrink is used up.
fn overfull(params: &PackParams, surplus: i64) -> Verdict
    ensures { result ≡ spec.overfull params.now surplus }
{
    Verdict {
        badness: OVERFULL,
        told: overfull_told(params, surplus),
    }
}

/// Of a list that shrinks by glue of normal order.
fn shrunk(params: &PackParams, badness: u32) -> Verdict
    ensures { result ≡ spec.shrunk params.now badness }
{
    Verdict {
        badness,
        told: shrunk_told(params, badness),
    }
}

/// Of a list that shrinks.
fn verdict_shrunk(params: &PackParams, most: Most, excess: i64) -> Verdict
    requires negative { excess ≤ℤ pos 0 }
    requires total { IsDimension most.total }
    requires excess { unsigned_abs excess < 2 ^ 31 }
    ensures { result ≡ spec.verdict_shrunk params.now most excess }
{
    if is_overfull(most, excess) {
        overfull(params, surplus_past(most, excess))
    } else if most.order == 0 {
        shrunk(params, badness(negated(excess), most.total))
    } else {
        good()
    }
}

/// Of a list with these sums that isn't empty and has to grow by so much, in sp.
fn verdict_set(params: &PackParams, sums: &Sums, excess: i64) -> Verdict
    requires small { IsSmall sums.now }
    requires excess { unsigned_abs excess < 2 ^ 31 }
    ensures { result ≡ spec.verdict_set params.now sums.now excess }
{
    if 0 < excess {
        verdict_stretched(params, highest(&sums.stretch), excess)
    } else if excess < 0 {
        verdict_shrunk(params, highest(&sums.shrink), excess)
    } else {
        good()
    }
}

/// Of a list with these sums that has to grow by so much, in sp; only a list that isn't empty is bad.
pub fn verdict_of(params: &PackParams, list: &Nodes, sums: &Sums, excess: i64) -> Verdict
    requires small { IsSmall sums.now }
    requires excess { unsigned_abs excess < 2 ^ 31 }
    ensures { result ≡ spec.verdict_of params.now list.now sums.now excess }
{
    if list.len() == 0 {
        good()
    } else {
        verdict_set(params, sums, excess)
    }
}

/// By how many sp a box is said to be overfull.
fn surplus_of(told: Told) -> Option<i64>
    ensures { result ≡ spec.surplus_of told }
{
    match told {
        Told::Overfull(surplus) => Some(surplus),
        Told::Nothing | Told::Underfull(_) | Told::Loose(_) | Told::Tight(_) => None,
    }
}

fn rule_past(params: &PackParams, surplus: Option<i64>) -> Option<i64>
    requires { IsDimension params.now.overfull_rule }
    ensures value { result ≡ spec.rule_past params.now surplus }
    ensures dimension { IfSome result IsDimension }
{
    let Some(surplus) = surplus else {
        return None;
    };
    if params.fuzz < surplus && 0 < params.overfull_rule {
        Some(params.overfull_rule)
    } else {
        None
    }
}

/// The width in sp of the rule that ends the list of an overfull hbox, if there is one.
pub fn end_rule(direction: Direction, params: &PackParams, told: Told) -> Option<i64>
    requires { IsDimension params.now.overfull_rule }
    ensures value { result ≡ spec.end_rule direction params.now told }
    ensures dimension { IfSome result IsDimension }
{
    match direction {
        Direction::Horizontal => rule_past(params, surplus_of(told)),
        Direction::Vertical => None,
    }
}
