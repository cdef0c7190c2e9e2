//! What a break costs.
ghost use Rattle.std.specs.Prelude.{◌≡◌, ◌⊎◌, ◌≤◌, ◌≤ℤ◌, ◌+ℤ◌, ◌-ℤ◌, pos, IfSome};
ghost use Rattle.tx_num.specs.Glue.{IsDimension};
ghost use Rattle.tx_insert.specs.Costs as spec;
ghost use Rattle.tx_insert.specs.Breaks.{better, no_break};
ghost use Rattle.tx_insert.specs.Sums.{IsSmall};

use crate::sums::{Sums, plus, reach};
use tx_num::{Scaled, badness};

/// A break of a list: the index of its item, the list's length for its end; how high and deep what stands before it is together, in
/// sp; and its cost.
#[derive(Clone, Copy, PartialEq, Eq)]
pub struct Break {
    pub place: usize,
    pub size: Scaled,
    pub cost: i64,
}

/// A break that is tried, and whether nothing behind it is tried.
#[derive(Clone, Copy)]
pub struct Trial {
    pub made: Break,
    pub stops: bool,
}

/// The cost of a break at which the list is overfull.
const AWFUL: i64 = 1_073_741_823;

/// The cost of a break with badness 10000.
const DEPLORABLE: i64 = 100_000;

fn has_infinite(sums: &Sums) -> bool
    ensures { result ≡ spec.has_infinite sums.now }
{
    sums.fil != 0 || (sums.fill != 0 || sums.filll != 0)
}

/// How bad it is to stretch a list by so much, in sp.
fn stretched(excess: i64, sums: &Sums) -> u32
    requires { pos 0 ≤ℤ excess }
    ensures value { result ≡ spec.stretched excess sums.now }
    ensures bound { result ≤ 10000 }
{
    if has_infinite(sums) {
        0
    } else {
        badness(excess, sums.normal)
    }
}

/// How bad it is to shrink a list by so much, in sp; None where it has no such shrink.
fn shrunk(surplus: i64, sums: &Sums) -> Option<u32>
    requires { pos 0 ≤ℤ surplus }
    ensures value { result ≡ spec.shrunk surplus sums.now }
    ensures bound { IfSome result (λ b. b ≤ 10000) }
{
    if sums.shrink < surplus {
        None
    } else {
        Some(badness(surplus, sums.shrink))
    }
}

/// One dimension less another that isn't greater, in sp.
fn less(size: i64, other: i64) -> i64
    requires size { IsDimension size }
    requires other { IsDimension other }
    requires order { other ≤ℤ size }
    ensures value { result ≡ size -ℤ other }
    ensures sign { pos 0 ≤ℤ result }
{
    size - other
}

/// How bad it is to set a list with these sums to a height of `goal` sp: 0 to 10000, None where it is overfull.
pub fn badness_at(goal: Scaled, sums: &Sums) -> Option<u32>
    requires goal { IsDimension goal }
    requires sums { IsSmall sums.now }
    ensures value { result ≡ spec.badness_at goal sums.now }
    ensures bound { IfSome result (λ b. b ≤ 10000) }
{
    if sums.height < goal {
        Some(stretched(less(goal, sums.height), sums))
    } else {
        shrunk(less(sums.height, goal), sums)
    }
}

/// Whether a break of this penalty is forced.
fn is_forced(penalty: i32) -> bool
    ensures { result ≡ spec.is_forced penalty }
{
    penalty <= -10_000
}

/// Whether a break costs more than all that may be chosen: the list is overfull, or \insertpenalties forbid it.
fn is_awful(inserts: i32, badness: Option<u32>) -> bool
    ensures { result ≡ spec.is_awful inserts badness }
{
    badness.is_none() || inserts >= 10_000
}

/// Badness and penalties together.
fn added(badness: u32, penalty: i32, inserts: i32) -> i64
    ensures { result ≡ pos badness +ℤ penalty +ℤ inserts }
{
    plus(
        plus(i64::from(badness), i64::from(penalty)),
        i64::from(inserts),
    )
}

/// The cost of a break that isn't awful.
fn cost_with(penalty: i32, inserts: i32, badness: u32) -> i64
    requires { badness ≤ 10000 }
    ensures { result ≡ spec.cost_with penalty inserts badness }
{
    if is_forced(penalty) {
        i64::from(penalty)
    } else if badness < 10_000 {
        added(badness, penalty, inserts)
    } else {
        DEPLORABLE
    }
}

/// The cost of a break by its penalty, \insertpenalties and badness, which is None where the list is overfull.
fn cost_of(penalty: i32, inserts: i32, badness: Option<u32>) -> i64
    requires { IfSome badness (λ b. b ≤ 10000) }
    ensures { result ≡ spec.cost_of penalty inserts badness }
{
    if is_awful(inserts, badness) {
        AWFUL
    } else {
        cost_with(penalty, inserts, badness.unwrap_or(0))
    }
}

/// The break at a place, of this size in sp, by its penalty, \insertpenalties, which are 0 but on a page, and its badness, which
/// is None where the list is overfull.
pub fn trial_of(
    place: usize,
    size: Scaled,
    penalty: i32,
    inserts: i32,
    badness: Option<u32>,
) -> Trial
    requires { IfSome badness (λ b. b ≤ 10000) }
    ensures { result ≡ spec.trial_of place size penalty inserts badness }
{
    Trial {
        made: Break {
            place,
            size,
            cost: cost_of(penalty, inserts, badness),
        },
        stops: is_awful(inserts, badness) || is_forced(penalty),
    }
}

/// The break at a place of a list with this penalty, before which these sums stand, for a height of `goal` sp.
pub fn trial_at(goal: Scaled, place: usize, penalty: i32, sums: &Sums) -> Trial
    requires goal { IsDimension goal }
    requires sums { IsSmall sums.now }
    ensures value { result ≡ spec.trial_at goal place penalty sums.now }
    ensures place { result.made.place ≡ place }
{
    trial_of(place, reach(sums), penalty, 0, badness_at(goal, sums))
}

/// What any break is better than.
pub fn no_break() -> Break
    ensures { result ≡ no_break }
{
    Break {
        place: 0,
        size: 0,
        cost: AWFUL,
    }
}

/// The later of two breaks, unless it costs more.
pub fn better(best: Break, later: Break) -> Break
    ensures value { result ≡ better best later }
    ensures place { (result.place ≡ best.place) ⊎ (result.place ≡ later.place) }
{
    if later.cost <= best.cost { later } else { best }
}
