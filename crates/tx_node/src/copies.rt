//! Where the copies stand that leaders make of a box (TeX: The Program, sections 626, 627, 635 and 636).
ghost use Rattle.std.specs.Prelude.{◌≡◌, ◌<◌, ◌≤◌, ◌+◌, ◌/◌, ◌%◌, ◌^◌, unsigned_abs};
ghost use Rattle.tx_node.specs.Copies as spec;
ghost use Rattle.tx_node.specs.Sizes.{box_advance};

use crate::head::Direction;
use crate::node::BoxLeaders;
use crate::places::Copies;
use crate::plain::LeadersKind;

/// How far it is from there to the next whole multiple of a length.
fn ahead(from: i128, length: u128) -> u128
    requires { 0 < length }
    ensures value { result ≡ spec.ahead from length }
    ensures bound { result < length }
{
    let past = from.unsigned_abs() % length;
    if from < 0 {
        past
    } else {
        (length - past) % length
    }
}

/// The copies of \leaders, of which the first is so far ahead.
fn aligned(before: u128, room: u128, length: u128) -> Copies
    requires { 0 < length }
    ensures { result ≡ spec.aligned before room length }
{
    Copies {
        before,
        step: length,
        count: room.saturating_sub(before) / length,
    }
}

/// The copies of \cleaders.
fn centered(room: u128, length: u128) -> Copies
    requires { 0 < length }
    ensures value { result ≡ spec.centered room length }
    ensures before { result.before ≤ length }
    ensures step { result.step ≤ length }
{
    Copies {
        before: (room % length) / 2,
        step: length,
        count: fitting(room, length),
    }
}

/// Each of the gaps that so many copies leave between them and at both ends, by what they leave in all.
#[tactic(auto, using(crate::proofs::Counting::quotient_least))]
fn gap_of(left: u128, count: u128) -> u128
    requires { count < 2 ^ 127 }
    ensures value { result ≡ left / (count + 1) }
    ensures bound { result ≤ left }
{
    left / (count + 1)
}

/// Half of what remains beside these gaps.
#[tactic(auto, using(crate::proofs::Counting::half_least))]
fn half_beside(left: u128, count: u128) -> u128
    requires { count < 2 ^ 127 }
    ensures value { result ≡ (left % (count + 1)) / 2 }
    ensures bound { result ≤ left }
{
    (left % (count + 1)) / 2
}

/// How many boxes of this length fit side by side.
#[tactic(auto, using(crate::proofs::Counting::quotient_least))]
fn fitting(room: u128, length: u128) -> u128
    requires { 0 < length }
    ensures value { result ≡ room / length }
    ensures bound { result ≤ room }
{
    room / length
}

/// The copies of \xleaders.
fn expanded(room: u128, length: u128) -> Copies
    requires least { 0 < length }
    requires length { length ≤ 2 ^ 33 }
    requires room { room ≤ 2 ^ 101 }
    ensures value { result ≡ spec.expanded room length }
    ensures before { result.before ≤ 2 ^ 34 }
    ensures step { result.step ≤ 2 ^ 34 }
{
    let count = fitting(room, length);
    let left = room % length;
    let gap = gap_of(left, count);
    Copies {
        before: gap + half_beside(left, count),
        step: length + gap,
        count,
    }
}

/// The copies by how they are spread; the next whole multiple of their length is so far ahead.
fn copies_by(kind: LeadersKind, before: u128, room: u128, length: u128) -> Copies
    requires least { 0 < length }
    requires length { length ≤ 2 ^ 33 }
    requires before { before ≤ 2 ^ 33 }
    requires room { room ≤ 2 ^ 101 }
    ensures value { result ≡ spec.copies_by kind before room length }
    ensures before { result.before ≤ 2 ^ 34 }
    ensures step { result.step ≤ 2 ^ 34 }
{
    match kind {
        LeadersKind::Aligned => aligned(before, room, length),
        LeadersKind::Centered => centered(room, length),
        LeadersKind::Expanded => expanded(room, length),
    }
}

/// The copies of a box of this length, in sp, that leaders make which begin so far from the edge of the box around, and reach so far.
#[tactic(auto, unfolding(crate::specs::Copies::copies_of))]
fn copies_of(kind: LeadersKind, from: i128, size: i128, length: i64) -> Copies
    requires size { unsigned_abs size ≤ 2 ^ 101 }
    requires length { unsigned_abs length ≤ 2 ^ 33 }
    ensures value { result ≡ spec.copies_of kind from size length }
    ensures before { result.before ≤ 2 ^ 34 }
    ensures step { result.step ≤ 2 ^ 34 }
{
    if 0 < size && 0 < length {
        let length = u128::from(length.unsigned_abs());
        let before = ahead(from, length);
        copies_by(kind, before, size.unsigned_abs(), length)
    } else {
        Copies {
            before: 0,
            step: 0,
            count: 0,
        }
    }
}

impl BoxLeaders {
    /// The copies that the leaders make of their box in a list of this direction, where they begin so far from the edge of the box
    /// around and reach so far, in sp, once glue is set.
    pub fn copies(&self, direction: Direction, from: i128, size: i128) -> Copies
        requires { unsigned_abs size ≤ 2 ^ 101 }
        ensures value { result ≡ spec.copies_of self.now.head.kind from size (box_advance direction self.now.inner.head) }
        ensures before { result.before ≤ 2 ^ 34 }
        ensures step { result.step ≤ 2 ^ 34 }
    {
        copies_of(
            self.head.kind,
            from,
            size,
            self.inner.head().advance(direction),
        )
    }
}
