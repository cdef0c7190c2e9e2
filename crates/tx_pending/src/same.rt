//! Whether two stacks stand for the same elements, however these are cut into lists. Both are walked along side by side.
ghost use Rattle.std.specs.Prelude.{◌≡◌, ◌↔◌, ◌<◌, drop, length, slice_get, IsTrue};
ghost use Rattle.tx_pending.specs.Sources.{IsPosition, IsSettled, ahead, stack_elements};

use crate::source::Source;

/// A place on a stack: how many of its sources are ahead, and how many elements of the innermost one are passed.
#[derive(Clone, Copy)]
pub struct Position {
    pub sources: usize,
    pub passed: usize,
}

/// Whether both stacks stand for the same elements.
pub(crate) fn same_elements(one: &[Source], other: &[Source]) -> bool
    ensures { IsTrue result ↔ (stack_elements one.now ≡ stack_elements other.now) }
{
    let mut here = front(one);
    let mut there = front(other);
    while here.sources > 0 && there.sources > 0 {
        if !same_at(one, here, other, there) {
            return false;
        }
        here = beyond(one, here);
        there = beyond(other, there);
    }
    here.sources == there.sources
}

/// The place of the first element.
fn front(stack: &[Source]) -> Position
    ensures all { ahead stack.now result ≡ stack_elements stack.now }
    ensures settled { IsSettled stack.now result }
{
    settled(
        stack,
        Position {
            sources: stack.len(),
            passed: 0,
        },
    )
}

/// The place of the next element, at or behind a place.
fn settled(stack: &[Source], place: Position) -> Position
    requires { IsPosition stack.now place }
    ensures same { ahead stack.now result ≡ ahead stack.now place }
    ensures settled { IsSettled stack.now result }
{
    let mut at = place;
    while at.sources > 0 {
        if at.passed < stack[at.sources - 1].count() {
            return at;
        }
        at = Position {
            sources: at.sources - 1,
            passed: 0,
        };
    }
    at
}

/// The place of the element behind the one at this place.
fn beyond(stack: &[Source], place: Position) -> Position
    requires settled { IsSettled stack.now place }
    requires some { 0 < place.sources }
    ensures rest { ahead stack.now result ≡ drop 1 (ahead stack.now place) }
    ensures fewer { length (ahead stack.now result) < length (ahead stack.now place) }
    ensures settled { IsSettled stack.now result }
{
    let last = stack[place.sources - 1].count() - 1;
    if place.passed < last {
        return Position {
            sources: place.sources,
            passed: place.passed + 1,
        };
    }
    settled(
        stack,
        Position {
            sources: place.sources - 1,
            passed: 0,
        },
    )
}

/// Whether the elements at these places are the same.
fn same_at(one: &[Source], here: Position, other: &[Source], there: Position) -> bool
    requires here { IsSettled one.now here }
    requires some_here { 0 < here.sources }
    requires there { IsSettled other.now there }
    requires some_there { 0 < there.sources }
    ensures { IsTrue result ↔ (slice_get (ahead one.now here) 0 ≡ slice_get (ahead other.now there) 0) }
{
    one[here.sources - 1].same_at(here.passed, &other[there.sources - 1], there.passed)
}
