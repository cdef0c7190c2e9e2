//! Where a line begins.
ghost use Rattle.std.specs.Prelude.{◌≡◌, ◌≤◌, ◌+◌, suc, length, min};
ghost use Rattle.tx_linebreak.specs.Breaks as breaks;
ghost use Rattle.tx_linebreak.specs.Lines.{first_place};

use tx_linebreak::{Discretionary, Piece, discretionary_at};

/// The first place from this one on whose piece doesn't vanish behind a break, but no further than the next break.
fn past_discardables(pieces: &[Piece], place: usize, end: usize) -> usize
    requires within { end ≤ length pieces.now }
    requires before { place ≤ end }
    ensures { result ≡ min (breaks.past_discardables pieces.now place) end }
{
    for at in place..end {
        if !pieces[at].is_discardable() {
            return at;
        }
    }
    end
}

/// The first place behind a discretionary, no further than the next break.
fn past_discretionary(pieces: &[Piece], place: usize, end: usize, broken: &Discretionary) -> usize
    requires within { end ≤ length pieces.now }
    requires before { suc place ≤ end }
    ensures { result ≡ min (breaks.start_behind pieces.now (suc place + broken.now.replaced) broken.now.behind) end }
{
    let begin = place + 1 + (broken.replaced as usize).min(end - place - 1);
    match broken.behind {
        Some(_) => begin,
        None => past_discardables(pieces, begin, end),
    }
}

/// The first place of the line behind a break, no further than the next break.
fn start_of(pieces: &[Piece], place: usize, end: usize) -> usize
    requires within { end ≤ length pieces.now }
    ensures { result ≡ min (breaks.start_of pieces.now place) end }
{
    if place >= end {
        return end;
    }
    match discretionary_at(pieces, place) {
        Some(broken) => past_discretionary(pieces, place, end, &broken),
        None => past_discardables(pieces, place + 1, end),
    }
}

/// The first place of the line from a break, or from the list's beginning, no further than the next break.
pub(crate) fn first_place(pieces: &[Piece], from: Option<usize>, end: usize) -> usize
    requires within { end ≤ length pieces.now }
    ensures { result ≡ min (first_place pieces.now from) end }
{
    match from {
        Some(place) => start_of(pieces, place, end),
        None => 0,
    }
}
