//! A pass over a list.
ghost use Rattle.std.specs.Prelude.{◌≡◌, ◌<◌, ◌≤◌, ◌^◌, ◌-ℤ◌, ◌||◌, ◌&&◌, is_some, length, unsigned_abs, IfSome};
ghost use Rattle.tx_linebreak.specs.Breaks.{discretionary_at, is_forced, past_discardables, start_of};
ghost use Rattle.tx_linebreak.specs.Chains.{is_last_pass, is_overfull, is_tolerable, line_set, tolerance_of};
ghost use Rattle.tx_linebreak.specs.Lines.{begin_width, begins_hyphened, demerits_of, end_width, first_place, is_last, line_fit};
ghost use Rattle.tx_linebreak.specs.Sums.{AreStarts};
ghost use Rattle.tx_linebreak.specs.Tasks.{IsTask, attempt_of};
ghost use Rattle.tx_linebreak.specs.Totals.{IsWithin};
ghost use Rattle.tx_linebreak.specs.Trials.{IsStart, totals_until};

use crate::demerits::{are_apart, line_demerits};
use crate::fit::{fit, line_width};
use crate::line::{Fit, Line};
use crate::params::{BreakParams, LineShape, Pass};
use crate::piece::{Class, Discretionary, Piece};
use crate::totals::Totals;
use crate::trial::{Start, Trial};
use tx_num::Scaled;

/// A pass over a list: its pieces, the totals before each of its places, where lines start, the shapes of lines, the parameters,
/// and what stands in each line.
#[derive(Clone, Copy)]
pub(crate) struct Task<'a> {
    pub pieces: &'a [Piece],
    pub sums: &'a [Totals],
    pub starts: &'a [usize],
    pub shape: &'a [LineShape],
    pub params: &'a BreakParams,
    pub pass: Pass,
    pub background: Totals,
}

/// The first place, from this one on, whose piece doesn't vanish behind a break.
fn past_discardables(pieces: &[Piece], starts: &[usize], place: usize) -> usize
    requires { AreStarts starts.now pieces.now }
    ensures { result ≡ past_discardables pieces.now place }
{
    if place > pieces.len() {
        return place;
    }
    starts[place]
}

/// The discretionary at a place, if there is one.
pub fn discretionary_at(pieces: &[Piece], place: usize) -> Option<Discretionary>
    ensures { result ≡ discretionary_at pieces.now place }
{
    match pieces.get(place) {
        None => None,
        Some(piece) => piece.discretionary(),
    }
}

/// The first place of the line behind a break.
#[tactic(auto, unfolding(crate::specs::Breaks::start_of))]
fn start(pieces: &[Piece], starts: &[usize], place: usize) -> usize
    requires starts { AreStarts starts.now pieces.now }
    requires place { place < length pieces.now }
    ensures { result ≡ start_of pieces.now place }
{
    match discretionary_at(pieces, place) {
        None => past_discardables(pieces, starts, place + 1),
        Some(d) => {
            let behind = place + 1 + d.replaced as usize;
            match d.behind {
                None => past_discardables(pieces, starts, behind),
                Some(_) => behind,
            }
        }
    }
}

/// The place of a line's first piece.
fn first_place(pieces: &[Piece], starts: &[usize], from: Option<usize>) -> usize
    requires starts { AreStarts starts.now pieces.now }
    requires from { IfSome from (λ place. place < length pieces.now) }
    ensures { result ≡ first_place pieces.now from }
{
    match from {
        None => 0,
        Some(place) => start(pieces, starts, place),
    }
}

/// The width of the text that a break at a place puts at the end of its line.
fn end_width(pieces: &[Piece], place: usize) -> Scaled
    ensures { result ≡ end_width pieces.now place }
{
    match discretionary_at(pieces, place) {
        None => 0,
        Some(d) => d.before.unwrap_or(0),
    }
}

/// The width of the text that stands at a line's beginning behind a discretionary.
fn begin_width(pieces: &[Piece], from: Option<usize>) -> Scaled
    ensures { result ≡ begin_width pieces.now from }
{
    match from {
        None => 0,
        Some(place) => match discretionary_at(pieces, place) {
            None => 0,
            Some(d) => d.behind.unwrap_or(0),
        },
    }
}

/// Whether a line begins behind a discretionary.
fn begins_hyphened(pieces: &[Piece], from: Option<usize>) -> bool
    ensures { result ≡ begins_hyphened pieces.now from }
{
    match from {
        None => false,
        Some(place) => discretionary_at(pieces, place).is_some(),
    }
}

/// How wide the rest of a line of this width is that begins with a text.
fn rest(width: Scaled, begin: Scaled) -> i128
    ensures value { result ≡ width -ℤ begin }
    ensures small { unsigned_abs result ≤ 2 ^ 65 }
{
    i128::from(width) - i128::from(begin)
}

/// Whether a place is the last one.
fn is_last(pieces: &[Piece], place: usize) -> bool
    requires { place < length pieces.now }
    ensures { result ≡ is_last pieces.now place }
{
    place + 1 == pieces.len()
}

/// Whether a candidate dies at a break with this penalty, given how its line to it fits.
pub(crate) fn dies(penalty: i32, fit: Fit) -> bool
    ensures { result ≡ (is_forced penalty || is_overfull fit) }
{
    if penalty <= -10_000 {
        return true;
    }
    match fit {
        Fit::Overfull => true,
        Fit::Set { .. } => false,
    }
}

/// Whether a line that fits so may be taken where this is the worst badness that it may have.
pub(crate) fn is_tolerable(tolerance: i32, fit: Fit) -> bool
    ensures { result ≡ is_tolerable tolerance fit }
{
    match fit {
        Fit::Overfull => false,
        Fit::Set { badness, .. } => i64::from(badness) <= i64::from(tolerance),
    }
}

impl Task<'_> {
    /// Where the line behind a break at a place, or at the list's beginning, begins, with so many lines before it.
    pub fn start(&self, from: Option<usize>, lines: usize) -> Start
        requires task { IsTask self.now }
        requires from { IfSome from (λ place. place < length self.now.pieces.now) }
        ensures { IsStart (attempt_of self.now) from lines result }
    {
        let width = line_width(self.shape, lines);
        let begin = begin_width(self.pieces, from);
        Start {
            first: first_place(self.pieces, self.starts, from),
            goal: rest(width, begin),
            hyphened: begins_hyphened(self.pieces, from),
        }
    }

    /// What the pieces before a place have, with what the pass adds to each line and the text at the line's end.
    pub fn totals_until(&self, place: usize) -> Totals
        requires task { IsTask self.now }
        requires place { place < length self.now.pieces.now }
        ensures value { result ≡ totals_until (attempt_of self.now) place }
        ensures small { IsWithin (2 ^ 97) result }
    {
        let end = Totals::text(end_width(self.pieces, place));
        let before = self.sums[place];
        self.background.plus(&end).plus(&before)
    }

    /// How the line that is tried fits to a place, given what stands until it.
    pub fn line_fit(&self, trial: &Trial, until: &Totals, place: usize) -> Fit
        requires task { IsTask self.now }
        requires place { place < length self.now.pieces.now }
        requires start { IsStart (attempt_of self.now) trial.now.from.place trial.now.from.lines trial.now.start }
        requires until { until.now ≡ totals_until (attempt_of self.now) place }
        requires small { IsWithin (2 ^ 97) until.now }
        ensures { result ≡ line_fit (attempt_of self.now) trial.now.from place }
    {
        let first = trial.start.first.min(place);
        let before = self.sums[first];
        fit(trial.start.goal, &until.minus(&before))
    }

    /// Whether the line that is tried begins behind a discretionary and ends at one.
    fn is_double(&self, trial: &Trial, place: usize) -> bool
        requires start { IsStart (attempt_of self.now) trial.now.from.place trial.now.from.lines trial.now.start }
        ensures { result ≡ (begins_hyphened self.now.pieces.now trial.now.from.place && is_some (discretionary_at self.now.pieces.now place)) }
    {
        trial.start.hyphened && discretionary_at(self.pieces, place).is_some()
    }

    /// Whether the line that is tried begins behind a discretionary and is the last one.
    fn is_behind_hyphen(&self, trial: &Trial, place: usize) -> bool
        requires place { place < length self.now.pieces.now }
        requires start { IsStart (attempt_of self.now) trial.now.from.place trial.now.from.lines trial.now.start }
        ensures { result ≡ (begins_hyphened self.now.pieces.now trial.now.from.place && is_last self.now.pieces.now place) }
    {
        trial.start.hyphened && is_last(self.pieces, place)
    }

    /// The demerits of the line that is tried to a break, of this badness and class.
    #[tactic(auto, unfolding(crate::specs::Lines::demerits_of))]
    fn demerits(
        &self,
        trial: &Trial,
        place: usize,
        penalty: i32,
        badness: u32,
        class: Class,
    ) -> i128
        requires place { place < length self.now.pieces.now }
        requires start { IsStart (attempt_of self.now) trial.now.from.place trial.now.from.lines trial.now.start }
        ensures value { result ≡ demerits_of (attempt_of self.now) trial.now.from place penalty badness class }
        ensures small { unsigned_abs result ≤ 2 ^ 63 }
    {
        let apart = are_apart(class, trial.from.class);
        let double = self.is_double(trial, place);
        let last = self.is_behind_hyphen(trial, place);
        line_demerits(self.params, penalty, badness, apart, double, last)
    }

    /// The line that is tried, to a break.
    pub fn line_set(&self, trial: &Trial, place: usize, penalty: i32) -> Line
        requires place { place < length self.now.pieces.now }
        requires start { IsStart (attempt_of self.now) trial.now.from.place trial.now.from.lines trial.now.start }
        requires lines { trial.now.from.lines < 2 ^ 63 }
        ensures value { result ≡ line_set (attempt_of self.now) trial.now.from place penalty trial.now.fit }
        ensures small { unsigned_abs result.demerits ≤ 2 ^ 63 }
    {
        let number = trial.from.lines + 1;
        match trial.fit {
            Fit::Overfull => Line {
                place,
                number,
                class: Class::Tight,
                demerits: 0,
                forced: true,
            },
            Fit::Set { badness, class } => Line {
                place,
                number,
                class,
                demerits: self.demerits(trial, place, penalty, badness, class),
                forced: false,
            },
        }
    }

    /// The worst badness that a line may have.
    pub fn tolerance(&self) -> i32
        ensures { result ≡ tolerance_of self.now.params.now self.now.pass }
    {
        match self.pass {
            Pass::First => self.params.pretolerance,
            Pass::Second => self.params.tolerance,
            Pass::Emergency => self.params.tolerance,
        }
    }

    /// Whether no further pass is made after this one.
    pub fn is_last(&self) -> bool
        ensures { result ≡ is_last_pass self.now.params.now self.now.pass }
    {
        match self.pass {
            Pass::First => false,
            Pass::Second => self.params.emergency_stretch <= 0,
            Pass::Emergency => true,
        }
    }
}
