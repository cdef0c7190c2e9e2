//! The lines that are tried at a break, one from each chain that is kept.
ghost use Rattle.std.specs.Prelude.{◌≡◌, ◌<◌, ◌||◌, [], pos, length, filter, not, All, None, Some};
ghost use Rattle.tx_linebreak.specs.Breaks.{is_forced};
ghost use Rattle.std.specs.List.{list_all};
ghost use Rattle.tx_linebreak.specs.Chains.{candidate_of, is_overfull, is_tolerable, tolerance_of};
ghost use Rattle.tx_linebreak.specs.Tasks.{IsTask, attempt_of};
ghost use Rattle.tx_linebreak.specs.Trials.{AreMeasured, IsStart, is_stuck_by};

use crate::attempt::{Task, dies, is_tolerable};
use crate::line::{Candidate, Fit};
use crate::link::Link;
use crate::piece::Class;
use crate::trial::Trial;

impl Task<'_> {
    /// The line behind a chain that is the one of a link.
    pub(crate) fn trial(&self, link: &Link, chain: usize) -> Trial
        requires task { IsTask self.now }
        requires place { link.now.line.place < length self.now.pieces.now }
        ensures chain { result.chain ≡ chain }
        ensures from { result.from ≡ record { place = Some link.now.line.place; lines = link.now.line.number; class = link.now.line.class } }
        ensures total { result.total ≡ link.now.total }
        ensures start { IsStart (attempt_of self.now) result.from.place result.from.lines result.start }
    {
        let lines = link.line.number;
        let place = Some(link.line.place);
        Trial {
            chain,
            from: Candidate {
                place,
                lines,
                class: link.line.class,
            },
            total: link.total,
            start: self.start(place, lines),
            fit: Fit::Overfull,
        }
    }

    /// The line behind the empty chain.
    pub(crate) fn first_trial(&self) -> Trial
        requires task { IsTask self.now }
        ensures chain { result.chain ≡ 0 }
        ensures from { result.from ≡ candidate_of [] }
        ensures total { result.total ≡ pos 0 }
        ensures start { IsStart (attempt_of self.now) None 0 result.start }
    {
        Trial {
            chain: 0,
            from: Candidate {
                place: None,
                lines: 0,
                class: Class::Decent,
            },
            total: 0,
            start: self.start(None, 0),
            fit: Fit::Overfull,
        }
    }

    /// Measures the lines to a break.
    pub(crate) fn measure(&self, trials: &mut [Trial], place: usize)
        requires task { IsTask self.now }
        requires place { place < length self.now.pieces.now }
        requires starts { All (λ trial. IsStart (attempt_of self.now) trial.from.place trial.from.lines trial.start) trials.old }
        ensures { AreMeasured (attempt_of self.now) place trials.old trials.new }
    {
        let until = self.totals_until(place);
        for trial in trials.iter_mut() {
            trial.fit = self.line_fit(trial, &until, place);
        }
    }

    /// Whether none of these lines may be taken.
    fn none_fits(&self, trials: &[Trial]) -> bool
        ensures { result ≡ list_all (λ trial. not (is_tolerable (tolerance_of self.now.params.now self.now.pass) trial.fit)) trials.now }
    {
        let tolerance = self.tolerance();
        trials
            .iter()
            .all(|trial| !is_tolerable(tolerance, trial.fit))
    }

    /// Whether, in the last pass, none of these lines may be taken and all their candidates die.
    pub(crate) fn is_stuck(&self, trials: &[Trial], penalty: i32) -> bool
        ensures { result ≡ is_stuck_by (attempt_of self.now) penalty trials.now }
    {
        self.is_last() && self.none_fits(trials) && all_die(trials, penalty)
    }
}

/// Whether all candidates of these lines die at a break with this penalty.
fn all_die(trials: &[Trial], penalty: i32) -> bool
    ensures { result ≡ list_all (λ trial. is_forced penalty || is_overfull trial.fit) trials.now }
{
    trials.iter().all(|trial| dies(penalty, trial.fit))
}

/// Of lines that are tried, those stay whose candidates don't die at a break with this penalty.
pub(crate) fn keep_living(trials: &mut Vec<Trial>, penalty: i32)
    ensures { trials.new.items ≡ filter (λ trial. not (is_forced penalty || is_overfull trial.fit)) trials.old.items }
{
    trials.retain(|trial| !dies(penalty, trial.fit));
}
