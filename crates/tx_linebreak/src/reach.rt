//! The chains that are made at a break.
ghost use Rattle.std.specs.Prelude.{◌≡◌, ◌<◌, ◌≤◌, ◌*◌, ◌^◌, ◌+ℤ◌, suc, [], length, map, unsigned_abs, All, OnOk, Some};
ghost use Rattle.tx_linebreak.specs.Breaks.{penalty_at};
ghost use Rattle.tx_linebreak.specs.Kept.{all_offered, last_by, last_special};
ghost use Rattle.tx_linebreak.specs.Lines.{line_fit};
ghost use Rattle.tx_linebreak.specs.Shared.{IsMade, chain_of};
ghost use Rattle.tx_linebreak.specs.Tasks.{IsTask, attempt_of};
ghost use Rattle.tx_linebreak.specs.Trials.{IsStart, IsTrial, chain_tried, line_by};

use crate::attempt::{Task, is_tolerable};
use crate::chains::Chains;
use crate::line::Line;
use crate::link::Link;
use crate::loose::asks_nothing;
use crate::offers::offer;
use crate::trial::Trial;
use std::alloc::AllocError;

/// The chain whose line was tried, with that line.
fn link(trial: &Trial, line: Line) -> Link
    requires lines { trial.now.from.lines < 2 ^ 63 }
    requires small { unsigned_abs trial.now.total ≤ trial.now.from.lines * 2 ^ 63 }
    requires demerits { unsigned_abs line.demerits ≤ 2 ^ 63 }
    ensures line { result.line ≡ line }
    ensures before { result.before ≡ trial.now.chain }
    ensures total { result.total ≡ trial.now.total +ℤ line.demerits }
{
    Link {
        line,
        before: trial.chain,
        total: trial.total + line.demerits,
    }
}

impl Task<'_> {
    /// The line that was tried, to a break with this penalty; where no line fits, it is taken all the same.
    fn line(&self, trial: &Trial, place: usize, penalty: i32, stuck: bool) -> Line
        requires place { place < length self.now.pieces.now }
        requires start { IsStart (attempt_of self.now) trial.now.from.place trial.now.from.lines trial.now.start }
        requires lines { trial.now.from.lines < 2 ^ 63 }
        requires fit { trial.now.fit ≡ line_fit (attempt_of self.now) trial.now.from place }
        ensures value { result ≡ line_by (attempt_of self.now) trial.now.from place penalty stuck }
        ensures number { result.number ≡ suc trial.now.from.lines }
        ensures place { result.place ≡ place }
        ensures demerits { unsigned_abs result.demerits ≤ 2 ^ 63 }
    {
        let mut line = self.line_set(trial, place, penalty);
        if stuck {
            line.demerits = 0;
            line.forced = true;
        }
        line
    }

    /// The number of the last special line: to what may come behind it, it makes no difference how many lines there are.
    #[tactic(auto, unfolding(crate::specs::Kept::last_special))]
    fn last_special(&self) -> usize
        requires task { IsTask self.now }
        ensures { result ≡ last_special (attempt_of self.now) }
    {
        let special = self.shape.len() - 1;
        if asks_nothing(self.params) {
            special
        } else {
            special.max(self.pieces.len())
        }
    }

    /// The chains that are made of those that are tried, with their lines to a break with this penalty: of those that go on
    /// alike the best one.
    pub(crate) fn reach(
        &self,
        chains: &Chains,
        links: &mut Vec<Link>,
        trials: &[Trial],
        place: usize,
        penalty: i32,
    ) -> Result<(), AllocError>
        requires task { IsTask self.now }
        requires place { place < length self.now.pieces.now }
        requires trials { All (IsTrial (attempt_of self.now) chains.now place) trials.now }
        requires legal { penalty_at self.now.params.now self.now.pass self.now.pieces.now place ≡ Some penalty }
        ensures made { OnOk result (All (IsMade chains.now) links.new.items) }
        ensures placed { OnOk result (All (λ link. link.line.place ≡ place) links.new.items) }
        ensures chains { OnOk result (map (chain_of chains.now) links.new.items ≡ all_offered (last_special (attempt_of self.now)) [] (last_by (attempt_of self.now) place (penalty_at self.now.params.now self.now.pass self.now.pieces.now place) (map (chain_tried chains.now) trials.now))) }
    {
        let stuck = self.is_stuck(trials, penalty);
        let tolerance = self.tolerance();
        let special = self.last_special();
        links.clear();
        for trial in trials {
            let taken = stuck | is_tolerable(tolerance, trial.fit);
            if taken {
                let line = self.line(trial, place, penalty, stuck);
                let link = link(trial, line);
                offer(chains, links, link, special)?;
            }
        }
        Ok(())
    }
}
