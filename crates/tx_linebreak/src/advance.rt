//! From break to break.
ghost use Rattle.std.specs.Prelude.{◌≡◌, ◌<◌, ◌≤◌, ◌++◌, ◌∷◌, [], suc, length, map, All, IfOk, OnOk, Some};
ghost use Rattle.tx_linebreak.specs.Breaks.{context_from, outset, penalty_at};
ghost use Rattle.tx_linebreak.specs.Chains.{next_place};
ghost use Rattle.tx_linebreak.specs.Kept.{all_offered, kept_by, last_by, last_chains, last_special};
ghost use Rattle.tx_linebreak.specs.Shared.{IsMade, chain_of};
ghost use Rattle.tx_linebreak.specs.Tasks.{IsTask, attempt_of};
ghost use Rattle.tx_linebreak.specs.Trials.{IsKept, IsTrial, chain_tried};

use crate::attempt::Task;
use crate::chains::Chains;
use crate::legal::{Context, penalty, penalty_past};
use crate::link::Link;
use crate::trial::Trial;
use crate::trials::keep_living;
use std::alloc::{AllocError, Global};

impl Task<'_> {
    /// Puts the chains of links behind the others, and the lines behind them behind those that are tried.
    fn add(
        &self,
        chains: &mut Chains,
        trials: &mut Vec<Trial>,
        links: &[Link],
    ) -> Result<(), AllocError>
        requires task { IsTask self.now }
        requires links { All (IsMade chains.old) links.now }
        requires places { All (λ link. link.line.place < length self.now.pieces.now) links.now }
        requires kept { All (IsKept (attempt_of self.now) chains.old) trials.old.items }
        ensures chains { OnOk result (map (chain_tried chains.new) trials.new.items ≡ map (chain_tried chains.old) trials.old.items ++ map (chain_of chains.old) links.now) }
        ensures kept { OnOk result (All (IsKept (attempt_of self.now) chains.new) trials.new.items) }
    {
        for link in links {
            trials.push(self.trial(link, chains.len()))?;
            chains.push(*link)?;
        }
        Ok(())
    }
}

impl Task<'_> {
    /// The penalty of the break at a place, None where there is no legal break, given what the pieces before it say.
    #[inline(always)]
    #[tactic(auto, unfolding(crate::specs::Breaks::penalty_at))]
    fn penalty(&self, context: Context, place: usize) -> Option<i32>
        requires place { place < length self.now.pieces.now }
        requires context { context ≡ context_from outset self.now.pieces.now place }
        ensures { result ≡ penalty_at self.now.params.now self.now.pass self.now.pieces.now place }
    {
        let next = self.pieces.get(place + 1);
        penalty(self.params, self.pass, context, &self.pieces[place], next)
    }

    /// The penalty of the break at a place, as above; and what the pieces before say goes past its piece.
    #[inline(always)]
    #[tactic(auto, unfolding(crate::specs::Breaks::penalty_at))]
    fn penalty_past(&self, context: &mut Context, place: usize) -> Option<i32>
        requires place { place < length self.now.pieces.now }
        requires context { context.old ≡ context_from outset self.now.pieces.now place }
        ensures penalty { result ≡ penalty_at self.now.params.now self.now.pass self.now.pieces.now place }
        ensures context { context.new ≡ context_from outset self.now.pieces.now (suc place) }
    {
        let next = self.pieces.get(place + 1);
        penalty_past(self.params, self.pass, context, &self.pieces[place], next)
    }

    /// Tries the lines to a break with this penalty (TeX: The Program, section 829), and makes `links` those of the chains that are
    /// made.
    fn try_break(
        &self,
        chains: &Chains,
        trials: &mut Vec<Trial>,
        links: &mut Vec<Link>,
        place: usize,
        penalty: i32,
    ) -> Result<(), AllocError>
        requires task { IsTask self.now }
        requires place { place < length self.now.pieces.now }
        requires kept { All (IsKept (attempt_of self.now) chains.now) trials.old.items }
        requires before { All (λ trial. next_place trial.from.place ≤ place) trials.old.items }
        requires legal { penalty_at self.now.params.now self.now.pass self.now.pieces.now place ≡ Some penalty }
        ensures trials { All (IsTrial (attempt_of self.now) chains.now place) trials.new.items }
        ensures same { map (chain_tried chains.now) trials.new.items ≡ map (chain_tried chains.now) trials.old.items }
        ensures made { OnOk result (All (IsMade chains.now) links.new.items) }
        ensures placed { OnOk result (All (λ link. link.line.place ≡ place) links.new.items) }
        ensures chains { OnOk result (map (chain_of chains.now) links.new.items ≡ all_offered (last_special (attempt_of self.now)) [] (last_by (attempt_of self.now) place (penalty_at self.now.params.now self.now.pass self.now.pieces.now place) (map (chain_tried chains.now) trials.old.items))) }
    {
        self.measure(trials.as_mut_slice(), place);
        self.reach(chains, links, trials.as_slice(), place, penalty)
    }

    /// Goes over a break with this penalty: of the lines that are tried there, those stay whose candidates live on, and behind them
    /// come those behind the chains that are made. `links` only lends its memory.
    fn advance(
        &self,
        chains: &mut Chains,
        trials: &mut Vec<Trial>,
        links: &mut Vec<Link>,
        place: usize,
        penalty: i32,
    ) -> Result<(), AllocError>
        requires task { IsTask self.now }
        requires place { place < length self.now.pieces.now }
        requires kept { All (IsKept (attempt_of self.now) chains.old) trials.old.items }
        requires before { All (λ trial. next_place trial.from.place ≤ place) trials.old.items }
        requires legal { penalty_at self.now.params.now self.now.pass self.now.pieces.now place ≡ Some penalty }
        ensures chains { OnOk result (map (chain_tried chains.new) trials.new.items ≡ kept_by (attempt_of self.now) place (penalty_at self.now.params.now self.now.pass self.now.pieces.now place) (map (chain_tried chains.old) trials.old.items)) }
        ensures kept { OnOk result (All (IsKept (attempt_of self.now) chains.new) trials.new.items) }
    {
        self.try_break(chains, trials, links, place, penalty)?;
        keep_living(trials, penalty);
        self.add(chains, trials, links.as_slice())?;
        Ok(())
    }

    /// The chains that end at the list's end, of each candidate the best one.
    pub(crate) fn ends(&self, alloc: Global, chains: &mut Chains) -> Result<Vec<Link>, AllocError>
        requires task { IsTask self.now }
        requires some { 0 < length self.now.pieces.now }
        requires start { chains.old ≡ [] ∷ [] }
        ensures made { IfOk result (λ links. All (IsMade chains.new) links.items) }
        ensures chains { IfOk result (λ links. map (chain_of chains.new) links.items ≡ all_offered (last_special (attempt_of self.now)) [] (last_chains (attempt_of self.now))) }
    {
        let last = self.pieces.len() - 1;
        let mut trials = vec![in alloc; self.first_trial()]?;
        let mut links = Vec::new(alloc);
        let mut context = Context::outset();
        for place in 0..last {
            if let Some(penalty) = self.penalty_past(&mut context, place) {
                self.advance(chains, &mut trials, &mut links, place, penalty)?;
            }
        }
        match self.penalty(context, last) {
            None => Ok(Vec::new(alloc)),
            Some(penalty) => {
                self.try_break(chains, &mut trials, &mut links, last, penalty)?;
                Ok(links)
            }
        }
    }
}
