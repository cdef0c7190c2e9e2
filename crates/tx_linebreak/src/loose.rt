//! The chain that \looseness asks for (TeX: The Program, sections 873 to 875).
ghost use Rattle.std.specs.Prelude.{◌≡◌, ◌==◌, ◌<◌, false, true, length, map, unsigned_abs, [], All, Contains};
ghost use Rattle.tx_linebreak.specs.Chosen as spec;
ghost use Rattle.tx_linebreak.specs.Kept.{all_offered, last_chains, last_special};
ghost use Rattle.tx_linebreak.specs.Shared.{IsMade, chain_of};
ghost use Rattle.tx_linebreak.specs.Tasks.{attempt_of};

use crate::attempt::Task;
use crate::chains::Chains;
use crate::found::Found;
use crate::link::Link;
use crate::params::BreakParams;

/// Whether \looseness asks for no other number of lines than the best chain has.
pub(crate) fn asks_nothing(params: &BreakParams) -> bool
    ensures { result ≡ (unsigned_abs params.now.looseness == 0) }
{
    params.looseness == 0
}

/// How many lines are asked for, where the best chain has so many; at least none.
fn lines_asked(params: &BreakParams, lines: usize) -> u128
    ensures { result ≡ spec.lines_asked params.now.looseness lines }
{
    let lines = lines as u128;
    let change = u128::from(params.looseness.unsigned_abs());
    if params.looseness < 0 {
        lines.saturating_sub(change)
    } else {
        lines + change
    }
}

/// Whether a number of lines is nearer to what is asked for than another one, and not past it.
fn is_nearer(asked: u128, lines: usize, other: usize) -> bool
    ensures { result ≡ spec.is_nearer asked lines other }
{
    (other < lines && lines as u128 <= asked) || (lines < other && asked <= lines as u128)
}

/// Whether the chain of a link is preferred to that of another one.
#[tactic(auto, unfolding(crate::specs::Chosen::is_preferred))]
fn is_preferred(chains: &Chains, asked: u128, link: &Link, other: &Link) -> bool
    requires link { IsMade chains.now link.now }
    requires other { IsMade chains.now other.now }
    ensures { result ≡ spec.is_preferred asked (chain_of chains.now link.now) (chain_of chains.now other.now) }
{
    let (lines, others) = (link.line.number, other.line.number);
    is_nearer(asked, lines, others) || (lines == others && chains.beats(link, other))
}

/// One of these links, of which this one has the best chain: no chain of theirs is preferred to its own.
fn preferred(chains: &Chains, asked: u128, best: &Link, links: &[Link]) -> Link
    requires best { Contains links.now best.now }
    requires made { All (IsMade chains.now) links.now }
    ensures among { Contains links.now result }
    ensures between { spec.is_between best.now.line.number asked result.line.number ≡ true }
    ensures unpreferred { All (λ link. spec.is_preferred asked (chain_of chains.now link) (chain_of chains.now result) ≡ false) links.now }
{
    let mut chosen = *best;
    for link in links {
        if is_preferred(chains, asked, link, &chosen) {
            chosen = *link;
        }
    }
    chosen
}

impl Task<'_> {
    /// The one of the last links of a pass, of which this one has the best chain, whose chain is asked for. Where \looseness is 0,
    /// it is that one, and the others aren't looked at.
    pub(crate) fn asked(&self, chains: &Chains, best: &Link, links: &[Link]) -> Link
        requires some { 0 < length self.now.pieces.now }
        requires made { All (IsMade chains.now) links.now }
        requires chains { map (chain_of chains.now) links.now ≡ all_offered (last_special (attempt_of self.now)) [] (last_chains (attempt_of self.now)) }
        requires among { Contains links.now best.now }
        requires best { spec.IsBest (attempt_of self.now) (chain_of chains.now best.now) }
        ensures among { Contains links.now result }
        ensures asked { spec.IsAsked (attempt_of self.now) (chain_of chains.now best.now) (chain_of chains.now result) }
    {
        if asks_nothing(self.params) {
            return *best;
        }
        let asked = lines_asked(self.params, best.line.number);
        preferred(chains, asked, best, links)
    }

    /// Whether a pass that found this chain gives the answer: it has as many lines as are asked for, or no further pass is made.
    pub(crate) fn is_enough(&self, found: &Found) -> bool
        ensures { result ≡ spec.is_enough (attempt_of self.now) found.now.best found.now.lines }
    {
        self.is_last() || found.lines as u128 == lines_asked(self.params, found.best)
    }
}
