//! The best chain of a pass, and what a pass finds.
ghost use Rattle.std.specs.Prelude.{◌≡◌, ◌<◌, ◌∷◌, [], false, true, length, All, Contains, IfNone, IfSome, IfOk, IsSome};
ghost use Rattle.tx_linebreak.specs.Chains.{chains_of, is_last_pass};
ghost use Rattle.tx_linebreak.specs.Chosen.{IsEnded, beats};
ghost use Rattle.tx_linebreak.specs.Shared.{IsFound, IsMade, chain_of};
ghost use Rattle.tx_linebreak.specs.Tasks.{IsTask, attempt_of};

use crate::attempt::Task;
use crate::chains::Chains;
use crate::found::Found;
use crate::link::Link;
use std::alloc::{AllocError, Global};

/// One of these links whose chain none of theirs beats.
fn best(chains: &Chains, links: &[Link]) -> Link
    requires some { 0 < length links.now }
    requires made { All (IsMade chains.now) links.now }
    ensures among { Contains links.now result }
    ensures unbeaten { All (λ link. beats (chain_of chains.now link) (chain_of chains.now result) ≡ false) links.now }
{
    let mut best = links[0];
    for link in links {
        if chains.beats(link, &best) {
            best = *link;
        }
    }
    best
}

impl Task<'_> {
    /// What a pass finds, of all its chains the one that is asked for; None where there is none. There is one in the last pass.
    pub(crate) fn find_chain(
        &self,
        alloc: Global,
        chains: &mut Chains,
    ) -> Result<Option<Found>, AllocError>
        requires task { IsTask self.now }
        requires ended { IsEnded self.now.pieces.now }
        requires start { chains.old ≡ [] ∷ [] }
        ensures none { IfOk result (λ found. IfNone found (chains_of (attempt_of self.now) ≡ [])) }
        ensures some { IfOk result (λ found. IfSome found (IsFound (attempt_of self.now) chains.new)) }
        ensures last { is_last_pass self.now.params.now self.now.pass ≡ true → IfOk result (λ found. IsSome found) }
    {
        let links = self.ends(alloc, chains)?;
        if links.is_empty() {
            return Ok(None);
        }
        let list = links.as_slice();
        let best = best(chains, list);
        let asked = self.asked(chains, &best, list);
        let chain = chains.len();
        chains.push(asked)?;
        Ok(Some(Found {
            chain,
            lines: asked.line.number,
            best: best.line.number,
        }))
    }
}
