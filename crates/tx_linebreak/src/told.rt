//! What is told of a chain.
ghost use Rattle.std.specs.Prelude.{pos, ◌≡◌, ◌<◌, ◌-ℤ◌, length, map, filter, IfOk};
ghost use Rattle.tx_linebreak.specs.Chosen.{answer_of, line_count, pass_number, places_of};
ghost use Rattle.tx_linebreak.specs.Shared.{chain_at};

use crate::answer::{Chosen, Places};
use crate::chains::Chains;
use crate::found::Found;
use crate::params::Pass;
use std::alloc::{AllocError, Global};

impl Pass {
    /// Its number.
    fn number(self) -> u8
        ensures { result ≡ pass_number self }
    {
        match self {
            Pass::First => 1,
            Pass::Second => 2,
            Pass::Emergency => 3,
        }
    }
}

/// A chain's places, and those where no line fitted, the last ones first.
fn backwards(
    alloc: Global,
    chains: &Chains,
    chain: usize,
) -> Result<(Vec<usize>, Vec<usize>), AllocError>
    requires { chain < length chains.now }
    ensures places { IfOk result (λ lists. lists.0.items ≡ map (λ line. line.place) (chain_at chains.now chain)) }
    ensures forced { IfOk result (λ lists. lists.1.items ≡ map (λ line. line.place) (filter (λ line. line.forced) (chain_at chains.now chain))) }
{
    let mut places = Vec::new(alloc);
    let mut forced = Vec::new(alloc);
    let mut at = chain;
    while let Some(link) = chains.link(at) {
        places.push(link.line.place)?;
        if link.line.forced {
            forced.push(link.line.place)?;
        }
        at = link.before;
    }
    Ok((places, forced))
}

/// A chain's places, and those where no line fitted, in order.
fn places(alloc: Global, chains: &Chains, chain: usize) -> Result<(Places, Places), AllocError>
    requires { chain < length chains.now }
    ensures places { IfOk result (λ lists. lists.0 ≡ places_of (chain_at chains.now chain)) }
    ensures forced { IfOk result (λ lists. lists.1 ≡ places_of (filter (λ line. line.forced) (chain_at chains.now chain))) }
{
    let (mut places, mut forced) = backwards(alloc, chains, chain)?;
    places.as_mut_slice().reverse();
    forced.as_mut_slice().reverse();
    Ok((Places::from_vec(places), Places::from_vec(forced)))
}

/// How many lines more than so many there are.
fn more_lines(best: usize, lines: usize) -> i128
    ensures { result ≡ pos lines -ℤ pos best }
{
    lines as i128 - best as i128
}

/// What is told of the chain that a pass found.
pub(crate) fn told(
    alloc: Global,
    chains: &Chains,
    found: &Found,
    pass: Pass,
) -> Result<Chosen, AllocError>
    requires there { found.now.chain < length chains.now }
    requires lines { found.now.lines ≡ line_count (chain_at chains.now found.now.chain) }
    ensures { IfOk result (λ chosen. chosen ≡ answer_of pass found.now.best (chain_at chains.now found.now.chain)) }
{
    let (chain, forced) = places(alloc, chains, found.chain)?;
    Ok(Chosen {
        chain,
        total: chains.total(found.chain),
        pass: pass.number(),
        forced,
        looseness: more_lines(found.best, found.lines),
    })
}
