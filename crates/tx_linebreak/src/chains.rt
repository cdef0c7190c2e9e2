//! Chains of lines that share their beginnings.
ghost use Rattle.std.specs.Prelude.{◌≡◌, ◌<◌, ◌≤◌, ◌+◌, ◌*◌, ◌^◌, unsigned_abs, [], ◌∷◌, ◌++◌, length, IfNone, IfSome, OnOk, OnErr};
ghost use Rattle.tx_linebreak.specs.Chains.{candidate_of};
ghost use Rattle.tx_linebreak.specs.Chosen.{beats, is_below, steps_of, total};
ghost use Rattle.tx_linebreak.specs.Shared.{IsLinkOf, IsMade, chain_at, chain_of};

use crate::link::Link;
use std::alloc::{AllocError, Global};
use std::marker::Model;

/// Chains by their numbers: 0 is the empty one, and each other one is a line behind a chain of a lesser number. Contracts see
/// the list of the chains.
#[derive(Drop)]
pub(crate) struct Chains {
    links: Vec<Link>,
}

impl Model for Chains {
    ghost use Rattle.std.specs.Prelude.{List};
    ghost use Rattle.tx_linebreak.specs.Chains.{Chain};
    ghost use Rattle.tx_linebreak.specs.Shared.{IsShared, chains_in};

    ghost Value = { List Chain };

    ghost view = { λ c. chains_in c.links.items };

    ghost invariant = { λ c. IsShared c.links.items };
}

impl Chains {
    /// The empty chain alone; takes no memory.
    pub fn new(alloc: Global) -> Chains
        ensures { result ≡ [] ∷ [] }
    {
        Chains {
            links: Vec::new(alloc),
        }
    }

    /// How many there are.
    pub fn len(&self) -> usize
        ensures { result ≡ length self.now }
    {
        self.links.len() + 1
    }

    /// The last line of a chain with what stands before it; None for the empty chain.
    pub fn link(&self, chain: usize) -> Option<Link>
        requires { chain < length self.now }
        ensures none { IfNone result (chain_at self.now chain ≡ []) }
        ensures some { IfSome result (λ link. IsLinkOf self.now chain link) }
    {
        let links = &self.links;
        if chain == 0 {
            return None;
        }
        Some(links[chain - 1])
    }

    /// The demerits of all lines of a chain.
    pub fn total(&self, chain: usize) -> i128
        requires { chain < length self.now }
        ensures value { result ≡ total (chain_at self.now chain) }
        ensures small { unsigned_abs result ≤ (candidate_of (chain_at self.now chain)).lines * 2 ^ 63 }
    {
        match self.link(chain) {
            None => 0,
            Some(link) => link.total,
        }
    }

    /// Whether the steps of a chain are below those of another one.
    pub fn is_below(&self, chain: usize, other: usize) -> bool
        requires chain { chain < length self.now }
        requires other { other < length self.now }
        ensures { result ≡ is_below (steps_of (chain_at self.now chain)) (steps_of (chain_at self.now other)) }
    {
        match (self.link(chain), self.link(other)) {
            (None, None) => false,
            (None, Some(_)) => true,
            (Some(_), None) => false,
            (Some(link), Some(last)) => {
                if link.line.is_below(&last.line) {
                    true
                } else if link.line.is_level(&last.line) {
                    self.is_below(link.before, last.before)
                } else {
                    false
                }
            }
        }
    }

    /// Whether the chain of a link beats that of another one.
    pub fn beats(&self, link: &Link, other: &Link) -> bool
        requires link { IsMade self.now link.now }
        requires other { IsMade self.now other.now }
        ensures { result ≡ beats (chain_of self.now link.now) (chain_of self.now other.now) }
    {
        if link.total < other.total {
            return true;
        }
        if other.total < link.total {
            return false;
        }
        if other.line.is_below(&link.line) {
            return true;
        }
        other.line.is_level(&link.line) && self.is_below(other.before, link.before)
    }

    /// Puts a chain behind the others. After want of memory nothing has changed.
    pub fn push(&mut self, link: Link) -> Result<(), AllocError>
        requires { IsMade self.old link }
        ensures ok { OnOk result (self.new ≡ self.old ++ chain_of self.old link ∷ []) }
        ensures err { OnErr result (self.new ≡ self.old) }
    {
        self.links.push(link)?;
        Ok(())
    }
}
