//! A turn of the expander; how it begins, and how it is kept.
ghost use Rattle.std.specs.Prelude.{◌≡◌, ◌↔◌, [], IfOk, IsTrue};
ghost use Rattle.tx_expand.specs.Expanding.{reader_of, world_of};
ghost use Rattle.tx_expand.specs.Values.{lent};
ghost use Rattle.tx_expand.specs.Turns as turns;
ghost use Rattle.tx_expand.specs.Turns.{turn, IsTurned};

use crate::begun::Begun;
use crate::known::Known;
use crate::state::Expander;
use crate::types::{Expanded, Wanted};
use std::alloc::{AllocError, Global};
use tx_bytes::Bytes;
use tx_cond::CondStack;
use tx_list::Stack;
use tx_pending::{Next, Pending};
use tx_prim::Mode;
use tx_seen::{Seen, TexError};

impl Expander {
    /// Nothing is open, in a run of the main file of this name. Takes no memory.
    pub fn new(alloc: Global, job: Bytes) -> Expander
        ensures begun { result.begun ≡ [] }
        ensures conditionals { result.conditionals ≡ [] }
        ensures job { result.job ≡ job }
    {
        Expander {
            begun: Stack::new(alloc),
            conditionals: CondStack::new(alloc),
            job,
        }
    }

    /// The magnification, where the innermost expansion took it last.
    pub fn magnification(&self) -> Option<u16>
        ensures { result ≡ turns.magnification_taken self.now.begun }
    {
        match self.begun.first() {
            Some(Begun::Scanning(scanning)) => scanning.magnification(),
            _ => None,
        }
    }

    /// Whether the same is open in both, in runs of main files of the same name.
    pub fn same(&self, other: &Expander) -> bool
        ensures { IsTrue result ↔ ((self.now.begun ≡ other.now.begun) × ((self.now.conditionals ≡ other.now.conditionals) × (self.now.job ≡ other.now.job))) }
    {
        self.begun.same(&other.begun)
            && self.conditionals.same(&other.conditionals)
            && self.job.same(&other.job)
    }

    /// The same is open once more. Its only error is want of memory.
    pub fn share(&self) -> Result<Expander, AllocError>
        ensures begun { IfOk result (λ shared. shared.begun ≡ self.now.begun) }
        ensures conditionals { IfOk result (λ shared. shared.conditionals ≡ self.now.conditionals) }
        ensures job { IfOk result (λ shared. shared.job ≡ self.now.job) }
    {
        Ok(Expander {
            begun: self.begun.share()?,
            conditionals: self.conditionals.share()?,
            job: self.job.clone()?,
        })
    }

    /// Whether no expansion has begun that hasn't ended.
    #[inline(always)]
    pub fn is_idle(&self) -> bool
        ensures { IsTrue result ↔ (self.now.begun ≡ []) }
    {
        self.begun.is_empty()
    }

    /// Takes what comes next off the input, and does all that follows before another token is needed. Its only error is want
    /// of memory, after which it may only be dropped.
    #[inline(always)]
    pub fn turn(
        &mut self,
        alloc: Global,
        input: &mut Pending,
        known: &Known,
        mode: Mode,
        wanted: Wanted,
    ) -> Result<Expanded, AllocError>
        ensures { IfOk result (IsTurned (turn (world_of (lent known.now) mode) wanted (reader_of self.old input.old)) (reader_of self.new input.new)) }
    {
        if self.is_opening() {
            return Ok(Expanded::LineUsed);
        }
        match input.next_known(alloc, known.table.categories(), known.table)? {
            Next::Token(token) => {
                let meaning = known.table.meaning(&token)?;
                let seen = Seen { token, meaning };
                self.met(alloc, input, known, mode, wanted, seen)
            }
            Next::Held(token) => {
                let meaning = known.table.meaning(&token)?;
                let seen = Seen { token, meaning }.held();
                self.met(alloc, input, known, mode, wanted, seen)
            }
            Next::Marker => Ok(Expanded::Marked),
            Next::PartEnd(part) => self.part_ends(alloc, input, known, wanted, part),
            Next::Used { close: false } => Ok(Expanded::LineUsed),
            Next::Used { close: true } => Ok(Expanded::FileUsed),
            Next::E1 => Ok(Expanded::Wrong(TexError::InvalidCharacter)),
        }
    }
}
