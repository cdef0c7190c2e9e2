//! The machine's state, in code.
ghost use Rattle.std.specs.Prelude.{◌≡◌, ◌↔◌, IsTrue, IfOk};

use crate::error::LineError;
use std::alloc::AllocError;
use tx_bytes::Bytes;
use tx_dvi::DateParameters;
use tx_event::AskKind;
use tx_files::Name;

/// What the next turn does, or what it waits for.
#[derive(Drop)]
pub enum Phase {
    /// Asks for the main file.
    Begins(Name),
    /// Ships this line, which is without its LF; where nothing is in it, asks for the next one.
    Reads(Bytes),
    /// Stops by this error.
    Fails(LineError),
    /// Waits for a reply.
    Waits(AskKind),
    /// Nothing any more.
    Halted,
}

/// All that the next turns depend on, and the bytes of the transcript that are still to be taken.
#[derive(Drop)]
pub struct State {
    pub(crate) date: DateParameters,
    pub(crate) phase: Phase,
    pub(crate) said: Bytes,
}

/// Whether two dates are the same.
pub(crate) fn same_date(a: &DateParameters, b: &DateParameters) -> bool
    ensures { IsTrue result ↔ (a.now ≡ b.now) }
{
    a.year == b.year && a.month == b.month && a.day == b.day && a.time == b.time
}

impl Phase {
    /// Whether both are the same phase.
    pub fn same(&self, other: &Phase) -> bool
        ensures { IsTrue result ↔ (self.now ≡ other.now) }
    {
        match (self, other) {
            (Phase::Begins(name), Phase::Begins(named)) => name.as_slice() == named.as_slice(),
            (Phase::Reads(text), Phase::Reads(read)) => text.same(read),
            (Phase::Fails(error), Phase::Fails(failed)) => error == failed,
            (Phase::Waits(kind), Phase::Waits(waited)) => kind == waited,
            (Phase::Halted, Phase::Halted) => true,
            _ => false,
        }
    }

    /// The same phase again. Its only error is want of memory.
    pub fn copy(&self) -> Result<Phase, AllocError>
        ensures { IfOk result (λ phase. phase ≡ self.now) }
    {
        match self {
            Phase::Begins(name) => Ok(Phase::Begins(name.clone()?)),
            Phase::Reads(text) => Ok(Phase::Reads(text.clone()?)),
            Phase::Fails(error) => Ok(Phase::Fails(*error)),
            Phase::Waits(kind) => Ok(Phase::Waits(*kind)),
            Phase::Halted => Ok(Phase::Halted),
        }
    }
}
