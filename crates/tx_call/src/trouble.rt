//! What cuts a call short.
ghost use Rattle.std.specs.Prelude.{◌≡◌};
ghost use Rattle.tx_call.specs.declared.trouble.Trouble.TheVariants.{Memory};
ghost use Rattle.tx_call.specs.declared.trouble.Interruption.TheVariants as interruption;
ghost use Rattle.tx_call.specs.declared.trouble.Break.TheVariants as breaks;

use std::alloc::AllocError;
use thiserror::Error;

/// What cuts a call short.
#[derive(Clone, Copy, Debug, Error)]
pub enum Trouble {
    /// There was no memory left.
    #[error("out of memory")]
    Memory,
    /// The source couldn't read a file, and has counted a fault.
    #[error("a file couldn't be read")]
    Source,
    /// The sink couldn't take all of a text or a file, and has counted a fault.
    #[error("the output couldn't be written")]
    Sink,
}

impl From<AllocError> for Trouble {
    ghost from_gives = { λ _ e. e ≡ Memory };

    fn from(_: AllocError) -> Trouble {
        Trouble::Memory
    }
}

/// What ends a call before all is done.
#[derive(Clone, Copy, Debug, Error)]
pub enum Interruption {
    /// Trouble that came in the midst of the outputs.
    #[error("{0}")]
    Trouble(Trouble),
    /// There was no memory left for an edit. That has been told, and what there was before the edit has been saved, as far
    /// as they could be.
    #[error("out of memory for an edit")]
    RefusedEdit,
}

impl From<Trouble> for Interruption {
    ghost from_gives = { λ trouble e. e ≡ interruption.Trouble trouble };

    fn from(trouble: Trouble) -> Interruption {
        Interruption::Trouble(trouble)
    }
}

impl From<AllocError> for Interruption {
    ghost from_gives = { λ _ e. e ≡ interruption.Trouble Memory };

    fn from(_: AllocError) -> Interruption {
        Interruption::Trouble(Trouble::Memory)
    }
}

/// What ends a call that serves before all that comes in is answered.
#[derive(Clone, Copy, Debug, Error)]
pub enum Break {
    /// Trouble with memory, the source or the sink.
    #[error("{0}")]
    Trouble(Trouble),
    /// What comes in couldn't be read, and the inlet has counted a fault.
    #[error("a request couldn't be read")]
    Inlet,
}

impl From<Trouble> for Break {
    ghost from_gives = { λ trouble e. e ≡ breaks.Trouble trouble };

    fn from(trouble: Trouble) -> Break {
        Break::Trouble(trouble)
    }
}

impl From<AllocError> for Break {
    ghost from_gives = { λ _ e. e ≡ breaks.Trouble Memory };

    fn from(_: AllocError) -> Break {
        Break::Trouble(Trouble::Memory)
    }
}
