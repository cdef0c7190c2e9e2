//! Why a list can't stand in another.
ghost use Rattle.std.specs.Prelude.{◌≡◌};
ghost use Rattle.tx_mlist.specs.declared.error.MlistError.TheVariants.{OutOfMemory};

use std::alloc::AllocError;
use thiserror::Error;

/// Why a list can't stand in another.
#[derive(Clone, Copy, Debug, PartialEq, Eq, Error)]
pub enum MlistError {
    #[error("lists would stand in one another more than 510 deep")]
    TooDeep,
    #[error("out of memory")]
    OutOfMemory,
}

impl From<AllocError> for MlistError {
    ghost from_gives = { λ _ e. e ≡ OutOfMemory };

    fn from(_: AllocError) -> Self {
        MlistError::OutOfMemory
    }
}
