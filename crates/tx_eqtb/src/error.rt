//! Why a group can't be opened or closed.
ghost use Rattle.std.specs.Prelude.{◌≡◌};
ghost use Rattle.tx_eqtb.specs.declared.error.OpenError.TheVariants.{OutOfMemory};

use std::alloc::AllocError;
use thiserror::Error;

/// Why a group can't be opened.
#[derive(Debug, Clone, Copy, Error)]
pub enum OpenError {
    #[error("a 256th group would be open")]
    TooMany,
    #[error("out of memory")]
    OutOfMemory,
}

/// Why a group can't be closed.
#[derive(Debug, Clone, Copy, Error)]
pub enum CloseError {
    #[error("the innermost group is of another kind, or none is open")]
    NotThatGroup,
}

impl From<AllocError> for OpenError {
    ghost from_gives = { λ _ e. e ≡ OutOfMemory };

    fn from(_error: AllocError) -> OpenError {
        OpenError::OutOfMemory
    }
}
