//! Why a display can't be set.
ghost use Rattle.std.specs.Prelude.{◌≡◌};
ghost use Rattle.tx_display.specs.declared.error.DisplayError.TheVariants.{OutOfMemory};

use std::alloc::AllocError;
use thiserror::Error;

/// Why a display can't be set.
#[derive(Clone, Copy, Debug, Error)]
pub enum DisplayError {
    #[error("a size of a display leaves the range of dimensions")]
    SizeOutOfRange,
    #[error("a box of a display would nest more than 500 deep")]
    TooDeep,
    #[error("out of memory")]
    OutOfMemory,
}

impl From<AllocError> for DisplayError {
    ghost from_gives = { λ _ e. e ≡ OutOfMemory };

    fn from(_: AllocError) -> Self {
        DisplayError::OutOfMemory
    }
}
