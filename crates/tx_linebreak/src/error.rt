//! Why a list can't be broken.
ghost use Rattle.std.specs.Prelude.{◌≡◌};
ghost use Rattle.tx_linebreak.specs.declared.error.BreakError.TheVariants.{OutOfMemory};

use std::alloc::AllocError;
use thiserror::Error;

/// Why a list can't be broken into lines.
#[derive(Clone, Copy, Debug, Error)]
pub enum BreakError {
    #[error("glue that has to be set shrinks infinitely")]
    InfiniteShrink,
    #[error("out of memory")]
    OutOfMemory,
}

impl From<AllocError> for BreakError {
    ghost from_gives = { λ _ e. e ≡ OutOfMemory };

    fn from(_: AllocError) -> Self {
        BreakError::OutOfMemory
    }
}
