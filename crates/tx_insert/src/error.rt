//! Why a list can't be broken.
ghost use Rattle.std.specs.Prelude.{◌≡◌};
ghost use Rattle.tx_insert.specs.declared.error.SplitError.TheVariants.{OutOfMemory};

use std::alloc::AllocError;
use thiserror::Error;

/// Why a vertical list can't be broken or split.
#[derive(Clone, Copy, Debug, Error)]
pub enum SplitError {
    #[error("a sum of sizes leaves the range of dimensions")]
    SizeOutOfRange,
    #[error("glue of a vertical list that is split shrinks infinitely")]
    EndlessShrink,
    #[error("out of memory")]
    OutOfMemory,
}

impl From<AllocError> for SplitError {
    ghost from_gives = { λ _ e. e ≡ OutOfMemory };

    fn from(_: AllocError) -> Self {
        SplitError::OutOfMemory
    }
}
