//! Why a paragraph can't be set.
ghost use Rattle.std.specs.Prelude.{◌≡◌};
ghost use Rattle.tx_par.specs.declared.error.ParError.TheVariants.{OutOfMemory};

use std::alloc::AllocError;
use thiserror::Error;

/// Why a paragraph can't be set as lines.
#[derive(Clone, Copy, Debug, Error)]
pub enum ParError {
    #[error("a size, leading or a penalty leaves its range")]
    SizeOutOfRange,
    #[error("a line's box would nest more than 500 deep")]
    TooDeep,
    #[error("glue that has to be set shrinks infinitely")]
    EndlessShrink,
    #[error("out of memory")]
    OutOfMemory,
}

impl From<AllocError> for ParError {
    ghost from_gives = { λ _ e. e ≡ OutOfMemory };

    fn from(_: AllocError) -> Self {
        ParError::OutOfMemory
    }
}
