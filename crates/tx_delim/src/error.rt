//! Why a delimiter has no box.
ghost use Rattle.std.specs.Prelude.{◌≡◌};
ghost use Rattle.tx_delim.specs.declared.error.DelimError.TheVariants.{OutOfMemory};

use std::alloc::AllocError;
use thiserror::Error;

/// Why a delimiter has no box.
#[derive(Clone, Copy, Debug, PartialEq, Eq, Error)]
pub enum DelimError {
    #[error("a size leaves the range of dimensions")]
    SizeOutOfRange,
    #[error("a box would nest more than 500 deep")]
    TooDeep,
    #[error("out of memory")]
    OutOfMemory,
}

impl From<AllocError> for DelimError {
    ghost from_gives = { λ _ e. e ≡ OutOfMemory };

    fn from(_: AllocError) -> Self {
        DelimError::OutOfMemory
    }
}
