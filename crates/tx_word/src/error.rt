//! Why pieces can't be made into a list.
ghost use Rattle.std.specs.Prelude.{◌≡◌};
ghost use Rattle.tx_word.specs.declared.error.WordError.TheVariants.{OutOfMemory};

use std::alloc::AllocError;
use thiserror::Error;

/// Why words and spaces can't be made into a list.
#[derive(Clone, Copy, Debug, Error)]
pub enum WordError {
    #[error("a size of the glue between words leaves the range of dimensions")]
    SizeOutOfRange,
    #[error("out of memory")]
    OutOfMemory,
}

impl From<AllocError> for WordError {
    ghost from_gives = { λ _ e. e ≡ OutOfMemory };

    fn from(_: AllocError) -> Self {
        WordError::OutOfMemory
    }
}
