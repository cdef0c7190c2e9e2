//! Why an alignment can't be set.
ghost use Rattle.std.specs.Prelude.{◌≡◌};
ghost use Rattle.tx_align.specs.declared.error.AlignError.TheVariants.{OutOfMemory};

use std::alloc::AllocError;
use thiserror::Error;

/// Why an item may not stand in an alignment, or its rows can't be set.
#[derive(Clone, Copy, Debug, PartialEq, Eq, Error)]
pub enum AlignError {
    #[error("a sum of sizes of an alignment leaves the range of dimensions")]
    SizeOutOfRange,
    #[error("a box of an alignment would nest more than 500 deep")]
    TooDeep,
    #[error("a cell that the preamble hasn't, or a row that isn't whole")]
    MisplacedAlignment,
    #[error("out of memory")]
    OutOfMemory,
}

impl From<AllocError> for AlignError {
    ghost from_gives = { λ _ e. e ≡ OutOfMemory };

    fn from(_: AllocError) -> Self {
        AlignError::OutOfMemory
    }
}
