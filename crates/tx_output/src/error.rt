//! Why a page can't be put out.
ghost use Rattle.std.specs.Prelude.{◌≡◌};
ghost use Rattle.tx_output.specs.declared.error.OutputError.TheVariants.{OutOfMemory};

use std::alloc::AllocError;
use thiserror::Error;

/// Why a page that was fired can't be put out, or its \output can't end.
#[derive(Clone, Copy, Debug, Error)]
pub enum OutputError {
    #[error("a page is complete while \\box255 is in use")]
    OccupiedPageBox,
    #[error("a sum of sizes of a page leaves the range of dimensions")]
    SizeOutOfRange,
    #[error("a page's box would nest more than 500 deep")]
    TooDeep,
    #[error("\\output ran too often without shipping a page")]
    TooManyDeadCycles,
    #[error("\\output doesn't end with its group, or leaves \\box255 in use")]
    UnbalancedOutput,
    #[error("out of memory")]
    OutOfMemory,
}

impl From<AllocError> for OutputError {
    ghost from_gives = { λ _ e. e ≡ OutOfMemory };

    fn from(_: AllocError) -> Self {
        OutputError::OutOfMemory
    }
}
