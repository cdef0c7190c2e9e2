//! Why a formula can't be set.
ghost use Rattle.std.specs.Prelude.{◌≡◌};
ghost use Rattle.tx_math.specs.declared.error.MathError.TheVariants.{OutOfMemory};

use std::alloc::AllocError;
use thiserror::Error;

/// Why a formula can't be set.
#[derive(Clone, Copy, Debug, PartialEq, Eq, Error)]
pub enum MathError {
    #[error("a size, a shift or glue leaves the range of dimensions")]
    SizeOutOfRange,
    #[error("a box would nest more than 500 deep")]
    TooDeep,
    #[error("a character's family has no font")]
    NoFont,
    #[error("a symbol font or an extension font has too few parameters")]
    FewParameters,
    #[error("out of memory")]
    OutOfMemory,
}

impl From<AllocError> for MathError {
    ghost from_gives = { λ _ e. e ≡ OutOfMemory };

    fn from(_: AllocError) -> Self {
        MathError::OutOfMemory
    }
}
