//! Why a box can't be shipped.
ghost use Rattle.std.specs.Prelude.{◌≡◌};
ghost use Rattle.tx_ship.specs.declared.error.ShipError.TheVariants.{OutOfMemory};

use std::alloc::AllocError;
use thiserror::Error;

/// Why a box can't be shipped.
#[derive(Clone, Copy, Debug, Error)]
pub enum ShipError {
    #[error("the page is too high, too deep or too wide")]
    SizeTooLarge,
    #[error("a character, a rule, a special or a box lies outside of the page")]
    OutsidePage,
    #[error("the body of the page has more than 200,000 bytes")]
    BodyTooLong,
    #[error("out of memory")]
    OutOfMemory,
}

impl From<AllocError> for ShipError {
    ghost from_gives = { λ _ e. e ≡ OutOfMemory };

    fn from(_: AllocError) -> Self {
        ShipError::OutOfMemory
    }
}
