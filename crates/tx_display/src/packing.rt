//! Errors of packing and of leading, as those of a display.
ghost use Rattle.std.specs.Prelude.{◌≡◌};
ghost use Rattle.tx_display.specs.Errors.{of_leading, of_packing};

use crate::error::DisplayError;
use tx_nest::NestError;
use tx_pack::PackError;

impl From<PackError> for DisplayError {
    ghost from_gives = { λ error e. e ≡ of_packing error };

    fn from(error: PackError) -> Self {
        match error {
            PackError::SizeOutOfRange => DisplayError::SizeOutOfRange,
            PackError::TooDeep => DisplayError::TooDeep,
            PackError::OutOfMemory => DisplayError::OutOfMemory,
        }
    }
}

impl From<NestError> for DisplayError {
    ghost from_gives = { λ error e. e ≡ of_leading error };

    fn from(error: NestError) -> Self {
        match error {
            NestError::SizeOutOfRange => DisplayError::SizeOutOfRange,
            NestError::OutOfMemory => DisplayError::OutOfMemory,
        }
    }
}
