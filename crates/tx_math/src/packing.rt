//! Errors of packing, and of drawing delimiters, as those of a formula.
ghost use Rattle.std.specs.Prelude.{◌≡◌};
ghost use Rattle.tx_math.specs.Boxes.{of_drawing, of_packing};

use crate::error::MathError;
use tx_delim::DelimError;
use tx_pack::PackError;

impl From<PackError> for MathError {
    ghost from_gives = { λ e r. r ≡ of_packing e };

    fn from(error: PackError) -> Self {
        match error {
            PackError::SizeOutOfRange => MathError::SizeOutOfRange,
            PackError::TooDeep => MathError::TooDeep,
            PackError::OutOfMemory => MathError::OutOfMemory,
        }
    }
}

impl From<DelimError> for MathError {
    ghost from_gives = { λ e r. r ≡ of_drawing e };

    fn from(error: DelimError) -> Self {
        match error {
            DelimError::SizeOutOfRange => MathError::SizeOutOfRange,
            DelimError::TooDeep => MathError::TooDeep,
            DelimError::OutOfMemory => MathError::OutOfMemory,
        }
    }
}
