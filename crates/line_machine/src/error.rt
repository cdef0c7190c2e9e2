//! What stops a run for good.
ghost use Rattle.std.specs.Prelude.{◌≡◌};
ghost use Rattle.line_machine.specs.Errors.{number_of};

use thiserror::Error;

/// The error that ends a run.
#[derive(Clone, Copy, Debug, PartialEq, Eq, Error)]
pub enum LineError {
    #[error("a line has more than 200,000 bytes before its LF")]
    TooLong,
    #[error("a file is absent")]
    FileAbsent,
    #[error("a file has ended and no line of it led back or was a lone full stop")]
    NoEnd,
}

impl LineError {
    /// The error's number, as a run prints it.
    pub fn number(self) -> u8
        ensures { result ≡ number_of self }
    {
        match self {
            LineError::TooLong => 1,
            LineError::FileAbsent => 2,
            LineError::NoEnd => 3,
        }
    }
}
