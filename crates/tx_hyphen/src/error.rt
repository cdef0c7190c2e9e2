//! Why a pattern or an exception is refused.

ghost use Rattle.std.specs.Prelude.{◌≡◌, ◌↔◌, IsNone, IfSome};
ghost use Rattle.tx_hyphen.specs.declared.error.ExceptionError.TheVariants as exceptions;
ghost use Rattle.tx_hyphen.specs.declared.error.PatternError.TheVariants as patterns;

use std::alloc::AllocError;
use thiserror::Error;

/// TeX's number of a refused pattern or exception among the errors of a run.
pub const REFUSED: u8 = 33;

/// Why \patterns refuses a text.
#[derive(Debug, Clone, Copy, Error)]
pub enum PatternError {
    #[error("a pattern has a character that is no letter, no digit and no `.`")]
    NotALetter,
    #[error("a pattern has the letters of an earlier one")]
    Duplicate,
    #[error("out of memory")]
    OutOfMemory,
}

/// Why \hyphenation refuses a text.
#[derive(Debug, Clone, Copy, Error)]
pub enum ExceptionError {
    #[error("an exception has a character that is no letter and no `-`")]
    NotALetter,
    #[error("out of memory")]
    OutOfMemory,
}

impl PatternError {
    /// TeX's number of the error; want of memory has none.
    pub fn number(self) -> Option<u8>
        ensures none { IsNone result ↔ (self ≡ PatternError.OutOfMemory) }
        ensures some { IfSome result (λ number. number ≡ REFUSED) }
    {
        match self {
            PatternError::NotALetter | PatternError::Duplicate => Some(REFUSED),
            PatternError::OutOfMemory => None,
        }
    }
}

impl From<AllocError> for PatternError {
    ghost from_gives = { λ _ e. e ≡ patterns.OutOfMemory };

    fn from(_error: AllocError) -> PatternError {
        PatternError::OutOfMemory
    }
}

impl ExceptionError {
    /// TeX's number of the error; want of memory has none.
    pub fn number(self) -> Option<u8>
        ensures none { IsNone result ↔ (self ≡ ExceptionError.OutOfMemory) }
        ensures some { IfSome result (λ number. number ≡ REFUSED) }
    {
        match self {
            ExceptionError::NotALetter => Some(REFUSED),
            ExceptionError::OutOfMemory => None,
        }
    }
}

impl From<AllocError> for ExceptionError {
    ghost from_gives = { λ _ e. e ≡ exceptions.OutOfMemory };

    fn from(_error: AllocError) -> ExceptionError {
        ExceptionError::OutOfMemory
    }
}
