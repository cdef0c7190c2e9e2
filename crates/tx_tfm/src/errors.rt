//! Why a font can't be read.
use std::alloc::AllocError;
use thiserror::Error;

/// Why a font can't be read.
#[derive(Debug, Drop, Error)]
pub enum FontError {
    /// The bytes, used at that size, break a rule; this is the first one, 1 to 15.
    #[error("bad font: rule {rule}")]
    BadFont { rule: u8 },
    /// There is no memory left.
    #[error(transparent)]
    OutOfMemory(#[from(alloc)] AllocError),
}
