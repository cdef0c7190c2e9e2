//! Why a page can't be built.
ghost use Rattle.std.specs.Prelude.{◌≡◌};
ghost use Rattle.tx_pagebuilder.specs.declared.error.PageError.TheVariants.{OutOfMemory};

use std::alloc::AllocError;
use thiserror::Error;

/// Why a node can't be contributed to a page, or a page not be fired.
#[derive(Clone, Copy, Debug, Error)]
pub enum PageError {
    #[error("an insertion of class 255")]
    ClassOutOfRange,
    #[error("a sum of sizes or penalties of a page leaves its range")]
    SizeOutOfRange,
    #[error("a box of an insertion would nest more than 500 deep")]
    TooDeep,
    #[error("glue of a page shrinks infinitely")]
    EndlessShrink,
    #[error("the box of an insertion's class is an \\hbox")]
    WrongBox,
    #[error("out of memory")]
    OutOfMemory,
}

impl From<AllocError> for PageError {
    ghost from_gives = { λ _ e. e ≡ OutOfMemory };

    fn from(_: AllocError) -> Self {
        PageError::OutOfMemory
    }
}
