//! Why an edit or a batch is not taken.
ghost use Rattle.std.specs.Prelude.{◌≡◌};
ghost use Rattle.tx_session.specs.Refusals.{refused};
ghost use Rattle.tx_session.specs.declared.refusal.Refusal.TheVariants as refusals;

use std::alloc::AllocError;
use thiserror::Error;
use tx_files::BatchRefusal;

/// Why an edit or a batch wasn't made. Everything is as before then.
#[derive(Clone, Copy, Debug, Error)]
pub enum Refusal {
    /// The edit goes past the end of its file, which has `len` bytes; an absent file has none.
    #[error("outside, file has {len} bytes")]
    Outside { len: u64 },
    /// There was no memory left.
    #[error("out of memory")]
    OutOfMemory,
    /// The change of this number in the batch, counted from 1, goes past the end of its file, which has `len` bytes as the
    /// changes before it leave it.
    #[error("change {index} outside, file has {len} bytes")]
    BatchOutside { index: u64, len: u64 },
}

impl From<BatchRefusal> for Refusal {
    ghost from_gives = { λ refusal e. e ≡ refused refusal };

    fn from(refusal: BatchRefusal) -> Refusal {
        match refusal {
            BatchRefusal::Outside { index, len } => Refusal::BatchOutside { index, len },
            BatchRefusal::OutOfMemory => Refusal::OutOfMemory,
        }
    }
}

impl From<AllocError> for Refusal {
    ghost from_gives = { λ _ e. e ≡ refusals.OutOfMemory };

    fn from(_: AllocError) -> Refusal {
        Refusal::OutOfMemory
    }
}
