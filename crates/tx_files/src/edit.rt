//! Edits of files, and how they are taken back.
ghost use Rattle.std.specs.Prelude.{◌≡◌};
ghost use Rattle.tx_files.specs.declared.edit.BatchRefusal.TheVariants as batch;
ghost use Rattle.tx_files.specs.declared.edit.Refusal.TheVariants.{OutOfMemory};

use crate::name::Name;
use std::alloc::AllocError;
use tx_bytes::Bytes;

/// A change of one file: from `place` on, counted in bytes from the file's start, `removed` bytes are taken out, and
/// `put` stands in their stead. The file may be absent; then it is made.
#[derive(Drop)]
pub struct Edit {
    pub name: Name,
    pub place: u64,
    pub removed: u64,
    pub put: Bytes,
}

/// A clone is the same edit. Its only error is want of memory.
impl Clone for Edit {
    ghost is_clone = { λ source copy. copy ≡ source };

    fn clone(&self) -> Result<Self, AllocError> {
        Ok(Edit {
            name: self.name.clone()?,
            place: self.place,
            removed: self.removed,
            put: self.put.clone()?,
        })
    }
}

/// A change of a set of files.
#[derive(Drop)]
pub enum Change {
    /// A file is edited.
    Edit(Edit),
    /// The file of this name is taken away; where there is none, nothing changes.
    Remove(Name),
}

/// How an edit that was made is taken back: what its file held before.
#[derive(Drop)]
pub enum Undo {
    /// There was no file.
    Absent,
    /// All that it held.
    Whole(Bytes),
    /// What stood in it from a place on, where as many bytes stand now; all else is the same.
    Part { place: usize, bytes: Bytes },
}

/// Why an edit wasn't made. Nothing has changed then.
#[derive(Clone, Copy)]
pub enum Refusal {
    /// The edit goes past the end of its file, which has `len` bytes; an absent file has none.
    Outside { len: u64 },
    /// There was no memory left.
    OutOfMemory,
}

impl From<AllocError> for Refusal {
    ghost from_gives = { λ _ e. e ≡ OutOfMemory };

    fn from(_: AllocError) -> Refusal {
        Refusal::OutOfMemory
    }
}

/// Why a list of changes wasn't made. Nothing has changed then.
#[derive(Clone, Copy)]
pub enum BatchRefusal {
    /// The change of this number, counted from 1, goes past the end of its file, which has `len` bytes as the changes before
    /// it leave it; an absent file has none.
    Outside { index: u64, len: u64 },
    /// There was no memory left.
    OutOfMemory,
}

impl From<AllocError> for BatchRefusal {
    ghost from_gives = { λ _ e. e ≡ batch.OutOfMemory };

    fn from(_: AllocError) -> BatchRefusal {
        BatchRefusal::OutOfMemory
    }
}
