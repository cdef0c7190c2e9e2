//! The files that are open, and pages and pieces of the transcript in order.
ghost use Rattle.std.specs.Prelude.{◌≡◌, ◌-◌, ◌∷◌, ◌++◌, [], OnOk, OnErr, IfSome, ◌<◌, length, take, slice_get, slice_set};
ghost use Rattle.std.specs.Option.{option_copied};
ghost use Rattle.tx_machine.specs.Opens.{innermost, moved_to};

use crate::types::OpenFile;
use std::alloc::{AllocError, Global};
use std::marker::Model;
use std::mem;
use tx_bytes::Bytes;
use tx_dvi::PageBody;
use tx_list::Items;

/// The files that are open, the innermost last.
#[derive(Drop)]
pub struct Opens {
    alloc: Global,
    files: Items<OpenFile>,
}

impl Model for Opens {
    ghost use Rattle.std.specs.Prelude.{List};
    ghost use Rattle.tx_machine.specs.declared.types.OpenFile.{OpenFile};

    ghost Value = { List OpenFile };

    ghost view = { λ o. o.files };
}

impl Opens {
    /// No file is open; takes no memory.
    pub fn new(alloc: Global) -> Opens
        ensures { result ≡ [] }
    {
        Opens {
            alloc,
            files: Items::new(alloc),
        }
    }

    /// The files, lent.
    pub fn as_slice(&self) -> &[OpenFile]
        ensures { result.now ≡ self.now }
    {
        self.files.as_slice()
    }

    /// The innermost one.
    pub fn innermost(&self) -> Option<&OpenFile>
        ensures { option_copied result ≡ innermost self.now }
    {
        self.files.as_slice().last()
    }

    /// Opens a file inside the others. After want of memory nothing has changed.
    pub fn push(&mut self, file: OpenFile) -> Result<(), AllocError>
        ensures ok { OnOk result (self.new ≡ self.old ++ file ∷ []) }
        ensures err { OnErr result (self.new ≡ self.old) }
    {
        self.files.push(file)
    }

    /// Moves the innermost one's offset.
    pub fn move_to(&mut self, offset: u64)
        requires { 0 < length self.old }
        ensures { IfSome (innermost self.old) (λ file. self.new ≡ moved_to self.old file offset) }
    {
        let last = self.files.len() - 1;
        self.move_at(last, offset);
    }

    /// Moves the offset of the file at a place of the list.
    pub fn move_at(&mut self, place: usize, offset: u64)
        requires { place < length self.old }
        ensures { IfSome (slice_get self.old place) (λ file. self.new ≡ slice_set self.old place (record file { offset = offset })) }
    {
        let mut files = mem::replace(&mut self.files, Items::new(self.alloc)).into_vec();
        files[place].offset = offset;
        self.files = Items::from_vec(files);
    }

    /// Closes the innermost one, if there is one.
    pub fn pop(&mut self)
        ensures { self.new ≡ take (length self.old - 1) self.old }
    {
        let _closed = self.files.pop();
    }
}

/// A clone has the same files open, each at the same offset. Its only error is want of memory.
impl Clone for Opens {
    ghost is_clone = { λ source copy. copy ≡ source };

    fn clone(&self) -> Result<Self, AllocError> {
        Ok(Opens {
            alloc: self.alloc,
            files: self.files.share()?,
        })
    }
}

/// Page bodies in order.
pub type Pages = Items<PageBody>;

/// Pieces of a transcript in order.
pub type Pieces = Items<Bytes>;
