//! Which files a call has read, so that it saves over none of them.
use crate::names::path_of;
use std::alloc::{AllocError, Global};
use std::cell::RefCell;
use std::fs::Metadata;
use std::os::unix::fs::MetadataExt;
use std::rt::Files;
use tx_bytes::Bytes;

/// A file that was read: the name that was asked for, and the place at which it was found.
#[derive(Drop)]
struct FileRead {
    name: Bytes,
    place: Bytes,
}

/// The files that a call has read. Its source notes them, and its sink saves over none of them.
#[derive(Drop)]
pub struct FilesRead {
    alloc: Global,
    files: RefCell<Vec<FileRead>>,
}

fn is_same(one: &Metadata, other: &Metadata) -> bool {
    one.dev() == other.dev() && one.ino() == other.ino()
}

/// Whether the file that is now at this place is that one.
fn lies_at<R: Files>(rt: &R, place: &Bytes, file: &Metadata) -> bool {
    let Ok(path) = path_of(place.as_slice()) else {
        return false;
    };
    match rt.metadata(path) {
        Ok(found) => is_same(&found, file),
        Err(_) => false,
    }
}

impl FilesRead {
    /// Nothing was read yet; takes no memory.
    pub fn new(alloc: Global) -> FilesRead {
        FilesRead {
            alloc,
            files: RefCell::new(Vec::new(alloc)),
        }
    }

    /// Whether the file of this name was read.
    pub fn contains(&self, name: &[u8]) -> bool {
        match self.files.try_borrow() {
            Ok(files) => files.iter().any(|file| file.name.as_slice() == name),
            Err(_) => false,
        }
    }

    /// Notes that the file of this name was read, at this place.
    pub(crate) fn note(&self, name: &[u8], place: &[u8]) -> Result<(), AllocError> {
        let name = Bytes::from_slice(self.alloc, name)?;
        let place = Bytes::from_slice(self.alloc, place)?;
        let Ok(mut files) = self.files.try_borrow_mut() else {
            return Err(AllocError);
        };
        files.push(FileRead { name, place })?;
        Ok(())
    }

    /// Whether this is a file that was read, by whatever path it was reached: through a link, or under another name.
    pub(crate) fn holds<R: Files>(&self, rt: &R, file: &Metadata) -> bool {
        match self.files.try_borrow() {
            Ok(files) => files.iter().any(|read| lies_at(rt, &read.place, file)),
            Err(_) => true,
        }
    }
}
