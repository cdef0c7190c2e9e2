//! Documents of a file or two.
use std::alloc::{AllocError, Global};
use tx_bytes::Bytes;
use tx_cases::bytes_of;
use tx_files::{FileSet, Name};

/// The name of the main file.
pub fn main_name(alloc: Global) -> Result<Name, AllocError> {
    match Name::new(Bytes::from_slice(alloc, b"main")?) {
        Some(name) => Ok(name),
        None => Err(AllocError),
    }
}

/// A set with this one file of what a text stands for; with none, where that is no name.
pub fn set_of(alloc: Global, name: &str, text: &str) -> Result<FileSet, AllocError> {
    let mut files = FileSet::new(alloc);
    put(alloc, &mut files, name, text)?;
    Ok(files)
}

/// Puts a file of what a text stands for into a set; leaves it where that is no name.
pub fn put(alloc: Global, files: &mut FileSet, name: &str, text: &str) -> Result<(), AllocError> {
    let bytes = bytes_of(alloc, text)?;
    match Name::new(Bytes::from_slice(alloc, name.as_bytes())?) {
        Some(name) => files.put(name, bytes),
        None => Ok(()),
    }
}
