//! What lies around a call, and its files, looked at once more.
use crate::run::text_of;
use std::alloc::{AllocError, Global};
use std::rt::Files;
use tx_bytes::Bytes;
use tx_files::Name;
use tx_io::{DirSource, Fetched, FilesRead, Source};

/// What lies around a call: the current folder, the folders behind it in which files are looked for, with colons between them, and
/// whether standard error is a terminal.
#[derive(Drop)]
pub struct Around<'a, R: Files> {
    pub rt: &'a R,
    pub path: &'a str,
    pub is_terminal: bool,
}

/// Whether a pipe or a device stands at this place, which gives what it has but once.
fn gives_once<R: Files>(rt: &R, place: &str) -> bool {
    match rt.metadata(place) {
        Ok(found) => !found.is_file(),
        Err(_) => false,
    }
}

fn gives_once_in<R: Files>(
    rt: &R,
    alloc: Global,
    folder: &str,
    name: &str,
) -> Result<bool, AllocError> {
    let place = format!(in alloc; "{folder}/{name}")?;
    Ok(gives_once(rt, place.as_str()))
}

/// Whether the file of this name, wherever it lies, can be read again.
fn stays<R: Files>(rt: &R, alloc: Global, path: &str, name: &str) -> Result<bool, AllocError> {
    if gives_once(rt, name) {
        return Ok(false);
    }
    for folder in path.split(':') {
        if gives_once_in(rt, alloc, folder, name)? {
            return Ok(false);
        }
    }
    Ok(true)
}

fn found(answer: Fetched) -> Option<Bytes> {
    match answer {
        Fetched::Found(bytes) => Some(bytes),
        _ => None,
    }
}

fn fetch<R: Files>(rt: &R, alloc: Global, path: &str, name: &[u8]) -> Option<Bytes> {
    let read = FilesRead::new(alloc);
    let mut source = DirSource::along(rt, path, &read);
    found(source.fetch(alloc, name))
}

/// The file of this name, read once more; none where it isn't there, or can be read but once.
pub fn fetched<R: Files>(alloc: Global, around: &Around<'_, R>, name: &Name) -> Option<Bytes> {
    let name = name.as_slice();
    match stays(around.rt, alloc, around.path, text_of(name)) {
        Ok(true) => fetch(around.rt, alloc, around.path, name),
        _ => None,
    }
}
