//! The current folder, and folders behind it, as a source.
ghost use Rattle.std.specs.Prelude.{◌≡◌, false, None};
ghost use Rattle.tx_io.specs.Source.{FetchCause};
ghost use Rattle.tx_io.specs.Names.{is_name};

use crate::cause::{Cause, cause_of};
use crate::files_read::FilesRead;
use crate::names::{is_name, path_of};
use crate::places::places;
use crate::source::{Fetched, Source};
use std::alloc::{AllocError, Global};
use std::fs;
use std::io::{self, ErrorKind, Read};
use std::marker::Model;
use std::rt::Files;
use tx_bytes::Bytes;

/// No longer file is read, in bytes.
const MAX_FILE_LEN: u64 = 67_108_864;

/// The files of the current folder, and behind it of the folders of a path, as a source. What they hold is known to nobody.
#[derive(Drop)]
pub struct DirSource<'a, R: Files> {
    rt: &'a R,
    read: &'a FilesRead,
    path: &'a str,
    faults: u64,
    cause: Option<Cause>,
}

impl<'a, R: Files> Model for DirSource<'a, R> {
    ghost use Rattle.std.specs.Prelude.{ℕ};

    ghost Value = { ℕ };

    ghost view = { λ s. s.faults };
}

fn read_file<R: Files>(rt: &R, alloc: Global, place: &[u8]) -> io::Result<Bytes> {
    let mut bytes = Vec::new(alloc);
    fs::open(rt, path_of(place)?)?
        .take(MAX_FILE_LEN + 1)
        .read_to_end(&mut bytes)?;
    if bytes.len() as u64 > MAX_FILE_LEN {
        return Err(io::Error::from(ErrorKind::FileTooLarge));
    }
    Ok(Bytes::from_vec(bytes))
}

/// The file's bytes, and its name and place noted.
fn noted(read: &FilesRead, name: &[u8], place: &[u8], bytes: Bytes) -> Result<Bytes, AllocError> {
    read.note(name, place)?;
    Ok(bytes)
}

impl<'a, R: Files> DirSource<'a, R> {
    /// The current folder alone, with no fault counted; what is read is noted in `read`.
    pub fn new(rt: &'a R, read: &'a FilesRead) -> Self
        ensures { result ≡ 0 }
    {
        DirSource::along(rt, "", read)
    }

    /// The current folder, and behind it the folders that stand between the colons of a path.
    pub fn along(rt: &'a R, path: &'a str, read: &'a FilesRead) -> Self
        ensures { result ≡ 0 }
    {
        DirSource {
            rt,
            read,
            path,
            faults: 0,
            cause: None,
        }
    }

    /// Why the last file that is there and wasn't found couldn't be read.
    pub fn cause(&self) -> Option<&Cause> {
        self.cause.as_ref()
    }

    // Why a file couldn't be read is kept.
    fn keep(&mut self, alloc: Global, place: &[u8], error: io::Error)
        ensures { self.new ≡ self.old }
    {
        self.cause = cause_of(alloc, Some(place), error);
    }

    // What an error of reading means, and the fault that it counts.
    fn unread(&mut self, alloc: Global, place: &[u8], error: io::Error) -> Fetched
        ensures { FetchCause result self.old self.new }
    {
        match error.kind() {
            ErrorKind::NotFound | ErrorKind::NotADirectory => Fetched::Absent,
            ErrorKind::OutOfMemory => {
                self.keep(alloc, place, error);
                Fetched::OutOfMemory
            }
            _ => {
                self.keep(alloc, place, error);
                self.faults = self.faults.saturating_add(1);
                Fetched::Failed
            }
        }
    }

    // The file at this place.
    fn fetch_at(&mut self, alloc: Global, name: &[u8], place: &[u8]) -> Fetched
        ensures { FetchCause result self.old self.new }
    {
        match read_file(self.rt, alloc, place) {
            Ok(bytes) => match noted(self.read, name, place, bytes) {
                Ok(bytes) => Fetched::Found(bytes),
                Err(_) => Fetched::OutOfMemory,
            },
            Err(error) => self.unread(alloc, place, error),
        }
    }

    // The file at the first of these places where there is one.
    fn fetch_first(&mut self, alloc: Global, name: &[u8], places: &[Bytes]) -> Fetched
        ensures { FetchCause result self.old self.new }
    {
        for place in places {
            match self.fetch_at(alloc, name, place.as_slice()) {
                Fetched::Absent => {}
                answer => return answer,
            }
        }
        Fetched::Absent
    }
}

impl<'a, R: Files> Source for DirSource<'a, R> {
    ghost holds = { λ _. None };

    ghost faults = { λ s. s };

    /// A file that isn't there is absent, and so is a name that no file may have. A file that can't be read, or is too
    /// long, counts a fault, also where there is another one farther along the path.
    fn fetch(&mut self, alloc: Global, name: &[u8]) -> Fetched
        ensures cause { FetchCause result self.old self.new }
        ensures named { is_name name.now ≡ false → result ≡ Fetched.Absent }
    {
        if !is_name(name) {
            return Fetched::Absent;
        }
        match places(alloc, self.path.as_bytes(), name) {
            Ok(places) => self.fetch_first(alloc, name, places.as_slice()),
            Err(_) => Fetched::OutOfMemory,
        }
    }
}
