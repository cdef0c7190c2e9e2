//! Standard output and the current folder, as a sink.
ghost use Rattle.std.specs.Prelude.{◌≡◌, None};
ghost use Rattle.tx_io.specs.Sink.{PutCause};

use crate::cause::{Cause, cause_of};
use crate::files_read::FilesRead;
use crate::saving::save_file;
use crate::sink::{Put, Sink};
use std::alloc::{AllocError, Global};
use std::io::{self, ErrorKind, Write};
use std::marker::Model;
use std::rt::Files;
use tx_bytes::Bytes;

/// Standard output and the files of the current folder, as a sink. What they hold is known to nobody.
#[derive(Drop)]
pub struct DirSink<'a, R: Files + Print> {
    rt: &'a R,
    alloc: Global,
    read: &'a FilesRead,
    /// Whether what was said, and the names of what was saved, are kept.
    keeps: bool,
    faults: u64,
    said: Bytes,
    saved: Vec<Bytes>,
    cause: Option<Cause>,
}

impl<'a, R: Files + Print> Model for DirSink<'a, R> {
    ghost use Rattle.std.specs.Prelude.{ℕ};

    ghost Value = { ℕ };

    ghost view = { λ s. s.faults };
}

impl<'a, R: Files + Print> DirSink<'a, R> {
    /// Standard output and the current folder, with no fault counted; the files in `read` are never saved over.
    pub fn new(rt: &'a R, alloc: Global, read: &'a FilesRead) -> Self
        ensures { result ≡ 0 }
    {
        DirSink {
            rt,
            alloc,
            read,
            keeps: true,
            faults: 0,
            said: Bytes::new(alloc),
            saved: Vec::new(alloc),
            cause: None,
        }
    }

    /// The same, of which nothing is kept that was put out, however much that may be.
    pub fn passing(rt: &'a R, alloc: Global, read: &'a FilesRead) -> Self
        ensures { result ≡ 0 }
    {
        let mut sink = DirSink::new(rt, alloc, read);
        sink.keeps = false;
        sink
    }

    /// What was said, each text that was taken whole, as far as there was memory to keep it.
    pub fn said(&self) -> &[u8] {
        self.said.as_slice()
    }

    /// The names of the files that were saved, in order, as far as there was memory to keep them.
    pub fn saved(&self) -> &[Bytes] {
        self.saved.as_slice()
    }

    /// Why the last text or file that wasn't put out whole wasn't.
    pub fn cause(&self) -> Option<&Cause> {
        self.cause.as_ref()
    }

    // What a write that ended so means, and the fault that it counts.
    fn answer(&mut self, name: Option<&[u8]>, written: io::Result<()>) -> Put
        ensures { PutCause result self.old self.new }
    {
        let Err(error) = written else {
            return Put::Done;
        };
        let kind = error.kind();
        self.cause = cause_of(self.alloc, name, error);
        match kind {
            ErrorKind::OutOfMemory => Put::OutOfMemory,
            _ => {
                self.faults = self.faults.saturating_add(1);
                Put::Failed
            }
        }
    }

    fn note_saved(&mut self, name: &[u8]) -> Result<(), AllocError>
        ensures { self.new ≡ self.old }
    {
        let name = Bytes::from_slice(self.alloc, name)?;
        self.saved.push(name)?;
        Ok(())
    }
}

impl<'a, R: Files + Print> Sink for DirSink<'a, R> {
    ghost output = { λ _. None };

    ghost faults = { λ s. s };

    fn say(&mut self, bytes: &[u8]) -> Put {
        let written = io::writer(self.rt).write_all(bytes);
        if self.keeps && written.is_ok() {
            let _ = self.said.append(bytes);
        }
        self.answer(None, written)
    }

    /// A file that was read is left as it is: to save over it counts a fault.
    fn save(&mut self, name: &[u8], bytes: &[u8]) -> Put {
        let written = save_file(self.rt, self.alloc, self.read, name, bytes);
        if self.keeps && written.is_ok() {
            let _ = self.note_saved(name);
        }
        self.answer(Some(name), written)
    }
}
