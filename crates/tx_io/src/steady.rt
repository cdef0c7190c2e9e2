//! A source, an inlet and a sink in memory that never fail.
ghost use Rattle.std.specs.Prelude.{◌≡◌, ◌≤◌, Some, IfSome, OnOk, OnErr, [], length, take};
ghost use Rattle.std.specs.FinMap.{empty, insert};
ghost use Rattle.tx_bytes.specs.Files.{content};
ghost use Rattle.tx_io.specs.Source.{FetchGives, FetchCause};
ghost use Rattle.tx_io.specs.Inlet as spec;
ghost use Rattle.tx_io.specs.Inlet.{ComesFrom, ComeCause, PassGives, PassCause, line_of};
ghost use Rattle.tx_io.specs.Output.{Say, Save};
ghost use Rattle.tx_io.specs.Sink.{PutGives, PutCause};

use crate::file_map::FileMap;
use crate::inlet::{Came, Inlet, Passed};
use crate::sink::{Put, Sink};
use crate::source::{Fetched, Source};
use std::alloc::{AllocError, Global};
use std::marker::Model;
use tx_bytes::Bytes;

/// A source in memory that never fails.
#[derive(Drop)]
pub struct SteadySource {
    files: FileMap,
}

impl Model for SteadySource {
    ghost use Rattle.tx_bytes.specs.Files.{Files};
    ghost use Rattle.tx_io.specs.Memory.{files_code};

    ghost Value = { Files };

    ghost coded = { files_code };

    ghost view = { λ s. s.files };
}

impl SteadySource {
    /// A source without files; takes no memory.
    pub fn new(alloc: Global) -> SteadySource
        ensures { result ≡ empty }
    {
        SteadySource {
            files: FileMap::new(alloc),
        }
    }

    /// Gives it a file, in the place of one of that name. After want of memory nothing has changed.
    pub fn put(&mut self, alloc: Global, name: &[u8], bytes: &[u8]) -> Result<(), AllocError>
        ensures ok { OnOk result (self.new ≡ insert self.old name.now bytes.now) }
        ensures err { OnErr result (self.new ≡ self.old) }
    {
        self.files.put(alloc, name, bytes)
    }
}

impl Source for SteadySource {
    ghost holds = { λ s. Some s };

    ghost faults = { λ _. 0 };

    fn fetch(&mut self, alloc: Global, name: &[u8]) -> Fetched
        ensures kept { self.new ≡ self.old }
        ensures gives { FetchGives result (content self.old name.now) }
        ensures cause { FetchCause result 0 0 }
    {
        match self.files.get(name) {
            None => Fetched::Absent,
            Some(bytes) => match bytes.clone() {
                Ok(copy) => Fetched::Found(copy),
                Err(_) => Fetched::OutOfMemory,
            },
        }
    }
}

/// How long the first line of some bytes is, with its LF; all of them where none comes.
fn line_len(bytes: &[u8]) -> usize
    ensures len { result ≡ spec.line_len bytes.now }
    ensures within { result ≤ length bytes.now }
{
    for (at, byte) in bytes.iter().enumerate() {
        if *byte == b'\n' {
            return at + 1;
        }
    }
    bytes.len()
}

/// An inlet in memory that never fails.
#[derive(Drop)]
pub struct SteadyInlet {
    /// All that comes.
    all: Bytes,
    /// How many of these bytes are still to come.
    left: usize,
}

impl Model for SteadyInlet {
    ghost use Rattle.std.specs.Prelude.{List, ℕ, ◌-◌, ◌≤◌, length, drop};

    ghost Value = { List ℕ };

    ghost view = { λ s. drop (length s.all - s.left) s.all };

    ghost invariant = { λ s. s.left ≤ length s.all };
}

impl SteadyInlet {
    /// An inlet of which these bytes come; takes no memory.
    pub fn new(bytes: Bytes) -> SteadyInlet
        ensures { result ≡ bytes }
    {
        let left = bytes.len();
        SteadyInlet { all: bytes, left }
    }

    // The bytes that are still to come, lent.
    fn left(&self) -> &[u8]
        ensures { result.now ≡ self.now }
    {
        &self.all.as_slice()[self.all.len() - self.left..]
    }

    // Takes the first of them, so many.
    fn advance(&mut self, alloc: Global, count: usize) -> Came
        requires { count ≤ length self.old }
        ensures gives { ComesFrom result (λ left. take count left) (Some self.old) (Some self.new) }
        ensures cause { ComeCause result 0 0 }
    {
        match Bytes::from_slice(alloc, &self.left()[..count]) {
            Ok(bytes) => {
                self.left -= count;
                Came::Here(bytes)
            }
            Err(_) => Came::OutOfMemory,
        }
    }
}

impl Inlet for SteadyInlet {
    ghost left = { λ s. Some s };

    ghost faults = { λ _. 0 };

    fn line(&mut self, alloc: Global, most: usize) -> Came
        ensures gives { ComesFrom result (λ bytes. take most (line_of bytes)) (Some self.old) (Some self.new) }
        ensures cause { ComeCause result 0 0 }
    {
        let count = line_len(self.left()).min(most);
        self.advance(alloc, count)
    }

    fn bytes(&mut self, alloc: Global, count: usize) -> Came
        ensures gives { ComesFrom result (λ bytes. take count bytes) (Some self.old) (Some self.new) }
        ensures cause { ComeCause result 0 0 }
    {
        let count = self.left().len().min(count);
        self.advance(alloc, count)
    }

    fn pass_line(&mut self) -> Passed
        ensures gives { PassGives result (Some self.old) (Some self.new) }
        ensures cause { PassCause result 0 0 }
    {
        self.left -= line_len(self.left());
        Passed::Done
    }
}

/// A sink in memory that never fails.
#[derive(Drop)]
pub struct SteadySink {
    alloc: Global,
    said: Bytes,
    saved: FileMap,
}

impl Model for SteadySink {
    ghost use Rattle.tx_io.specs.Output.{Output};
    ghost use Rattle.tx_io.specs.Memory.{output_code};

    ghost Value = { Output };

    ghost coded = { output_code };

    ghost view = { λ s. record {
      said = s.said;
      saved = s.saved;
    } };
}

impl SteadySink {
    ghost use Rattle.std.specs.Option.{option_copied};

    /// A sink that has taken nothing yet; takes no memory.
    pub fn new(alloc: Global) -> SteadySink
        ensures said { result.said ≡ [] }
        ensures saved { result.saved ≡ empty }
    {
        SteadySink {
            alloc,
            said: Bytes::new(alloc),
            saved: FileMap::new(alloc),
        }
    }

    /// All that was said, lent.
    pub fn said(&self) -> &[u8]
        ensures { result.now ≡ self.now.said }
    {
        self.said.as_slice()
    }

    /// What was saved under this name, lent; None exactly where nothing was.
    pub fn saved(&self, name: &[u8]) -> Option<&Bytes>
        ensures { option_copied result ≡ content self.now.saved name.now }
    {
        self.saved.get(name)
    }
}

impl Sink for SteadySink {
    ghost output = { λ s. Some s };

    ghost faults = { λ _. 0 };

    fn say(&mut self, bytes: &[u8]) -> Put
        ensures gives { PutGives result (Some self.old) (Say bytes.now) (Some self.new) }
        ensures cause { PutCause result 0 0 }
    {
        match self.said.append(bytes) {
            Ok(()) => Put::Done,
            Err(_) => Put::OutOfMemory,
        }
    }

    fn save(&mut self, name: &[u8], bytes: &[u8]) -> Put
        ensures gives { PutGives result (Some self.old) (Save name.now bytes.now) (Some self.new) }
        ensures cause { PutCause result 0 0 }
    {
        match self.saved.put(self.alloc, name, bytes) {
            Ok(()) => Put::Done,
            Err(_) => Put::OutOfMemory,
        }
    }
}
