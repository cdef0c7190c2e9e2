//! Standard input, or any other reader, as an inlet.
ghost use Rattle.std.specs.Prelude.{◌≡◌, None};
ghost use Rattle.tx_io.specs.Faults.{CountsFault};
ghost use Rattle.tx_io.specs.Inlet.{ComeCause};

use crate::inlet::{Came, Inlet, Passed};
use std::alloc::Global;
use std::io::{self, BufRead, ErrorKind, Read};
use std::marker::Model;
use tx_bytes::Bytes;

/// A reader as an inlet, as standard input behind a buffer. What comes is known to nobody.
#[derive(Drop)]
pub struct StdInlet<B: BufRead> {
    reader: B,
    faults: u64,
    cause: Option<io::Error>,
}

impl<B: BufRead> Model for StdInlet<B> {
    ghost use Rattle.std.specs.Prelude.{ℕ};

    ghost Value = { ℕ };

    ghost view = { λ s. s.faults };
}

impl<B: BufRead> StdInlet<B> {
    /// What this reader gives, with no fault counted.
    pub fn new(reader: B) -> Self
        ensures { result ≡ 0 }
    {
        StdInlet {
            reader,
            faults: 0,
            cause: None,
        }
    }

    /// Why the last bytes that were wanted couldn't be read.
    pub fn cause(&self) -> Option<&io::Error> {
        self.cause.as_ref()
    }

    // Notes why bytes couldn't be read, and counts a fault.
    fn fail(&mut self, error: io::Error)
        ensures { CountsFault self.old self.new }
    {
        self.cause = Some(error);
        self.faults = self.faults.saturating_add(1);
    }

    // What it means that reading ended so.
    fn answer(&mut self, bytes: Vec<u8>, read: io::Result<usize>) -> Came
        ensures { ComeCause result self.old self.new }
    {
        let Err(error) = read else {
            return Came::Here(Bytes::from_vec(bytes));
        };
        if let ErrorKind::OutOfMemory = error.kind() {
            return Came::OutOfMemory;
        }
        self.fail(error);
        Came::Failed
    }
}

impl<B: BufRead> Inlet for StdInlet<B> {
    ghost left = { λ _. None };

    ghost faults = { λ s. s };

    fn line(&mut self, alloc: Global, most: usize) -> Came {
        let mut bytes = Vec::new(alloc);
        let front = Read::by_ref(&mut self.reader);
        let read = front.take(most as u64).read_until(b'\n', &mut bytes);
        self.answer(bytes, read)
    }

    fn bytes(&mut self, alloc: Global, count: usize) -> Came {
        let mut bytes = Vec::new(alloc);
        let front = Read::by_ref(&mut self.reader);
        let read = front.take(count as u64).read_to_end(&mut bytes);
        self.answer(bytes, read)
    }

    fn pass_line(&mut self) -> Passed {
        match self.reader.skip_until(b'\n') {
            Ok(_) => Passed::Done,
            Err(error) => {
                self.fail(error);
                Passed::Failed
            }
        }
    }
}
