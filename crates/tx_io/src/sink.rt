//! Where text and files go.
ghost use Rattle.std.specs.Prelude.{Option, ℕ};
ghost use Rattle.tx_io.specs.Output.{Output, Say, Save};
ghost use Rattle.tx_io.specs.Sink.{PutGives, PutCause};

/// What a sink answers when it is given something to put out.
#[derive(Clone, Copy)]
pub enum Put {
    /// It took all of it.
    Done,
    /// It took a part of it at most. The sink has counted a fault.
    Failed,
    /// There was no memory left; it took a part of it at most.
    OutOfMemory,
}

/// Where a program's text and files go.
pub trait Sink {
    /// All that was put out so far, where it tells.
    ghost output: { Self → Option Output };

    /// How often it has failed, a count that never falls and ends at 2^64 - 1.
    ghost faults: { Self → ℕ };

    /// Says these bytes, behind what was said before.
    fn say(&mut self, bytes: &[u8]) -> Put
        ensures gives { PutGives result (output self.old) (Say bytes.now) (output self.new) }
        ensures cause { PutCause result (faults self.old) (faults self.new) };

    /// Saves these bytes as the file of this name, in the place of what it held before. Any name will do.
    fn save(&mut self, name: &[u8], bytes: &[u8]) -> Put
        ensures gives { PutGives result (output self.old) (Save name.now bytes.now) (output self.new) }
        ensures cause { PutCause result (faults self.old) (faults self.new) };
}
