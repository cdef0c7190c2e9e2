//! Where bytes come in, one after the other.
ghost use Rattle.std.specs.Prelude.{List, Option, ℕ, take};
ghost use Rattle.tx_io.specs.Inlet.{ComesFrom, ComeCause, PassGives, PassCause, line_of};

use std::alloc::Global;
use tx_bytes::Bytes;

/// What an inlet answers when it is asked for bytes.
#[derive(Drop)]
pub enum Came {
    /// These came; none exactly where all have come, or none were asked for.
    Here(Bytes),
    /// They couldn't be read, and of what the inlet tells none was taken. It has counted a fault.
    Failed,
    /// There was no memory left for them.
    OutOfMemory,
}

/// What an inlet answers when it is to pass over bytes.
#[derive(Clone, Copy)]
pub enum Passed {
    /// It has done so.
    Done,
    /// They couldn't be read, and of what the inlet tells none was taken. It has counted a fault.
    Failed,
}

/// Where bytes come in, one after the other, each of them once.
pub trait Inlet {
    /// The bytes that are still to come, where it tells.
    ghost left: { Self → Option (List ℕ) };

    /// How often it has failed, a count that never falls and ends at 2^64 - 1.
    ghost faults: { Self → ℕ };

    /// Reads the next line with its LF, or what there is of it where no LF comes, but no more than so many bytes.
    fn line(&mut self, alloc: Global, most: usize) -> Came
        ensures gives { ComesFrom result (λ bytes. take most (line_of bytes)) (left self.old) (left self.new) }
        ensures cause { ComeCause result (faults self.old) (faults self.new) };

    /// Reads so many bytes, or fewer where no more come.
    fn bytes(&mut self, alloc: Global, count: usize) -> Came
        ensures gives { ComesFrom result (λ bytes. take count bytes) (left self.old) (left self.new) }
        ensures cause { ComeCause result (faults self.old) (faults self.new) };

    /// Passes over the next line and its LF; it takes no memory.
    fn pass_line(&mut self) -> Passed
        ensures gives { PassGives result (left self.old) (left self.new) }
        ensures cause { PassCause result (faults self.old) (faults self.new) };
}
