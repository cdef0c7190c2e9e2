//! Where the bytes of files come from.
ghost use Rattle.std.specs.Prelude.{◌≡◌, Option, ℕ, IfSome};
ghost use Rattle.tx_bytes.specs.Files.{Files, content};
ghost use Rattle.tx_io.specs.Source.{FetchGives, FetchCause};

use std::alloc::Global;
use tx_bytes::Bytes;

/// What a source answers when it is asked for a file.
#[derive(Drop)]
pub enum Fetched {
    /// The file's bytes, all of them.
    Found(Bytes),
    /// There is no file of this name.
    Absent,
    /// The file couldn't be read. The source has counted a fault.
    Failed,
    /// There was no memory left.
    OutOfMemory,
}

/// Where the bytes of files come from.
pub trait Source {
    /// The files that it holds, where it tells.
    ghost holds: { Self → Option Files };

    /// How often it has failed, a count that never falls and ends at 2^64 - 1.
    ghost faults: { Self → ℕ };

    /// Fetches the file of this name whole.
    fn fetch(&mut self, alloc: Global, name: &[u8]) -> Fetched
        ensures kept { holds self.new ≡ holds self.old }
        ensures gives { IfSome (holds self.old) (λ files. FetchGives result (content files name.now)) }
        ensures cause { FetchCause result (faults self.old) (faults self.new) };
}
