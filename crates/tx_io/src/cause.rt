//! Why something failed at the real edge.
use std::alloc::Global;
use std::io;
use tx_bytes::Bytes;

/// Why something failed at the real edge.
#[derive(Drop)]
pub struct Cause {
    /// The name of the file that was to be read or saved; None where it was standard output.
    pub name: Option<Bytes>,
    /// The system's error, or one whose text says why the file was left alone.
    pub error: io::Error,
}

/// The cause, as long as there is memory for the name.
pub(crate) fn cause_of(alloc: Global, name: Option<&[u8]>, error: io::Error) -> Option<Cause> {
    let Some(name) = name else {
        return Some(Cause { name: None, error });
    };
    let name = Bytes::from_slice(alloc, name).ok()?;
    Some(Cause {
        name: Some(name),
        error,
    })
}
