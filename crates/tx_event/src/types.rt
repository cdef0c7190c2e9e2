//! Asks and replies, and what comes of a turn.

use tx_bytes::Bytes;
use tx_dvi::PageBody;

/// What a machine asks of the files.
#[derive(Drop)]
pub enum Ask {
    /// To open the file of this name; a text that is no name is the name of no file.
    Open(Bytes),
    /// The next line of the file that was opened last.
    Line,
    /// To close the file that was opened last.
    Close,
    /// All bytes of the file of this name, which isn't opened for it.
    Whole(Bytes),
}

/// Which of its kinds an ask is.
#[derive(Clone, Copy, PartialEq, Eq)]
pub enum AskKind {
    Open,
    Line,
    Close,
    Whole,
}

/// What is replied to an ask.
#[derive(Drop)]
pub enum Reply {
    /// The file is open.
    Found,
    /// There is no such file.
    Absent,
    /// The line, with its LF if it has one.
    Line(Bytes),
    /// The file has no further line.
    Ended,
    /// The file's bytes.
    Whole(Bytes),
    /// The file is closed.
    Closed,
}

/// Why a machine stops: by the end of its text, or by an error with its number.
#[derive(Clone, Copy)]
pub enum Stop {
    End,
    Error(u8),
}

/// What came of a turn.
#[derive(Drop)]
pub enum Event {
    /// Nothing that the outside has to know.
    Went,
    /// The machine asks, and goes on once it has the reply.
    Asks(Ask),
    /// A page is done.
    Shipped(PageBody),
    /// The machine goes no further.
    Stopped(Stop),
}
