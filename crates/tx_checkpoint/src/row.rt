//! A run as rows, in code.
use tx_bytes::Bytes;
use tx_dvi::PageBody;
use tx_files::Seen;
use tx_machine::{End, Opens};

/// What is kept of a shipped page beside its body and its piece of the transcript: the turns since the row before it,
/// what these read of the files, and the open files and the state after it.
#[derive(Drop)]
pub struct Row<S> {
    pub turns: u64,
    pub seen: Seen,
    pub opens: Opens,
    pub state: S,
}

/// The stretch after the last row: its piece of the transcript, its turns, what they read of the files, the open files
/// after it, and how it ended the run. At the page limit no turn is taken.
#[derive(Drop)]
pub struct Last {
    pub piece: Bytes,
    pub turns: u64,
    pub seen: Seen,
    pub opens: Opens,
    pub end: End,
}

/// A run by its pages: the body, the piece of the transcript and the row of each, in three lists of one length, so that
/// the bodies can be lent as they stand; and the stretch after them.
#[derive(Drop)]
pub struct Rows<S> {
    pub pages: Vec<PageBody>,
    pub pieces: Vec<Bytes>,
    pub rows: Vec<Row<S>>,
    pub last: Last,
}

/// What a stretch of turns came to.
#[derive(Drop)]
pub enum Formatted<S> {
    /// A page.
    Page {
        body: PageBody,
        piece: Bytes,
        row: Row<S>,
    },
    /// The run's end.
    Over(Last),
}
