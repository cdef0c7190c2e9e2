//! What a run goes on with, and what the turns of a page came to.
use crate::lists::Opens;
use crate::types::Close;
use tx_bytes::Bytes;

/// What a run goes on with: the machine's state, the open files, and what is left of the page's budget.
#[derive(Drop)]
pub struct Spot<S> {
    pub state: S,
    pub opens: Opens,
    pub left: u64,
}

/// What ended the turns of a page, the piece of the transcript that they gave, and how many they were.
#[derive(Drop)]
pub struct Closed {
    pub close: Close,
    pub piece: Bytes,
    pub turns: u64,
}
