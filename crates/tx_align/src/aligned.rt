//! What an alignment becomes.
use crate::cell::Cell;
use tx_bytes::Bytes;
use tx_list::Items;
use tx_node::Nodes;

/// An alignment that has ended: its vertical list, how bad the box of its preamble is, and the transcript's line of that, if it has
/// one.
#[derive(Drop)]
pub struct Aligned {
    pub nodes: Nodes,
    pub badness: i64,
    pub report: Bytes,
}

/// The list so far, and the cells of the row that hasn't ended.
#[derive(Drop)]
pub(crate) struct Laid {
    pub nodes: Nodes,
    pub cells: Items<Cell>,
}
