//! What setting a paragraph gives.
use tx_bytes::Bytes;
use tx_linebreak::Chosen;
use tx_node::Nodes;

/// A paragraph's lines: what the vertical list gets, and the place of the last line in that; the breaks between them, \prevdepth in sp
/// behind the last one, how bad that one is, and the transcript's lines of their boxes in order.
#[derive(Drop)]
pub struct Lines {
    pub nodes: Nodes,
    pub last: usize,
    pub chosen: Chosen,
    pub depth: i32,
    pub badness: i64,
    pub report: Bytes,
}
