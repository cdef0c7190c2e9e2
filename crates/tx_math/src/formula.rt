//! What a formula gives.
use tx_bytes::Bytes;
use tx_node::Nodes;

/// The horizontal list of a formula, and the transcript's lines of it: those of characters that their fonts lack, and of boxes in
/// it that are set to a size.
#[derive(Drop)]
pub struct Formula {
    pub nodes: Nodes,
    pub report: Bytes,
}
