//! A line of a paragraph.
use tx_node::Nodes;

/// What stands in a line's box, and what follows this box in the vertical list.
#[derive(Drop)]
pub struct Line {
    pub own: Nodes,
    pub behind: Nodes,
}
