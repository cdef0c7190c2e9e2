//! Cells of a row.
use tx_node::{BoxNode, Nodes};

/// A cell of so many columns, with its list.
#[derive(Drop)]
pub(crate) struct Cell {
    pub span: u32,
    pub list: Nodes,
}

/// A cell of so many columns, in its box.
#[derive(Drop)]
pub(crate) struct SetCell {
    pub span: u32,
    pub node: BoxNode,
}
