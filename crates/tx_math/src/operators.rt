//! Parts of large operators (TeX: The Program, section 749).
use tx_node::{BoxNode, Nodes};

/// The box of an operator that is a character: how far it is shifted down, in sp, the box, and its italic correction in sp.
#[derive(Drop)]
pub struct OperatorBox {
    pub shift: i32,
    pub inner: BoxNode,
    pub correction: i64,
}

/// An operator and its limits, of one width.
#[derive(Drop)]
pub struct Limited {
    pub upper: BoxNode,
    pub operator: BoxNode,
    pub lower: BoxNode,
}

/// A limit with the spaces about it, and how far it reaches, in sp.
#[derive(Drop)]
pub struct Limit {
    pub nodes: Nodes,
    pub reach: i64,
}
