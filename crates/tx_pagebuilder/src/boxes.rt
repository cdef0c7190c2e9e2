//! Boxes with their classes.
use tx_list::Items;
use tx_node::BoxNode;

/// The box of a class of insertions.
#[derive(Drop)]
pub struct ClassBox {
    pub class: u8,
    pub node: BoxNode,
}

/// Boxes, each with its class.
pub type BoxList = Items<ClassBox>;
