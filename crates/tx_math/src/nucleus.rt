//! What stands in a list for the nucleus of an atom (TeX: The Program, section 754).
use tx_node::Nodes;

/// What stands for a nucleus: its nodes; where it is no character, how high and how deep it is, in sp; and how much further to the
/// right than its subscript its superscript stands, in sp.
#[derive(Drop)]
pub struct Nucleus {
    pub nodes: Nodes,
    pub edges: Option<(i64, i64)>,
    pub offset: i64,
}
