//! What a split gives.
use tx_node::Nodes;
use tx_toklist::TokList;

/// A list that was split: what stood before the break, what remains, and the first and the last mark of what stood before the
/// break, None where there is none.
#[derive(Drop)]
pub struct Split {
    pub top: Nodes,
    pub rest: Nodes,
    pub first: Option<TokList>,
    pub last: Option<TokList>,
}
