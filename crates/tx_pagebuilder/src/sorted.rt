//! A page that is fired, above its break.
use crate::boxes::BoxList;
use tx_node::Nodes;

/// Its list, what is held over, and the boxes of classes.
#[derive(Drop)]
pub(crate) struct Sorted {
    pub list: Nodes,
    pub held: Nodes,
    pub boxes: BoxList,
}
