//! What a page that is fired gives.
use crate::boxes::BoxList;
use tx_node::Nodes;
use tx_toklist::TokList;

/// A page that was fired (TeX: The Program, sections 1012 to 1022): its list up to the best break; the goal at this break and the
/// greatest depth of its box, in sp; \outputpenalty; the insertions that are held over; what was contributed from the break on, the
/// last node with it; the boxes of the classes that insertions joined; \insertpenalties, which counts what is held over; and the
/// first and the last mark of its list.
#[derive(Drop)]
pub struct Fired {
    pub list: Nodes,
    pub goal: i64,
    pub maxdepth: i64,
    pub penalty: i32,
    pub held: Nodes,
    pub rest: Nodes,
    pub boxes: BoxList,
    pub insert_penalties: i64,
    pub first: Option<TokList>,
    pub last: Option<TokList>,
}
