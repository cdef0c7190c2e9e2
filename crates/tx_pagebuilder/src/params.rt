//! What building a page is given beside the nodes.
use crate::boxes::BoxList;
use tx_num::Glue;

/// The registers of a class of insertions: the height plus depth of its box in sp, None where that is void, and whether the box is
/// an \hbox; its \count, its \dimen in sp, and its \skip.
#[derive(Clone, Copy)]
pub struct ClassParams {
    pub box_size: Option<i64>,
    pub is_hbox: bool,
    pub count: i32,
    pub dimen: i32,
    pub skip: Glue,
}

/// Parameters and registers as they stand at a call: \vsize and \maxdepth in sp, \topskip, \holdinginserts; where an insertion is
/// contributed, the registers of its class, which are void and zero where none are given; and where a page is fired, the boxes of
/// the classes on it, those that are void left out.
#[derive(Drop)]
pub struct PageParams {
    pub vsize: i32,
    pub max_depth: i32,
    pub top_skip: Glue,
    pub holding_inserts: i32,
    pub class: Option<ClassParams>,
    pub boxes: BoxList,
}
