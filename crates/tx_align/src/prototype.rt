//! The preamble's box, by which rows are set (TeX: The Program, section 804).
use crate::sized::SizedColumn;
use tx_bytes::Bytes;
use tx_list::Items;
use tx_node::BoxHead;
use tx_num::Glue;

/// A column, and how far set glue moves it, in sp.
#[derive(Clone, Copy)]
pub(crate) struct PlacedColumn {
    pub sized: SizedColumn,
    pub shift: i64,
}

/// What the preamble's box is beside its list, the glue before the first column, and the columns.
#[derive(Drop)]
pub(crate) struct Prototype {
    pub head: BoxHead,
    pub first: Glue,
    pub columns: Items<PlacedColumn>,
}

/// The same with how bad the box is, and the transcript's line of it, if it has one.
#[derive(Drop)]
pub(crate) struct Made {
    pub prototype: Prototype,
    pub badness: i64,
    pub report: Bytes,
}
