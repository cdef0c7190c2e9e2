//! Columns with their widths.
use tx_list::Items;
use tx_num::Glue;

/// A column: where it begins naturally, behind the glue before the first one, how wide it is, in sp, and the glue behind it.
#[derive(Clone, Copy)]
pub(crate) struct SizedColumn {
    pub begins: i32,
    pub width: i32,
    pub skip: Glue,
}

/// The columns that have their widths, and where the next one begins, in sp.
#[derive(Drop)]
pub(crate) struct Sizing {
    pub columns: Items<SizedColumn>,
    pub begins: i32,
}
