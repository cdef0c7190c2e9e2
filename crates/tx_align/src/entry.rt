//! What cells ask of columns (TeX: The Program, sections 796 to 798).
use tx_list::Items;

/// A cell of columns, counted from 0, up to the one before `end`, and how wide it is, in sp.
#[derive(Clone, Copy)]
pub(crate) struct Entry {
    pub first: usize,
    pub end: usize,
    pub width: i32,
}

/// The cells that were met, and the column of the next one.
#[derive(Drop)]
pub(crate) struct Met {
    pub at: usize,
    pub entries: Items<Entry>,
}
