//! Where a word may be divided.

/// A division of a word at a place, between the seams `from` and `to`, which are the place itself where it is a seam: so many items
/// of the word stand before its discretionary, and so many behind it are the no-break text. Places are counted by the characters
/// before them.
#[derive(Clone, Copy)]
pub struct Division {
    pub from: usize,
    pub place: usize,
    pub to: usize,
    pub item: usize,
    pub replaced: u8,
}

/// The divisions of a word, in the order of its places.
pub type Divisions = tx_list::Items<Division>;
