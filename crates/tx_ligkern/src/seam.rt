//! Seams of a composed word.

/// A place of a word at which no ligature crosses it: how many characters stand before the place, how many items these become, and
/// how many, one kern or none, stand before those of the characters behind it.
#[derive(Clone, Copy)]
pub struct Seam {
    pub place: usize,
    pub item: usize,
    pub replaced: u8,
}

/// Seams of a word, in their order.
pub type Seams = tx_list::Items<Seam>;
