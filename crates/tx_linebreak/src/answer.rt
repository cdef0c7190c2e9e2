//! What line breaking answers.

/// A list of places.
pub type Places = tx_list::Items<usize>;

/// The chain of breaks that was chosen.
#[derive(Drop)]
pub struct Chosen {
    /// The places of its breaks, in order; the last one is the list's last place.
    pub chain: Places,
    /// The demerits of all its lines.
    pub total: i128,
    /// The pass that found it: 1, 2 or 3.
    pub pass: u8,
    /// The places of the breaks to which no line fitted.
    pub forced: Places,
    /// How many lines more it has than the best chain of its pass; less than 0 where it has fewer.
    pub looseness: i128,
}
