//! Places in a list, each counted by the items before it.
use tx_list::Items;

/// A list of places.
pub type Places = Items<usize>;
