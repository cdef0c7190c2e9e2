//! The items of a list with their styles (TeX: The Program, sections 727 to 731).
use tx_mlist::{AtomKind, Noad};

/// An item, and the style in which it is set; its kind, since a Bin may have become an Ord; and whether a character of its family
/// was composed with it and stands behind it.
#[derive(Drop)]
pub struct Entry {
    pub style: u8,
    pub kind: AtomKind,
    pub joined: bool,
    pub noad: Noad,
}
