//! What the items of a list have become before spaces stand between them.
use tx_mlist::{AtomKind, Delimiter};
use tx_node::{Node, Nodes};

/// An atom's nodes, with its kind; the delimiter of \left or \right, with the kind of atom that it is; a style; or a node as it is.
#[derive(Drop)]
pub enum Piece {
    Noad(AtomKind, Nodes),
    Fence(AtomKind, Delimiter),
    Restyled(u8),
    Lone(Node),
}

/// In which style the next piece stands, and behind an atom of which kind, if behind one.
#[derive(Clone, Copy)]
pub struct Spaces {
    pub style: u8,
    pub before: Option<AtomKind>,
}

/// The style in which delimiters of \left and \right are set, and how tall they are at least, in sp.
#[derive(Clone, Copy)]
pub struct Fences {
    pub style: u8,
    pub size: i64,
}

/// The greatest height and depth of what stands between them, in sp.
#[derive(Clone, Copy)]
pub struct Reach {
    pub height: i64,
    pub depth: i64,
}
