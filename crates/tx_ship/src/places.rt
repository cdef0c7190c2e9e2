//! Where the items of a list stand on a page, and where the reader of the page is. All places and sizes are in sp.
use tx_node::BoxHead;

/// A point of the page: how far right and how far down it lies.
#[derive(Clone, Copy)]
pub struct Point {
    pub h: i128,
    pub v: i128,
}

/// A box on the page: what it is beside its list, and where its reference point lies.
#[derive(Clone, Copy)]
pub struct Frame {
    pub head: BoxHead,
    pub at: Point,
}

/// From where to where an item reaches once glue is set: to the right in a horizontal list, down in a vertical one.
#[derive(Clone, Copy)]
pub struct Span {
    pub from: i128,
    pub to: i128,
}

/// How an item stands in its list: where it begins, how far it is shifted across the list, and how high it is.
#[derive(Clone, Copy)]
pub struct Stand {
    pub from: i128,
    pub shift: i128,
    pub height: i128,
}

/// The sides of a rule or box, none of which runs.
#[derive(Clone, Copy)]
pub struct Sides {
    pub width: i128,
    pub height: i128,
    pub depth: i128,
}

/// How far right and down the reader of the page has come.
#[derive(Clone, Copy)]
pub struct Cursor {
    pub right: i32,
    pub down: i32,
}

/// A rule as the file has it: its lower left corner, its height, which is all of it above the corner, and its width.
#[derive(Clone, Copy)]
pub struct CornerRule {
    pub corner: Cursor,
    pub height: i32,
    pub width: i32,
}
