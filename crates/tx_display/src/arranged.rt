//! How a display's formula stands in its line, and what of the display stands in the vertical list.
use tx_node::BoxNode;

/// How a formula stands in its line: so far to the right, in sp, whether the line before reaches over it, how much its number takes
/// beside it, in sp, its box, and how bad that is.
#[derive(Drop)]
pub(crate) struct Stand {
    pub left: i64,
    pub close: bool,
    pub beside: i32,
    pub inner: BoxNode,
    pub badness: i64,
}

/// The boxes of a display: a number on a line of its own above it or below it, if one stands there, and the line with the formula, how
/// far this is shifted to the right, in sp. Beside them whether the line before reaches over the formula, and how bad the box is that
/// was packed last.
#[derive(Drop)]
pub(crate) struct Arranged {
    pub above: Option<BoxNode>,
    pub line: BoxNode,
    pub shift: i64,
    pub below: Option<BoxNode>,
    pub close: bool,
    pub badness: i64,
}
