//! What the registers of a page's reader hold, of which the movements are written.

/// The two registers of a direction, w and x or y and z: the amounts that they hold, in sp, and whether the first is the one
/// that was used last. Where neither was used, the first is taken for the older one.
#[derive(Clone, Copy)]
pub struct Pair {
    pub first: i64,
    pub second: i64,
    pub is_first_newer: bool,
}

/// The registers: w and x to the right, y and z down.
#[derive(Clone, Copy)]
pub struct Amounts {
    pub across: Pair,
    pub down: Pair,
}
