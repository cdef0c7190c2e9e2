//! How far along a list something stands.

/// How far a list has come: naturally, in sp, and how much it has had of the stretch or shrink that is set.
#[derive(Clone, Copy)]
pub struct Reached {
    pub natural: i128,
    pub sum: i64,
}

/// The copies that leaders make of a box, one behind another: how far the first is from where the leaders begin, how far each is
/// from the one before it, in sp, and how many there are.
#[derive(Clone, Copy)]
pub struct Copies {
    pub before: u128,
    pub step: u128,
    pub count: u128,
}
