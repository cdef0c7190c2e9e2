//! Signs that are as tall as is asked, and where accents stand.
use tx_node::BoxNode;

/// The box of a delimiter, and how far it is shifted down, in sp, so that it is centred about the axis (TeX: The Program, section
/// 706).
#[derive(Drop)]
pub struct Sign {
    pub shift: i32,
    pub inner: BoxNode,
}

/// An accent, by its font's number and its code; how far to the right it is moved, and how far it is lowered onto what it stands
/// on, in sp (TeX: The Program, section 738).
#[derive(Clone, Copy)]
pub struct AccentPlace {
    pub font: u8,
    pub code: u8,
    pub right: i64,
    pub down: i64,
}
