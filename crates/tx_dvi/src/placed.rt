//! What the reader of a page meets, and where it is.
use tx_bytes::Bytes;

/// A character: the number of its font, its code, and how far right and down its reference point lies, in sp.
#[derive(Clone, Copy)]
pub struct PlacedCharacter {
    pub font: u8,
    pub code: u8,
    pub h: i64,
    pub v: i64,
}

/// A rule: how far right and down its lower left corner lies, and how high and how wide it is, in sp.
#[derive(Clone, Copy)]
pub struct PlacedRule {
    pub h: i64,
    pub v: i64,
    pub height: i64,
    pub width: i64,
}

/// A special: how far right and down it stands, in sp, and its bytes.
#[derive(Drop)]
pub struct PlacedSpecial {
    pub h: i64,
    pub v: i64,
    pub text: Bytes,
}

/// What the reader of a page meets.
#[derive(Drop)]
pub enum Placed {
    Lettered(PlacedCharacter),
    Ruled(PlacedRule),
    Noted(PlacedSpecial),
}

/// Where the reader of a page is, and its four amounts of movement, in sp (TeX: The Program, section 584).
#[derive(Clone, Copy)]
pub struct Registers {
    /// To the right of the page's left upper corner.
    pub h: i64,
    /// Down from it.
    pub v: i64,
    pub w: i64,
    pub x: i64,
    pub y: i64,
    pub z: i64,
}
