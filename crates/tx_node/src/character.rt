//! Characters and ligatures.
use tx_bytes::Bytes;

/// A character of a font, with the sizes that the font gives it, in sp (TeX: The Program, section 134). Font 0 is \nullfont,
/// the others are numbered from 1 in the order in which they were loaded.
#[derive(Clone, Copy)]
pub struct Character {
    pub font: u8,
    pub code: u8,
    pub width: i32,
    pub height: i32,
    pub depth: i32,
}

/// A ligature: a character that stands in the stead of others (TeX: The Program, section 143).
#[derive(Drop)]
pub struct Ligature {
    pub character: Character,
    /// The codes of these others, in their order.
    pub from: Bytes,
}
