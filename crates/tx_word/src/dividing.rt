//! A word that is divided.
use tx_ligkern::{LigItem, Seam};
use tx_tfm::Fonts;

/// The characters of a word in the font of a number, which of its boundaries count, and the hyphen character.
#[derive(Clone, Copy)]
pub(crate) struct Letters<'a> {
    pub fonts: &'a Fonts,
    pub font: u8,
    pub chars: &'a [u8],
    pub left: bool,
    pub right: bool,
    pub hyphen: u8,
}

/// The same without the hyphen character, with what they become, the seams that were noted when they were composed, and the places
/// at which a hyphen may be put in.
#[derive(Clone, Copy)]
pub(crate) struct Dividing<'a> {
    pub fonts: &'a Fonts,
    pub font: u8,
    pub chars: &'a [u8],
    pub left: bool,
    pub right: bool,
    pub items: &'a [LigItem],
    pub seams: &'a [Seam],
    pub places: &'a [usize],
}
