//! Fonts, as DVI files define them.
use std::alloc::AllocError;
use tx_bytes::Bytes;
use tx_list::Kept;

/// What a DVI file tells of a font (the DVI standard; TeX: The Program, sections 588 and 602).
#[derive(Drop)]
pub struct FontDefinition {
    /// Its number: 0 is that of the font that was loaded first.
    pub number: u8,
    /// The checksum of its metric file.
    pub checksum: u32,
    /// The size at which it is used, in sp.
    pub size: u32,
    /// The size for which it was designed, in sp.
    pub design_size: u32,
    /// Its name as \font was given it. On a page it has at most 255 bytes.
    pub name: Bytes,
}

impl Kept for FontDefinition {
    fn share(&self) -> Result<Self, AllocError> {
        Ok(FontDefinition {
            number: self.number,
            checksum: self.checksum,
            size: self.size,
            design_size: self.design_size,
            name: self.name.clone()?,
        })
    }

    fn same(&self, other: &Self) -> bool {
        self.number == other.number
            && self.checksum == other.checksum
            && self.size == other.size
            && self.design_size == other.design_size
            && self.name.same(&other.name)
    }
}
