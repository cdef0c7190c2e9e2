//! The fonts that the reader of a page knows.
ghost use Rattle.std.specs.Prelude.{◌≡◌, ◌++◌, ◌∷◌, [], IfOk, OnOk};
ghost use Rattle.std.specs.List.{All};
ghost use Rattle.tx_dvi.specs.Page.{IsNamed};
ghost use Rattle.tx_dvi.specs.Meaning.{is_known, choosing, defining, page_start};
ghost use Rattle.tx_ship.specs.Characters as spec;

use crate::output::PageFonts;
use std::alloc::{AllocError, Global};
use tx_bytes::Bytes;
use tx_dvi::FontDefinition;
use tx_list::Items;
use tx_tfm::NamedFont;

/// The number of a font in a DVI file.
pub fn dvi_number(number: u8) -> u8
    ensures { result ≡ spec.dvi_number number }
{
    number.saturating_sub(1)
}

/// The definition of a font with a number. Its only error is want of memory.
pub fn definition_for(number: u8, font: &NamedFont) -> Result<FontDefinition, AllocError>
    ensures { IfOk result (λ made. made ≡ spec.definition_for number font.now) }
{
    let name = font.name.clone()?;
    Ok(FontDefinition {
        number: dvi_number(number),
        checksum: font.font.checksum(),
        size: font.font.size() as u32,
        design_size: font.font.design_size() as u32,
        name,
    })
}

impl PageFonts {
    /// The fonts at the start of a page, where those of these numbers are defined. Its only error is want of memory.
    pub fn new(alloc: Global, known: &Bytes) -> Result<PageFonts, AllocError>
        ensures { IfOk result (λ fonts. fonts ≡ (page_start known.now).fonts) }
    {
        Ok(PageFonts {
            chosen: None,
            known: known.clone()?,
            defined: Items::new(alloc),
        })
    }

    /// Whether the font of this number was chosen last.
    pub fn is_chosen(&self, number: u8) -> bool
        ensures { result ≡ spec.is_chosen number self.now.chosen }
    {
        match self.chosen {
            Some(chosen) => chosen == number,
            None => false,
        }
    }

    /// Whether the font of this number is defined.
    pub fn is_known(&self, number: u8) -> bool
        ensures { result ≡ is_known number self.now.known }
    {
        self.known.as_slice().iter().any(|known| *known == number)
    }

    /// A font is defined.
    pub fn define(&mut self, font: FontDefinition) -> Result<(), AllocError>
        requires { IsNamed font }
        ensures { OnOk result (self.new ≡ defining font self.old) }
    {
        self.known.push(font.number)?;
        self.defined.push(font)
    }

    /// A font is chosen.
    pub fn choose(&mut self, number: u8)
        ensures { self.new ≡ choosing number self.old }
    {
        self.chosen = Some(number);
    }

    /// The definitions of the page; takes no memory.
    pub fn into_defined(self) -> Items<FontDefinition>
        ensures fonts { result ≡ self.defined }
        ensures named { All IsNamed result }
    {
        let PageFonts {
            chosen: _,
            known: _,
            defined,
        } = self;
        defined
    }
}
