//! What is written of a page.
use std::marker::Model;
use tx_bytes::Bytes;
use tx_dvi::FontDefinition;
use tx_list::Items;

/// What the reader of a page knows of fonts: the one that was chosen last, the numbers of those that are defined, and the
/// definitions of this page, whose names have at most 255 bytes. Contracts see it as `ReaderFonts`.
#[derive(Drop)]
pub struct PageFonts {
    pub(crate) chosen: Option<u8>,
    pub(crate) known: Bytes,
    pub(crate) defined: Items<FontDefinition>,
}

impl Model for PageFonts {
    ghost use Rattle.tx_dvi.specs.Meaning.{ReaderFonts};

    ghost Value = { ReaderFonts };

    ghost view = { λ f. record { chosen = f.chosen; known = f.known; defined = f.defined } };

    ghost use Rattle.std.specs.List.{All};
    ghost use Rattle.tx_dvi.specs.Page.{IsNamed};

    ghost invariant = { λ f. All IsNamed f.defined };
}

/// The commands of a page as far as they are written, and what their reader then knows of fonts.
#[derive(Drop)]
pub struct Output {
    pub body: Vec<u8>,
    pub fonts: PageFonts,
}
