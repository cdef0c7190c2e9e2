//! The parts of TeX's state that are plain choices: what is due, which text is open, which tokens are kept.
use tx_box::Work;
use tx_bytes::Bytes;
use tx_char::Token;
use tx_prim::{DefinitionKind, TextUse};
use tx_seen::Place;
use tx_text::{DefinitionScan, TextScan};
use tx_tfm::Size;

/// A piece of work that comes before reading.
#[derive(Drop)]
pub enum Due {
    /// To ask for the main file, by its name.
    OpenMain(Bytes),
    /// The main file, or that of \input, is absent.
    FileAbsent,
    /// The innermost file has no further line and is to be closed.
    FileEnded,
    /// The main file is closed, and no \end came.
    MainClosed,
    /// To load the font of \font, whose file was asked for.
    LoadFont(FontRequest),
    /// To copy boxes, or to ship one.
    Boxes(Work),
}

/// The font that a \font wants, which isn't loaded.
#[derive(Drop)]
pub struct FontRequest {
    /// What is to mean the font, and whether in all groups.
    pub defined: Place,
    pub global: bool,
    /// The font's name, as \font was given it.
    pub name: Bytes,
    pub size: Size,
    /// The bytes of its file, once the reply has brought them.
    pub file: Option<Bytes>,
}

/// A text that is being taken, and what it is for.
#[derive(Drop)]
pub enum OpenText {
    /// The parameter text and the body of the macro that this place is to mean.
    Definition(Place, DefinitionKind, DefinitionScan),
    /// A text in braces.
    Absorbed(TextUse, TextScan),
    /// The list of tokens that is to stand at this place.
    List(Place, TextScan),
}

/// A token that \aftergroup keeps.
#[derive(Drop)]
pub struct KeptToken {
    /// How many groups were open then.
    pub groups: usize,
    pub token: Token,
}
