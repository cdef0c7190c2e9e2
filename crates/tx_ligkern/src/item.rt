//! What a word becomes.
use tx_bytes::Bytes;

/// A character, a ligature or a kern of a composed word.
#[derive(Drop)]
pub enum LigItem {
    /// A character of the word, as it stands there.
    Char(u8),
    /// A ligature, and the characters of the word in whose stead it stands, in their order: none where all that met its
    /// command was kept.
    Lig { code: u8, from: Bytes },
    /// A kern, in sp.
    Kern(i32),
}

/// A list of these.
pub type Items = tx_list::Items<LigItem>;
