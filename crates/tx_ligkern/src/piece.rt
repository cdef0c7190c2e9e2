//! What stands in a word while it is composed.

ghost use Rattle.std.specs.Prelude.{◌≡◌, ◌++◌, map, IfOk, OnOk};
ghost use Rattle.tx_ligkern.specs.Pieces.{code_of, items_of, originals, word_of};

use crate::item::{Items, LigItem};
use std::alloc::{AllocError, Global};
use tx_bytes::Bytes;

/// A character of the word, a ligature that has been made, or the boundary before or behind the word.
#[derive(Drop)]
pub(crate) enum Piece {
    Boundary,
    Char(u8),
    /// `from` are the characters of the word in whose stead it stands.
    Ligature { code: u8, from: Bytes },
}

impl Piece {
    /// The code by which programs see it, None for a boundary.
    pub fn code(&self) -> Option<u8>
        ensures { result ≡ code_of self.now }
    {
        match self {
            Piece::Boundary => None,
            Piece::Char(code) => Some(*code),
            Piece::Ligature { code, .. } => Some(*code),
        }
    }

    /// The characters of the word in whose stead it stands.
    pub fn into_originals(self, alloc: Global) -> Result<Bytes, AllocError>
        ensures { IfOk result (λ from. from ≡ originals self) }
    {
        match self {
            Piece::Boundary => Ok(Bytes::new(alloc)),
            Piece::Char(code) => Bytes::from_slice(alloc, &[code]),
            Piece::Ligature { from, .. } => Ok(from),
        }
    }

    /// Puts these behind others.
    pub fn append_originals(self, from: &mut Bytes) -> Result<(), AllocError>
        ensures { OnOk result (from.new ≡ from.old ++ originals self) }
    {
        match self {
            Piece::Boundary => Ok(()),
            Piece::Char(code) => from.push(code),
            Piece::Ligature { from: others, .. } => from.append(others.as_slice()),
        }
    }
}

/// Puts what a piece is in the end behind the items.
pub(crate) fn put(items: &mut Items, piece: Piece) -> Result<(), AllocError>
    ensures { OnOk result (items.new ≡ items.old ++ items_of piece) }
{
    match piece {
        Piece::Boundary => Ok(()),
        Piece::Char(code) => items.push(LigItem::Char(code)),
        Piece::Ligature { code, from } => items.push(LigItem::Lig { code, from }),
    }
}

/// The pieces of a word: its characters, between those of its boundaries that count.
pub(crate) fn word(
    alloc: Global,
    chars: &[u8],
    left: bool,
    right: bool,
) -> Result<Vec<Piece>, AllocError>
    ensures { IfOk result (λ pieces. pieces.items ≡ word_of chars.now left right) }
{
    let mut pieces = Vec::with_capacity(alloc, chars.len() + 2)?;
    if left {
        pieces.push(Piece::Boundary)?;
    }
    push_chars(&mut pieces, chars)?;
    if right {
        pieces.push(Piece::Boundary)?;
    }
    Ok(pieces)
}

/// Puts characters behind pieces.
fn push_chars(pieces: &mut Vec<Piece>, chars: &[u8]) -> Result<(), AllocError>
    ensures { OnOk result (pieces.new.items ≡ pieces.old.items ++ map (λ c. Piece.Char c) chars.now) }
{
    for code in chars {
        pieces.push(Piece::Char(*code))?;
    }
    Ok(())
}
