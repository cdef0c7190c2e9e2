//! What is asked of pieces.
ghost use Rattle.std.specs.Prelude.{◌≡◌, ◌↔◌, ◌<◌, true, IsTrue};
ghost use Rattle.std.specs.List.{All};
ghost use Rattle.tx_tfm.specs.Fonts.{has_character};
ghost use Rattle.tx_word.specs.Divisions.{IsPlaced};
ghost use Rattle.tx_word.specs.Factors.{IsFactor};
ghost use Rattle.tx_word.specs.Lists as spec;

use crate::piece::Piece;
use tx_tfm::Fonts;

/// Whether a number is a space factor.
fn is_factor(factor: i64) -> bool
    ensures { IsTrue result ↔ IsFactor factor }
{
    1 <= factor && factor <= 32767
}

/// Whether the font of a number has all these characters.
fn has_characters(fonts: &Fonts, font: u8, chars: &[u8]) -> bool
    ensures { IsTrue result ↔ All (λ c. has_character fonts.now font c ≡ true) chars.now }
{
    for code in chars {
        if !fonts.has_character(font, *code) {
            return false;
        }
    }
    true
}

/// Whether a place is between two characters of a word of so many.
fn is_between(length: usize, place: usize) -> bool
    ensures { IsTrue result ↔ ((0 < place) × (place < length)) }
{
    0 < place && place < length
}

/// Whether each of these places is between two characters of a word of so many.
fn are_between(length: usize, places: &[usize]) -> bool
    ensures { IsTrue result ↔ All (λ place. (0 < place) × (place < length)) places.now }
{
    for place in places {
        if !is_between(length, *place) {
            return false;
        }
    }
    true
}

/// Whether the font has each character of a word, and each place is between two of them.
fn is_placed(fonts: &Fonts, font: u8, chars: &[u8], places: &[usize]) -> bool
    ensures { IsTrue result ↔ IsPlaced fonts.now font chars.now places.now }
{
    has_characters(fonts, font, chars) && are_between(chars.len(), places)
}

/// Whether a word can have its places, and a space has a space factor.
fn is_piece(fonts: &Fonts, piece: &Piece) -> bool
    ensures { IsTrue result ↔ spec.IsPiece fonts.now piece.now }
{
    match piece {
        Piece::Word {
            font,
            chars,
            places,
            ..
        } => is_placed(fonts, *font, chars.as_slice(), places.as_slice()),
        Piece::Space { factor, .. } => is_factor(*factor),
    }
}

/// Whether pieces are such as `nodes` requires.
pub fn are_pieces(fonts: &Fonts, pieces: &[Piece]) -> bool
    ensures { IsTrue result ↔ All (spec.IsPiece fonts.now) pieces.now }
{
    for piece in pieces {
        if !is_piece(fonts, piece) {
            return false;
        }
    }
    true
}
