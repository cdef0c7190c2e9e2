//! The search for a character that is tall enough (TeX: The Program, sections 706 to 708).
ghost use Rattle.std.specs.Prelude.{◌≡◌, ◌≤◌, ◌^◌, unsigned_abs, Some};
ghost use Rattle.tx_delim.specs.Searching as spec;

use crate::search::{FontCharacter, Search};
use tx_tfm::{Fonts, Word};

/// How many characters a font has at most.
const MOST_CHARACTERS: u16 = 256;

/// How tall a character of the font of a number is, in sp.
pub(crate) fn tallness(fonts: &Fonts, font: u8, code: u8) -> i64
    ensures value { result ≡ spec.tallness fonts.now font code }
    ensures bound { unsigned_abs result ≤ 2 ^ 32 }
{
    fonts.height(font, code) + fonts.depth(font, code)
}

/// The next larger character of one, if its font has one.
pub(crate) fn successor_in(fonts: &Fonts, font: u8, code: u8) -> Option<u8>
    ensures { result ≡ spec.successor_in fonts.now font code }
{
    match fonts.get(font) {
        Some(named) => named.font.successor(code),
        None => None,
    }
}

/// The recipe by which a character is built, if it has one.
pub(crate) fn recipe_in(fonts: &Fonts, font: u8, code: u8) -> Option<Word>
    ensures { result ≡ spec.recipe_in fonts.now font code }
{
    match fonts.get(font) {
        Some(named) => named.font.recipe(code),
        None => None,
    }
}

/// A search that has found nothing.
pub fn begin_search() -> Search
    ensures { result ≡ spec.beginning }
{
    Search {
        found: None,
        tall: 0,
        over: false,
    }
}

/// A search for a character of this height plus depth, in sp, behind one that is so tall.
fn taller(asked: i64, font: u8, code: u8, tall: i64, search: Search) -> Search
    ensures { result ≡ spec.taller asked font code tall search }
{
    if search.tall < tall {
        Search {
            found: Some(FontCharacter { font, code }),
            tall,
            over: !(tall < asked),
        }
    } else {
        search
    }
}

/// The same behind a character that is there.
fn looked_at(fonts: &Fonts, asked: i64, font: u8, code: u8, search: Search) -> Search
    ensures { result ≡ spec.looked_at fonts.now asked font code search }
{
    match recipe_in(fonts, font, code) {
        None => taller(asked, font, code, tallness(fonts, font, code), search),
        Some(_) => Search {
            found: Some(FontCharacter { font, code }),
            tall: search.tall,
            over: true,
        },
    }
}

/// The character behind one that is looked at next, if the search isn't over.
fn next_in(fonts: &Fonts, font: u8, code: u8, search: Search) -> Option<u8>
    ensures { result ≡ spec.next_in fonts.now font code search }
{
    if search.over {
        None
    } else {
        successor_in(fonts, font, code)
    }
}

/// The search along the successors of a character.
#[tactic(auto, using(crate::proofs::Along::along_on, crate::proofs::Along::along_gone, crate::proofs::Along::along_none, crate::proofs::Along::along_over))]
fn search_along(fonts: &Fonts, asked: i64, font: u8, code: u8, begun: Search) -> Search
    ensures { result ≡ spec.along 256 fonts.now asked font (Some code) begun }
{
    let mut search = begun;
    let mut at = Some(code);
    let mut left = MOST_CHARACTERS;
    while left > 0 {
        let Some(code) = at else {
            return search;
        };
        if !fonts.has_character(font, code) {
            return search;
        }
        search = looked_at(fonts, asked, font, code, search);
        at = next_in(fonts, font, code, search);
        left -= 1;
    }
    search
}

/// The search for a character of this height plus depth, in sp, behind a character of the font of a number and its successors. It
/// stays as it is where it was over, and where the font lacks the character.
pub fn look_along(fonts: &Fonts, asked: i64, font: u8, code: u8, begun: Search) -> Search
    ensures { result ≡ spec.searched fonts.now asked font code begun }
{
    if begun.over {
        begun
    } else {
        search_along(fonts, asked, font, code, begun)
    }
}
