//! The widest character that still fits (TeX: The Program, section 740).
ghost use Rattle.std.specs.Prelude.{◌≡◌};
ghost use Rattle.tx_delim.specs.Fitting as spec;

use crate::finding::successor_in;
use tx_tfm::Fonts;

/// How many characters a font has at most.
const MOST_CHARACTERS: u16 = 256;

/// Whether a character is there and no wider than this, in sp.
fn fits_in(fonts: &Fonts, width: i64, font: u8, code: u8) -> bool
    ensures { result ≡ spec.fits_in fonts.now width font code }
{
    fonts.has_character(font, code) && !(width < fonts.width(font, code))
}

/// The successor of a character, if it is such.
fn next_fitting(fonts: &Fonts, width: i64, font: u8, code: u8) -> Option<u8>
    ensures { result ≡ spec.next_fitting fonts.now width font code }
{
    match successor_in(fonts, font, code) {
        Some(next) => {
            if fits_in(fonts, width, font, next) {
                Some(next)
            } else {
                None
            }
        }
        None => None,
    }
}

/// The last of a character's successors that are there and no wider than this, in sp, or itself.
#[tactic(auto, using(crate::proofs::Along::fitting_on, crate::proofs::Along::fitting_last, crate::proofs::Along::fitting_over))]
pub fn widest_fitting(fonts: &Fonts, width: i64, font: u8, code: u8) -> u8
    ensures { result ≡ spec.fitting fonts.now width font code }
{
    let mut code = code;
    let mut left = MOST_CHARACTERS;
    while left > 0 {
        let Some(next) = next_fitting(fonts, width, font, code) else {
            return code;
        };
        code = next;
        left -= 1;
    }
    code
}
