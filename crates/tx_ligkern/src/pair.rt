//! What a pair of a word meets, by which most words are composed without more.
ghost use Rattle.std.specs.Prelude.{◌≡◌};
ghost use Rattle.tx_ligkern.specs.Pairs.{met_of};

use tx_tfm::Font;

/// What a pair of a word meets.
#[derive(Clone, Copy)]
pub enum Met {
    /// No command.
    Nothing,
    /// A kern, in sp.
    Kern(i32),
    /// A ligature command.
    Ligature,
}

/// What a pair meets in a font. `None` is a boundary of the word.
pub fn pair_meets(font: &Font, left: Option<u8>, right: Option<u8>) -> Met
    ensures { result ≡ met_of font.now left right }
{
    match font.command(left, right) {
        None => Met::Nothing,
        Some(command) if command.c >= 128 => Met::Kern(font.kern(command) as i32),
        Some(_) => Met::Ligature,
    }
}
