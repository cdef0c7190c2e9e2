//! What a font answers, at the size at which it is used.
ghost use Rattle.std.specs.Prelude.{◌≡◌, ◌<◌, ◌≤◌, ◌^◌, unsigned_abs};
ghost use Rattle.tx_tfm.specs.Metrics.{scaled_at, successor_of, recipe_of, slant_of, parameter_of, parameter_count_of, kern_of};

use super::file::{Tfm, Word};
use super::scaling::scale;

/// A file with the size at which it is used, in sp.
#[derive(Drop)]
pub struct Metrics {
    pub file: Tfm,
    pub size: u32,
}

impl Metrics {
    fn scaled_at(&self, place: usize) -> i64
        requires place_in { place < 2 ^ 32 }
        requires size_in { self.now.size < 2 ^ 27 }
        ensures value { result ≡ scaled_at self.now place }
        ensures bound { unsigned_abs result < 2 ^ 31 }
    {
        scale(self.size, self.file.word(place))
    }

    /// The next larger character of the one with this code; None where its tag names none (TeX: The Program, section 544).
    pub fn successor(&self, code: u8) -> Option<u8>
        ensures { result ≡ successor_of self.now code }
    {
        let info = self.file.info(usize::from(code));
        if info.tag() == 2 { Some(info.d) } else { None }
    }

    /// The word of the recipe by which the character of this code is built of pieces; None where its tag names none (TeX: The
    /// Program, section 546).
    pub fn recipe(&self, code: u8) -> Option<Word>
        ensures { result ≡ recipe_of self.now code }
    {
        let info = self.file.info(usize::from(code));
        if info.tag() == 3 {
            Some(
                self.file
                    .word(self.file.lengths.recipes_at() + usize::from(info.d)),
            )
        } else {
            None
        }
    }

    /// The parameter of this number, counted from 1, in sp, the slant in multiples of 2^-16; 0 where the file has none of it
    /// (TeX: The Program, section 547).
    pub fn parameter(&self, number: u16) -> i64
        requires size_in { self.now.size < 2 ^ 27 }
        requires some { 1 ≤ number }
        ensures value { result ≡ parameter_of self.now number }
        ensures bound { unsigned_abs result < 2 ^ 31 }
    {
        let first = self.file.lengths.parameters_at();
        if number > self.file.lengths.parameters {
            0
        } else if number == 1 {
            slant(self.file.word(first))
        } else {
            self.scaled_at(first + (usize::from(number) - 1))
        }
    }

    /// How many parameters the file has.
    pub fn file_parameters(&self) -> u16
        ensures { result ≡ self.now.file.lengths.parameters }
    {
        self.file.lengths.parameters
    }

    /// How many parameters the font has: those of the file, and at least the first seven.
    pub fn parameter_count(&self) -> u16
        ensures { result ≡ parameter_count_of self.now }
    {
        if self.file.lengths.parameters < 7 {
            7
        } else {
            self.file.lengths.parameters
        }
    }

    /// The kern, in sp, that a command of the program of ligatures and kerns names (TeX: The Program, section 545).
    pub fn kern(&self, command: Word) -> i64
        requires size_in { self.now.size < 2 ^ 27 }
        requires is_kern { 128 ≤ command.c }
        ensures value { result ≡ kern_of self.now command }
        ensures bound { unsigned_abs result < 2 ^ 31 }
    {
        let index = 256 * (usize::from(command.c) - 128) + usize::from(command.d);
        self.scaled_at(self.file.lengths.kerns_at() + index)
    }
}

/// A word as a number with sign over 16, rounded down.
fn slant(word: Word) -> i64
    ensures value { result ≡ slant_of word }
    ensures bound { unsigned_abs result < 2 ^ 31 }
{
    let number = i64::from(word.number() / 16);
    if word.a < 128 {
        number
    } else {
        number - (1 << 28)
    }
}
