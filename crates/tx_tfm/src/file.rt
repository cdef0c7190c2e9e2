//! A font metric file as words, and what it says of a character.
ghost use Rattle.std.specs.Prelude.{◌≡◌, ◌≤◌, ◌<◌, ◌^◌, length, slice_index, IfOk};
ghost use Rattle.tx_tfm.specs.Format.{tfm_of, word_at, number_of, checksum_of, design_size_of, info_of, is_listed, is_there, width_index, height_index, depth_index, italic_index, tag};

use super::lengths::{Lengths, read_lengths};
use std::alloc::{AllocError, Global};
use tx_bytes::Bytes;

/// Four bytes of a file.
#[derive(Clone, Copy)]
pub struct Word {
    pub a: u8,
    pub b: u8,
    pub c: u8,
    pub d: u8,
}

impl Word {
    /// The number of 32 bits.
    pub fn number(&self) -> u32
        ensures { result ≡ number_of self.now }
    {
        ((u32::from(self.a) * 256 + u32::from(self.b)) * 256 + u32::from(self.c)) * 256
            + u32::from(self.d)
    }

    /// Where a character's width stands among the widths.
    pub fn width_index(&self) -> usize
        ensures value { result ≡ width_index self.now }
        ensures bound { result < 256 }
    {
        usize::from(self.a)
    }

    /// Where its height stands among the heights.
    pub fn height_index(&self) -> usize
        ensures value { result ≡ height_index self.now }
        ensures bound { result < 16 }
    {
        usize::from(self.b / 16)
    }

    /// Where its depth stands among the depths.
    pub fn depth_index(&self) -> usize
        ensures value { result ≡ depth_index self.now }
        ensures bound { result < 16 }
    {
        usize::from(self.b % 16)
    }

    /// Where its italic correction stands among those.
    pub fn italic_index(&self) -> usize
        ensures value { result ≡ italic_index self.now }
        ensures bound { result < 64 }
    {
        usize::from(self.c / 4)
    }

    /// What the last byte means: 1 a lig/kern program, 2 a larger successor, 3 an extensible recipe.
    pub fn tag(&self) -> u8
        ensures { result ≡ tag self.now }
    {
        self.c % 4
    }
}

/// A file with its lengths. Bytes past the end count as 0.
#[derive(Drop)]
pub struct Tfm {
    pub bytes: Bytes,
    pub lengths: Lengths,
}

impl Tfm {
    /// A copy of these bytes, with their lengths.
    pub fn copied(alloc: Global, bytes: &[u8]) -> Result<Tfm, AllocError>
        requires { 24 ≤ length bytes.now }
        ensures { IfOk result (λ file. file ≡ tfm_of bytes.now) }
    {
        let lengths = read_lengths(bytes);
        Ok(Tfm {
            bytes: Bytes::from_slice(alloc, bytes)?,
            lengths,
        })
    }

    /// The word at a place, counted in words.
    #[tactic(auto, unfolding(crate::specs::Format::word_at))]
    pub fn word(&self, place: usize) -> Word
        requires { place < 2 ^ 32 }
        ensures { result ≡ word_at self.now place }
    {
        let bytes = self.bytes.as_slice();
        let at = 4 * place;
        if at + 3 < bytes.len() {
            return Word {
                a: bytes[at],
                b: bytes[at + 1],
                c: bytes[at + 2],
                d: bytes[at + 3],
            };
        }
        self.word_past_end(place)
    }

    /// The same where the file may end within the word or before it.
    #[inline(never)]
    #[tactic(auto, unfolding(crate::specs::Format::word_at))]
    fn word_past_end(&self, place: usize) -> Word
        requires { place < 2 ^ 32 }
        ensures { result ≡ word_at self.now place }
    {
        Word {
            a: self.byte(4 * place),
            b: self.byte(4 * place + 1),
            c: self.byte(4 * place + 2),
            d: self.byte(4 * place + 3),
        }
    }

    fn byte(&self, place: usize) -> u8
        ensures { result ≡ slice_index self.now.bytes place }
    {
        let bytes = self.bytes.as_slice();
        if place < bytes.len() { bytes[place] } else { 0 }
    }

    /// The checksum.
    pub fn checksum(&self) -> u32
        ensures { result ≡ checksum_of self.now }
    {
        self.word(6).number()
    }

    /// The design size in sp, 0 where it is negative.
    #[tactic(auto, unfolding(crate::specs::Format::design_size_of))]
    pub fn design_size(&self) -> u32
        ensures value { result ≡ design_size_of self.now }
        ensures bound { result < 2 ^ 28 }
    {
        let size = self.word(7);
        if size.a < 128 { size.number() / 16 } else { 0 }
    }

    /// What is said of a character.
    pub fn info(&self, code: usize) -> Word
        requires { code < 2 ^ 17 }
        ensures { result ≡ info_of self.now code }
    {
        self.word(
            self.lengths.characters_at() + code.saturating_sub(usize::from(self.lengths.first)),
        )
    }

    /// Whether a code lies between the first and the last one.
    pub fn is_listed(&self, code: usize) -> bool
        ensures { result ≡ is_listed self.now code }
    {
        usize::from(self.lengths.first) <= code && code <= usize::from(self.lengths.last)
    }

    /// Whether the font has this character.
    pub fn is_there(&self, code: usize) -> bool
        requires { code < 2 ^ 17 }
        ensures { result ≡ is_there self.now code }
    {
        self.is_listed(code) && 0 < self.info(code).width_index()
    }
}
