//! What a font answers most often, read once of its file: what this says of each character, and of the boundary of a word.
ghost use Rattle.std.specs.Prelude.{◌≡◌, ◌<◌, ◌^◌, vec_len, IfSome, IfOk};

use super::metrics::Metrics;
use super::scaling::scale;
use std::alloc::{AllocError, Global};

/// What a font says of a character, with its sizes in sp.
#[derive(Clone, Copy)]
pub struct CharacterMetrics {
    pub width: i32,
    /// Above the baseline.
    pub height: i32,
    /// Below the baseline.
    pub depth: i32,
    /// The italic correction.
    pub italic: i32,
    /// Whether the font has the character.
    pub is_there: bool,
    /// Where its program of ligatures and kerns begins, if it has one.
    pub start: Option<u16>,
}

/// What a font says of each character, by its code, and of the boundary of a word.
#[derive(Drop)]
pub struct Characters {
    by_code: Vec<CharacterMetrics>,
    /// Where the program of the left boundary begins.
    left: Option<u16>,
    /// The code of the right boundary.
    right: Option<u8>,
    ghost whole: { vec_len by_code ≡ 256 },
}

/// A place among the commands, as it is kept.
fn kept(place: Option<usize>) -> Option<u16>
    requires { IfSome place (λ k. k < 2 ^ 16) }
    ensures { result ≡ place }
{
    match place {
        Some(place) => Some(place as u16),
        None => None,
    }
}

impl Metrics {
    ghost use Rattle.tx_tfm.specs.Characters.{AreSaid, IsSaid};

    /// What a font says of a character, whose word of the file is read once.
    #[tactic(auto, unfolding(crate::specs::LigKern::character_start))]
    fn character(&self, code: u8) -> CharacterMetrics
        requires { self.now.size < 2 ^ 27 }
        ensures { IsSaid self.now code result }
    {
        let (file, lengths) = (&self.file, &self.file.lengths);
        let info = file.info(usize::from(code));
        let width = file.word(lengths.widths_at() + info.width_index());
        let height = file.word(lengths.heights_at() + info.height_index());
        let depth = file.word(lengths.depths_at() + info.depth_index());
        let italic = file.word(lengths.italics_at() + info.italic_index());
        CharacterMetrics {
            width: scale(self.size, width) as i32,
            height: scale(self.size, height) as i32,
            depth: scale(self.size, depth) as i32,
            italic: scale(self.size, italic) as i32,
            is_there: file.is_listed(usize::from(code)) && 0 < info.width_index(),
            start: if info.tag() == 1 {
                kept(file.start_of(Some(code)))
            } else {
                None
            },
        }
    }

    /// What it says of all characters, and of the boundary. Its only error is want of memory.
    pub fn characters(&self, alloc: Global) -> Result<Characters, AllocError>
        requires { self.now.size < 2 ^ 27 }
        ensures { IfOk result (λ characters. AreSaid self.now characters) }
    {
        let mut by_code = Vec::with_capacity(alloc, 256)?;
        for code in 0..256usize {
            by_code.push(self.character(code as u8))?;
        }
        Ok(Characters {
            by_code,
            left: kept(self.file.start_of(None)),
            right: self.file.boundary_code(),
        })
    }
}

impl Characters {
    ghost use Rattle.tx_tfm.specs.declared.metrics.Metrics.{Metrics};
    ghost use Rattle.tx_tfm.specs.Characters.{AreSaid, IsSaid};
    ghost use Rattle.tx_tfm.specs.LigKern.{code_of, start_of};

    /// What the font says of a character.
    pub fn get(&self, code: u8) -> CharacterMetrics
        ensures { (m : Metrics) → AreSaid m self.now → IsSaid m code result }
    {
        self.by_code[usize::from(code)]
    }

    /// Where the program begins of what stands at the left of a pair.
    pub fn start_of(&self, left: Option<u8>) -> Option<u16>
        ensures { (m : Metrics) → AreSaid m self.now → result ≡ start_of m.file left }
    {
        match left {
            None => self.left,
            Some(code) => self.get(code).start,
        }
    }

    /// The code by which programs name what stands at the right of a pair.
    pub fn code_of(&self, right: Option<u8>) -> Option<u8>
        ensures { (m : Metrics) → AreSaid m self.now → result ≡ code_of m.file right }
    {
        match right {
            None => self.right,
            Some(code) => Some(code),
        }
    }
}
