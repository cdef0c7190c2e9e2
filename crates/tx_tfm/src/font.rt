//! Fonts: read from the bytes of a font metric file, and asked for sizes.
ghost use Rattle.std.specs.Prelude.{◌≡◌, ◌↔◌, ◌<◌, ◌≤◌, ◌^◌, pos, unsigned_abs, None, IsTrue, IfOk, MatchResult};
ghost use Rattle.tx_tfm.specs.Rules.{first_broken};
ghost use Rattle.tx_tfm.specs.Format.{checksum_of, design_size_of, is_there};
ghost use Rattle.tx_tfm.specs.LigKern.{command_of};
ghost use Rattle.tx_tfm.specs.Characters.{IsSaid};
ghost use Rattle.tx_tfm.specs.Metrics.{metrics_of, width_of, height_of, depth_of, italic_of, successor_of, recipe_of, parameter_of, parameter_count_of, is_used_at, kern_of};
ghost use Rattle.tx_tfm.specs.Sound.{IsSound, ErrorNames};

use super::characters::{CharacterMetrics, Characters};
use super::errors::FontError;
use super::file::{Tfm, Word};
use super::metrics::Metrics;
use super::rules::Size;
use std::alloc::{AllocError, Global};
use std::marker::Model;

/// A font at a size. Contracts see its file and its size in sp, and know that no rule is broken. What each letter of a text asks
/// for is kept beside them.
#[derive(Drop)]
pub struct Font {
    metrics: Metrics,
    characters: Characters,
}

impl Model for Font {
    ghost use Rattle.tx_tfm.specs.declared.metrics.Metrics.{Metrics};

    ghost Value = { Metrics };

    ghost use Rattle.tx_tfm.specs.Characters.{IsFont};

    ghost view = { λ f. f.metrics };

    ghost invariant = { λ f. IsFont f.metrics f.characters };
}

impl Font {
    /// The font of a file that breaks no rule. Its only error is want of memory.
    fn of(alloc: Global, metrics: Metrics) -> Result<Font, AllocError>
        requires { IsSound metrics }
        ensures { IfOk result (λ font. font ≡ metrics) }
    {
        let characters = metrics.characters(alloc)?;
        Ok(Font {
            metrics,
            characters,
        })
    }

    /// The font of these bytes at that size. `BadFont` names the first rule that they break, exactly where they break one.
    pub fn read(alloc: Global, bytes: &[u8], size: Size) -> Result<Font, FontError>
        ensures font { IfOk result (λ font. font ≡ metrics_of bytes.now size) }
        ensures broken { MatchResult result
            (λ _. first_broken bytes.now size ≡ None)
            (ErrorNames (first_broken bytes.now size)) }
    {
        if bytes.len() < 24 {
            return Err(FontError::BadFont { rule: 1 });
        }
        let file = match Tfm::copied(alloc, bytes) {
            Ok(file) => file,
            Err(error) => return Err(FontError::OutOfMemory(error)),
        };
        match file.check_header(size) {
            Err(rule) => Err(FontError::BadFont { rule }),
            Ok(size) => match file.check_tables(alloc) {
                Err(error) => Err(FontError::OutOfMemory(error)),
                Ok(Some(rule)) => Err(FontError::BadFont { rule }),
                Ok(None) => match Font::of(alloc, Metrics { file, size }) {
                    Err(error) => Err(FontError::OutOfMemory(error)),
                    Ok(font) => Ok(font),
                },
            },
        }
    }

    /// Whether both are used at the same size and have files of the same bytes.
    #[tactic(auto, using(crate::proofs::SameFonts::same_fonts))]
    pub fn same(&self, other: &Font) -> bool
        ensures { IsTrue result ↔ (self.now ≡ other.now) }
    {
        self.is_sound();
        other.is_sound();
        same_use(&self.metrics, &other.metrics)
    }

    /// What holds of every font: its file breaks no rule.
    pub fn is_sound(&self)
        ensures { IsSound self.now }
    {
        let _metrics = &self.metrics;
    }

    /// Whether the font has this character.
    pub fn is_there(&self, code: u8) -> bool
        ensures { result ≡ is_there self.now.file code }
    {
        self.characters.get(code).is_there
    }

    /// What the font says of a character.
    pub fn character(&self, code: u8) -> CharacterMetrics
        ensures { IsSaid self.now code result }
    {
        self.characters.get(code)
    }

    /// A character's width, in sp as all sizes.
    pub fn width(&self, code: u8) -> i64
        ensures value { result ≡ width_of self.now code }
        ensures bound { unsigned_abs result < 2 ^ 31 }
    {
        i64::from(self.characters.get(code).width)
    }

    /// A character's height above the baseline.
    pub fn height(&self, code: u8) -> i64
        ensures value { result ≡ height_of self.now code }
        ensures bound { unsigned_abs result < 2 ^ 31 }
    {
        i64::from(self.characters.get(code).height)
    }

    /// A character's depth below the baseline.
    pub fn depth(&self, code: u8) -> i64
        ensures value { result ≡ depth_of self.now code }
        ensures bound { unsigned_abs result < 2 ^ 31 }
    {
        i64::from(self.characters.get(code).depth)
    }

    /// A character's italic correction.
    pub fn italic(&self, code: u8) -> i64
        ensures value { result ≡ italic_of self.now code }
        ensures bound { unsigned_abs result < 2 ^ 31 }
    {
        i64::from(self.characters.get(code).italic)
    }

    /// The next larger character.
    pub fn successor(&self, code: u8) -> Option<u8>
        ensures { result ≡ successor_of self.now code }
    {
        self.metrics.successor(code)
    }

    /// The pieces top, middle, bottom and repeated of an extensible character. A piece of 0 isn't wanted, but for the last.
    pub fn recipe(&self, code: u8) -> Option<Word>
        ensures { result ≡ recipe_of self.now code }
    {
        self.metrics.recipe(code)
    }

    /// Parameter `number`, from 1 on. The first is the slant, a multiple of 2^-16; the others are sizes, 0 past the last one.
    pub fn parameter(&self, number: u16) -> i64
        requires { 1 ≤ number }
        ensures value { result ≡ parameter_of self.now number }
        ensures bound { unsigned_abs result < 2 ^ 31 }
    {
        self.metrics.parameter(number)
    }

    /// How many parameters there are, at least seven.
    pub fn parameter_count(&self) -> u16
        ensures { result ≡ parameter_count_of self.now }
    {
        self.metrics.parameter_count()
    }

    /// Whether this is the size at which it is used: so many thousandths of the design size are rounded towards zero.
    #[tactic(auto, using(crate::proofs::Used::not_used))]
    pub fn is_used_at(&self, size: Size) -> bool
        ensures { result ≡ is_used_at self.now size }
    {
        self.is_sound();
        match self.metrics.file.size_in_sp(size) {
            Some(sp) => sp == self.metrics.size,
            None => false,
        }
    }

    /// How many parameters its file has.
    pub fn file_parameters(&self) -> u16
        ensures { result ≡ self.now.file.lengths.parameters }
    {
        self.metrics.file_parameters()
    }

    /// The command of a ligature and kerning program that a pair meets. `None` is a boundary of a word.
    #[tactic(auto, unfolding(crate::specs::LigKern::command_of))]
    pub fn command(&self, left: Option<u8>, right: Option<u8>) -> Option<Word>
        ensures { result ≡ command_of self.now.file left right }
    {
        let code = self.characters.code_of(right)?;
        let start = self.characters.start_of(left)?;
        self.metrics.file.find(usize::from(start), code)
    }

    /// The kern that a command puts in.
    pub fn kern(&self, command: Word) -> i64
        requires { 128 ≤ command.c }
        ensures value { result ≡ kern_of self.now command }
        ensures bound { unsigned_abs result < 2 ^ 31 }
    {
        self.metrics.kern(command)
    }

    /// The checksum, by which a driver sees that it has the same font.
    pub fn checksum(&self) -> u32
        ensures { result ≡ checksum_of self.now.file }
    {
        self.metrics.file.checksum()
    }

    /// The design size in sp.
    pub fn design_size(&self) -> i64
        ensures value { result ≡ pos (design_size_of self.now.file) }
        ensures bound { design_size_of self.now.file < 2 ^ 28 }
    {
        i64::from(self.metrics.file.design_size())
    }

    /// The size at which it is used, in sp.
    pub fn size(&self) -> i64
        ensures value { result ≡ pos self.now.size }
        ensures some { 1 ≤ self.now.size }
        ensures bound { self.now.size < 2 ^ 27 }
    {
        i64::from(self.metrics.size)
    }
}

/// Whether two files have the same bytes and are used at the same size.
fn same_use(a: &Metrics, b: &Metrics) -> bool
    ensures { IsTrue result ↔ ((a.now.size ≡ b.now.size) × (a.now.file.bytes ≡ b.now.file.bytes)) }
{
    a.size == b.size && a.file.bytes.same(&b.file.bytes)
}
