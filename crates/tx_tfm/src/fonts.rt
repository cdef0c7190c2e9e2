//! The fonts of a run by their numbers.
ghost use Rattle.std.specs.Prelude.{◌≡◌, ◌↔◌, ◌<◌, ◌≤◌, ◌^◌, ◌+◌, ◌-◌, ◌++◌, ◌∷◌, [], ℕ, length, unsigned_abs, slice_get, option_copied, IsTrue, IfSome, IfOk, OnOk, OnErr};
ghost use Rattle.tx_tfm.specs.Fonts as spec;

use super::named::{NamedFont, tellable};
use super::rules::Size;
use super::state::FontState;
use std::alloc::{AllocError, Global};
use std::marker::Model;
use tx_bytes::Bytes;
use tx_list::{Items, Kept, same_items};
use tx_prim::FontNumber;

/// The most fonts that can be loaded, beside \nullfont.
const MOST: usize = 255;

/// The fonts of a run. Contracts see the list of them, the first of which, number 0, is \nullfont.
#[derive(Drop)]
pub struct Fonts {
    null: FontState,
    loaded: Vec<FontState>,
}

impl Model for Fonts {
    ghost use Rattle.std.specs.Prelude.{List, ◌∷◌};
    ghost use Rattle.tx_tfm.specs.declared.state.FontState.{FontState};
    ghost use Rattle.tx_tfm.specs.Fonts.{AreFonts};

    ghost Value = { List FontState };

    ghost view = { λ f. f.null ∷ f.loaded.items };

    ghost invariant = { λ f. AreFonts (f.null ∷ f.loaded.items) };
}

/// The number of the first of these fonts, which are all that were loaded, that has this name and size.
fn find_in(loaded: &[FontState], name: &[u8], size: Size) -> Option<u8>
    requires { length loaded.now ≤ 255 }
    ensures { result ≡ spec.found_from 1 loaded.now name.now size }
{
    let mut number: u8 = 0;
    for state in loaded {
        number += 1;
        if state.is_asked(name, size) {
            return Some(number);
        }
    }
    None
}

impl Fonts {
    /// \nullfont alone, as INITEX has it; takes no memory.
    pub fn new(alloc: Global) -> Fonts
        ensures { result ≡ spec.no_fonts }
    {
        Fonts {
            null: FontState::null(alloc),
            loaded: Vec::new(alloc),
        }
    }

    /// How many were loaded, at most 255; the last of them has this number.
    pub fn len(&self) -> u8
        ensures { result + 1 ≡ length self.now }
    {
        self.loaded.len() as u8
    }

    /// Whether no other font can be loaded.
    pub fn is_full(&self) -> bool
        ensures { IsTrue result ↔ (length self.now ≡ 256) }
    {
        self.loaded.len() == MOST
    }

    /// What holds of the fonts of every run.
    pub fn are_fonts(&self)
        ensures { spec.AreFonts self.now }
    {
        let _loaded = &self.loaded;
    }

    /// The font of a number as commands see it, lent; None where no font has it.
    #[tactic(auto, using(crate::proofs::Numbered::number_steps))]
    fn state(&self, number: u8) -> Option<&FontState>
        ensures found { option_copied result ≡ slice_get self.now number }
        ensures tellable { IfSome result (λ state. spec.IsState state.now) }
    {
        if number == 0 {
            return Some(&self.null);
        }
        self.loaded.get(usize::from(number) - 1)
    }

    /// The font of a number, lent; None for \nullfont and where no font has it.
    #[tactic(auto, using(crate::proofs::Numbered::number_steps))]
    pub fn get(&self, number: u8) -> Option<&NamedFont>
        ensures found { option_copied result ≡ spec.font_at self.now number }
        ensures tellable { IfSome result (λ font. spec.IsTellable font.now) }
    {
        if number == 0 {
            return None;
        }
        match self.state(number) {
            Some(state) => state.named(),
            None => None,
        }
    }

    /// Whether the font of a number has a character.
    pub fn has_character(&self, number: u8, code: u8) -> bool
        ensures { result ≡ spec.has_character self.now number code }
    {
        match self.get(number) {
            Some(named) => named.font.is_there(code),
            None => false,
        }
    }

    /// The width of a character of the font of a number, in sp; 0 where no font has it.
    pub fn width(&self, number: u8, code: u8) -> i64
        ensures value { result ≡ spec.character_width self.now number code }
        ensures bound { unsigned_abs result < 2 ^ 31 }
    {
        match self.get(number) {
            Some(named) => named.font.width(code),
            None => 0,
        }
    }

    /// The height of a character of the font of a number, in sp; 0 where no font has it.
    pub fn height(&self, number: u8, code: u8) -> i64
        ensures value { result ≡ spec.character_height self.now number code }
        ensures bound { unsigned_abs result < 2 ^ 31 }
    {
        match self.get(number) {
            Some(named) => named.font.height(code),
            None => 0,
        }
    }

    /// The depth of a character of the font of a number, in sp; 0 where no font has it.
    pub fn depth(&self, number: u8, code: u8) -> i64
        ensures value { result ≡ spec.character_depth self.now number code }
        ensures bound { unsigned_abs result < 2 ^ 31 }
    {
        match self.get(number) {
            Some(named) => named.font.depth(code),
            None => 0,
        }
    }

    /// The italic correction of a character of the font of a number, in sp; 0 where no font has it.
    pub fn italic(&self, number: u8, code: u8) -> i64
        ensures value { result ≡ spec.character_italic self.now number code }
        ensures bound { unsigned_abs result < 2 ^ 31 }
    {
        match self.get(number) {
            Some(named) => named.font.italic(code),
            None => 0,
        }
    }

    /// Parameter `n`, from 1 on, of the font of a number, as it is now. The first is the slant, a multiple of 2^-16; the others are
    /// sizes in sp, 0 past the last one.
    #[tactic(auto, using(crate::proofs::Numbered::number_steps))]
    pub fn parameter(&self, number: u8, n: u16) -> i64
        requires { 1 ≤ n }
        ensures value { result ≡ spec.font_parameter self.now number n }
        ensures bound { unsigned_abs result ≤ 2 ^ 31 }
    {
        match self.state(number) {
            Some(state) => state.parameter(n),
            None => 0,
        }
    }

    /// How many parameters the font of a number has, at least seven.
    #[tactic(auto, using(crate::proofs::Numbered::number_steps))]
    pub fn parameter_count(&self, number: u8) -> usize
        ensures { result ≡ spec.font_parameter_count self.now number }
    {
        match self.state(number) {
            Some(state) => state.parameter_count(),
            None => 7,
        }
    }

    /// Whether \fontdimen can mean parameter `n` of the font of a number: the font has it, or was loaded last (TeX: The Program,
    /// section 578).
    pub fn has_parameter(&self, number: u8, n: u16) -> bool
        ensures { result ≡ spec.has_parameter self.now number n }
    {
        n > 0 && (number == self.len() || usize::from(n) <= self.parameter_count(number))
    }

    /// Gives parameter `n` of the font of a number a value; those between it and the last one are 0 from now on. Nothing changes
    /// where `n` is 0 or no font has the number. After want of memory, its only error, the parameters of the font may only be
    /// dropped; its file and size, and the other fonts', are the same in any case.
    #[tactic(auto, using(crate::proofs::Numbered::number_steps))]
    pub fn set_parameter(&mut self, number: u8, n: u16, value: i32) -> Result<(), AllocError>
        ensures value { OnOk result (self.new ≡ spec.with_font_parameter self.old number n value) }
        ensures files { (other : ℕ) → spec.font_at self.new other ≡ spec.font_at self.old other }
    {
        if number == 0 {
            return self.null.set_parameter(n, value);
        }
        let at = usize::from(number) - 1;
        if at < self.loaded.len() {
            return self.loaded[at].set_parameter(n, value);
        }
        Ok(())
    }

    /// \hyphenchar or \skewchar of the font of a number; -1 where no font has it.
    #[tactic(auto, using(crate::proofs::Numbered::number_steps))]
    pub fn integer(&self, kind: FontNumber, number: u8) -> i32
        ensures { result ≡ spec.font_integer kind self.now number }
    {
        match self.state(number) {
            Some(state) => state.integer(kind),
            None => -1,
        }
    }

    /// Gives \hyphenchar or \skewchar of the font of a number a value; nothing changes where no font has it.
    #[tactic(auto, using(crate::proofs::Numbered::number_steps))]
    pub fn set_integer(&mut self, kind: FontNumber, number: u8, value: i32)
        ensures { self.new ≡ spec.with_font_integer kind self.old number value }
    {
        if number == 0 {
            self.null.set_integer(kind, value);
            return;
        }
        let at = usize::from(number) - 1;
        if at < self.loaded.len() {
            self.loaded[at].set_integer(kind, value);
        }
    }

    /// The text of the identifier of the font of a number: the name by which \font named it last, or `nullfont` (TeX: The Program,
    /// sections 552 and 1257).
    #[tactic(auto, using(crate::proofs::Numbered::number_steps))]
    pub fn identifier(&self, number: u8) -> &[u8]
        ensures { result.now ≡ spec.font_identifier self.now number }
    {
        if number == 0 {
            return b"nullfont";
        }
        match self.state(number) {
            Some(state) => state.identifier.as_slice(),
            None => b"",
        }
    }

    /// Gives the identifier of the font of a number a text; nothing changes where no font has it.
    #[tactic(auto, using(crate::proofs::Numbered::number_steps))]
    pub fn set_identifier(&mut self, number: u8, identifier: Bytes)
        ensures { self.new ≡ spec.with_font_identifier self.old number identifier }
    {
        if number == 0 {
            self.null.set_identifier(identifier);
            return;
        }
        let at = usize::from(number) - 1;
        if at < self.loaded.len() {
            self.loaded[at].set_identifier(identifier);
        }
    }

    /// The name of the font of a number as \font was given it; `nullfont` for \nullfont and where no font has it.
    pub fn name(&self, number: u8) -> &[u8]
        ensures { result.now ≡ spec.font_name self.now number }
    {
        match self.get(number) {
            Some(named) => named.name.as_slice(),
            None => b"nullfont",
        }
    }

    /// The first font that \font gives for this name and size, where it was loaded already (TeX: The Program, section 1260).
    pub fn find(&self, name: &[u8], size: Size) -> Option<u8>
        ensures { result ≡ spec.found self.now name.now size }
    {
        find_in(self.loaded.as_slice(), name, size)
    }

    /// Puts a font with these \hyphenchar and \skewchar behind the others, and answers its number. After want of memory nothing has
    /// changed.
    pub fn push(
        &mut self,
        alloc: Global,
        font: NamedFont,
        hyphen: i32,
        skew: i32,
    ) -> Result<u8, AllocError>
        requires room { length self.old < 256 }
        requires named { length font.name ≤ 255 }
        ensures number { IfOk result (λ number. number ≡ length self.old) }
        ensures ok { OnOk result (self.new ≡ self.old ++ spec.loaded_state font hyphen skew ∷ []) }
        ensures err { OnErr result (self.new ≡ self.old) }
    {
        tellable(&font);
        let state = FontState::loaded(alloc, font, hyphen, skew)?;
        self.loaded.push(state)?;
        Ok(self.len())
    }

    /// Whether both have the same fonts, with the same names, bytes, sizes, parameters and numbers.
    pub fn same(&self, other: &Fonts) -> bool
        ensures { IsTrue result ↔ (self.now ≡ other.now) }
    {
        self.null.same(&other.null) && same_items(self.loaded.as_slice(), other.loaded.as_slice())
    }

    /// A second list of the same fonts, which shares their files. Its only error is want of memory.
    pub fn share(&self) -> Result<Fonts, AllocError>
        ensures { IfOk result (λ twin. twin ≡ self.now) }
    {
        let loaded = Items::from_slice(*self.loaded.allocator(), self.loaded.as_slice())?;
        Ok(Fonts {
            null: self.null.share()?,
            loaded: loaded.into_vec(),
        })
    }
}

impl Kept for Fonts {
    fn share(&self) -> Result<Self, AllocError> {
        Fonts::share(self)
    }

    fn same(&self, other: &Self) -> bool {
        Fonts::same(self, other)
    }
}

/// A clone has the same fonts. Its only error is want of memory.
impl Clone for Fonts {
    ghost is_clone = { λ source copy. copy ≡ source };

    fn clone(&self) -> Result<Self, AllocError> {
        Fonts::share(self)
    }
}
