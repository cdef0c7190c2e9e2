//! The word that is open, and the fonts.
ghost use Rattle.std.specs.Prelude.{◌≡◌, ◌↔◌, ◌<◌, ◌≤◌, ◌++◌, ◌∷◌, [], true, None, Some, is_some, length, ℕ, IsTrue, IfOk, OnOk, OnErr};
ghost use Rattle.tx_tfm.specs.Fonts.{font_at, has_character, loaded_state, with_font_identifier, with_font_integer, with_font_parameter};
ghost use Rattle.tx_word.specs.Collecting as spec;

use crate::accent::Accent;
use crate::point::hyphen_of;
use crate::word::append_word;
use std::alloc::{AllocError, Global};
use std::marker::Model;
use std::mem::replace;
use std::rc::Rc;
use tx_bytes::Bytes;
use tx_list::{Kept, same_option, share_option};
use tx_node::Nodes;
use tx_prim::FontNumber;
use tx_tfm::{Fonts, NamedFont};

/// A word that hasn't ended: the number of its font, and its characters so far, at least one.
#[derive(Drop)]
pub struct OpenWord {
    pub font: u8,
    pub chars: Bytes,
}

impl Kept for OpenWord {
    fn share(&self) -> Result<Self, AllocError> {
        Ok(OpenWord {
            font: self.font,
            chars: self.chars.clone()?,
        })
    }

    fn same(&self, other: &Self) -> bool {
        self.font == other.font && self.chars.same(&other.chars)
    }
}

/// The fonts of a run, the word that is open at the end of the list that is being built, and the accent that waits for the
/// character below it, if there are such. Copies share the fonts until these change.
#[derive(Drop)]
pub struct Words {
    fonts: Rc<Fonts>,
    word: Option<OpenWord>,
    accent: Option<Accent>,
}

impl Model for Words {
    ghost use Rattle.tx_word.specs.Collecting.{Collecting, AreCollecting};

    ghost Value = { Collecting };

    ghost view = { λ w. record { fonts = w.fonts.value; word = w.word; accent = w.accent } };

    ghost invariant = { λ w. AreCollecting w.fonts.value w.word };
}

/// Puts a font behind those of a run, with its \hyphenchar and \skewchar, and answers its number.
fn push_font(
    fonts: &mut Rc<Fonts>,
    alloc: Global,
    font: NamedFont,
    hyphen: i32,
    skew: i32,
) -> Result<u8, AllocError>
    requires room { length fonts.old.value < 256 }
    requires named { length font.name ≤ 255 }
    ensures number { IfOk result (λ number. number ≡ length fonts.old.value) }
    ensures ok { OnOk result (fonts.new.value ≡ fonts.old.value ++ loaded_state font hyphen skew ∷ []) }
    ensures err { OnErr result (fonts.new.value ≡ fonts.old.value) }
{
    let own = Rc::make_mut(fonts)?;
    own.push(alloc, font, hyphen, skew)
}

/// Sets parameter `n` of the font of a number; where no font has the number, or `n` is 0, nothing changes.
fn set_font_parameter(
    fonts: &mut Rc<Fonts>,
    number: u8,
    n: u16,
    value: i32,
) -> Result<(), AllocError>
    ensures value { OnOk result (fonts.new.value ≡ with_font_parameter fonts.old.value number n value) }
    ensures files { (other : ℕ) → font_at fonts.new.value other ≡ font_at fonts.old.value other }
{
    let own = Rc::make_mut(fonts)?;
    own.set_parameter(number, n, value)
}

/// Sets \hyphenchar or \skewchar of the font of a number; where no font has the number, nothing changes.
fn set_font_integer(
    fonts: &mut Rc<Fonts>,
    kind: FontNumber,
    number: u8,
    value: i32,
) -> Result<(), AllocError>
    ensures ok { OnOk result (fonts.new.value ≡ with_font_integer kind fonts.old.value number value) }
    ensures err { OnErr result (fonts.new.value ≡ fonts.old.value) }
{
    let own = Rc::make_mut(fonts)?;
    own.set_integer(kind, number, value);
    Ok(())
}

/// Gives the identifier of the font of a number a text; where no font has the number, nothing changes.
fn set_font_identifier(
    fonts: &mut Rc<Fonts>,
    number: u8,
    identifier: Bytes,
) -> Result<(), AllocError>
    ensures ok { OnOk result (fonts.new.value ≡ with_font_identifier fonts.old.value number identifier) }
    ensures err { OnErr result (fonts.new.value ≡ fonts.old.value) }
{
    let own = Rc::make_mut(fonts)?;
    own.set_identifier(number, identifier);
    Ok(())
}

/// The hyphen character behind which a word allows breaks: that of its font in a paragraph, none within a box.
fn breaking(fonts: &Fonts, font: u8, in_paragraph: bool) -> Option<u8>
    ensures { result ≡ spec.breaking fonts.now font in_paragraph }
{
    if in_paragraph {
        hyphen_of(fonts, font)
    } else {
        None
    }
}

impl Words {
    /// These fonts, and neither a word nor an accent. Its only error is want of memory.
    pub fn new(alloc: Global, fonts: Fonts) -> Result<Words, AllocError>
        ensures { IfOk result (λ words. words ≡ record { fonts = fonts; word = None; accent = None }) }
    {
        Ok(Words {
            fonts: Rc::new(alloc, fonts)?,
            word: None,
            accent: None,
        })
    }

    /// The fonts, lent.
    pub fn fonts(&self) -> &Fonts
        ensures { result.now ≡ self.now.fonts }
    {
        self.fonts.as_ref()
    }

    /// Whether a word is open.
    pub fn is_open(&self) -> bool
        ensures { result ≡ is_some self.now.word }
    {
        self.word.is_some()
    }

    /// The accent that waits for the character below it, if one does.
    pub fn accent(&self) -> Option<Accent>
        ensures { result ≡ self.now.accent }
    {
        self.accent
    }

    /// From now on this accent waits, or none.
    pub fn set_accent(&mut self, accent: Option<Accent>)
        ensures { self.new ≡ record self.old { accent = accent } }
    {
        self.accent = accent;
    }

    /// The font of the next character, where this one is current.
    fn font_of(&self, font: u8) -> u8
        ensures { result ≡ spec.font_of self.now.word font }
    {
        match &self.word {
            Some(word) => word.font,
            None => font,
        }
    }

    /// Whether the font of the next character, where this one is current, has this character.
    pub fn has_next(&self, font: u8, code: u8) -> bool
        ensures { result ≡ has_character self.now.fonts (spec.font_of self.now.word font) code }
    {
        self.fonts().has_character(self.font_of(font), code)
    }

    /// A character that its font has joins the open word, or opens one in the font of this number. After want of memory, its only
    /// error, the words may only be dropped, here and in all that follows.
    pub fn join(&mut self, alloc: Global, font: u8, code: u8) -> Result<(), AllocError>
        requires { has_character self.old.fonts (spec.font_of self.old.word font) code ≡ true }
        ensures { OnOk result (self.new ≡ record self.old { word = Some (spec.joined self.old.word font code) }) }
    {
        match &mut self.word {
            Some(word) => word.chars.push(code),
            None => {
                let mut chars = Bytes::new(alloc);
                chars.push(code)?;
                self.word = Some(OpenWord { font, chars });
                Ok(())
            }
        }
    }

    /// The open word, if there is one, ends: what it becomes stands at the end of the list. `right` tells whether the boundary
    /// behind it counts.
    fn end_with(
        &mut self,
        alloc: Global,
        list: &mut Nodes,
        in_paragraph: bool,
        right: bool,
    ) -> Result<(), AllocError>
        ensures list { OnOk result (list.new ≡ list.old ++ spec.ended self.old in_paragraph right) }
        ensures words { OnOk result (self.new ≡ spec.without_word self.old) }
    {
        match replace(&mut self.word, None) {
            Some(word) => append_word(
                alloc,
                list,
                self.fonts.as_ref(),
                word.font,
                word.chars.as_slice(),
                true,
                right,
                breaking(self.fonts.as_ref(), word.font, in_paragraph),
            ),
            None => Ok(()),
        }
    }

    /// The open word, if there is one, ends, by a command that is no character. In a paragraph it allows breaks behind hyphens.
    pub fn end(
        &mut self,
        alloc: Global,
        list: &mut Nodes,
        in_paragraph: bool,
    ) -> Result<(), AllocError>
        ensures list { OnOk result (list.new ≡ list.old ++ spec.ended self.old in_paragraph true) }
        ensures words { OnOk result (self.new ≡ spec.without_word self.old) }
    {
        self.end_with(alloc, list, in_paragraph, true)
    }

    /// A character, where the font of this number is current: it joins the open word, or opens one. A font that lacks it is
    /// answered, by its number, and the word that is open ends; in a paragraph that word allows breaks behind hyphens.
    pub fn collect(
        &mut self,
        alloc: Global,
        list: &mut Nodes,
        in_paragraph: bool,
        font: u8,
        code: u8,
    ) -> Result<Option<u8>, AllocError>
        ensures lacking { IfOk result (λ lacking. lacking ≡ (spec.collected self.old in_paragraph font code).lacking) }
        ensures list { OnOk result (list.new ≡ list.old ++ (spec.collected self.old in_paragraph font code).items) }
        ensures words { OnOk result (self.new ≡ (spec.collected self.old in_paragraph font code).words) }
    {
        let own = self.font_of(font);
        if self.fonts().has_character(own, code) {
            self.join(alloc, font, code)?;
            Ok(None)
        } else {
            self.end_with(alloc, list, in_paragraph, false)?;
            Ok(Some(own))
        }
    }

    /// Puts a font behind the others, with its \hyphenchar and \skewchar, and answers its number.
    pub fn push(
        &mut self,
        alloc: Global,
        font: NamedFont,
        hyphen: i32,
        skew: i32,
    ) -> Result<u8, AllocError>
        requires room { length self.old.fonts < 256 }
        requires named { length font.name ≤ 255 }
        ensures number { IfOk result (λ number. number ≡ length self.old.fonts) }
        ensures words { OnOk result (self.new ≡ record self.old { fonts = self.old.fonts ++ loaded_state font hyphen skew ∷ [] }) }
    {
        push_font(&mut self.fonts, alloc, font, hyphen, skew)
    }

    /// Sets parameter `n` of the font of a number; where no font has the number, or `n` is 0, nothing changes.
    pub fn set_parameter(&mut self, number: u8, n: u16, value: i32) -> Result<(), AllocError>
        ensures { OnOk result (self.new ≡ record self.old { fonts = with_font_parameter self.old.fonts number n value }) }
    {
        set_font_parameter(&mut self.fonts, number, n, value)
    }

    /// Sets \hyphenchar or \skewchar of the font of a number; where no font has the number, nothing changes.
    pub fn set_integer(
        &mut self,
        kind: FontNumber,
        number: u8,
        value: i32,
    ) -> Result<(), AllocError>
        ensures { OnOk result (self.new ≡ record self.old { fonts = with_font_integer kind self.old.fonts number value }) }
    {
        set_font_integer(&mut self.fonts, kind, number, value)
    }

    /// Gives the identifier of the font of a number a text; where no font has the number, nothing changes.
    pub fn set_identifier(&mut self, number: u8, identifier: Bytes) -> Result<(), AllocError>
        ensures { OnOk result (self.new ≡ record self.old { fonts = with_font_identifier self.old.fonts number identifier }) }
    {
        set_font_identifier(&mut self.fonts, number, identifier)
    }

    /// Whether both have the same fonts, the same word is open, and the same accent waits.
    pub fn same(&self, other: &Words) -> bool
        ensures { IsTrue result ↔ (self.now ≡ other.now) }
    {
        same_option(&self.word, &other.word)
            && same_option(&self.accent, &other.accent)
            && self.fonts().same(other.fonts())
    }

    /// The same words once more, which share the fonts. Its only error is want of memory.
    pub fn share(&self) -> Result<Words, AllocError>
        ensures { IfOk result (λ twin. twin ≡ self.now) }
    {
        Ok(Words {
            fonts: self.fonts.clone()?,
            word: share_option(&self.word)?,
            accent: self.accent,
        })
    }
}
