//! What \fontdimen, \hyphenchar and \skewchar say of a font, and its identifier, beside what its file says.
ghost use Rattle.std.specs.Prelude.{◌≡◌, ◌<◌, ◌≤◌, ◌^◌, false, option_copied, unsigned_abs, IfOk, OnOk};
ghost use Rattle.std.specs.Option.{option_map_or};
ghost use Rattle.tx_tfm.specs.Fonts as spec;
ghost use Rattle.tx_tfm.specs.Parameters.{parameter_at};

use super::named::{LoadedFont, NamedFont};
use super::parameters::Parameters;
use super::rules::Size;
use std::alloc::{AllocError, Global};
use tx_bytes::Bytes;
use tx_list::{Kept, same_option, share_option};
use tx_prim::FontNumber;

/// How many parameters a font has at least.
const LEAST: usize = 7;

/// A font as commands see it: \nullfont, or one that was loaded (TeX: The Program, section 549).
#[derive(Drop)]
pub struct FontState {
    /// None for \nullfont.
    pub named: Option<LoadedFont>,
    /// The parameters as they are now.
    pub parameters: Parameters,
    /// \hyphenchar.
    pub hyphen: i32,
    /// \skewchar.
    pub skew: i32,
    /// The text of the font's identifier, by which \font named it last; empty for \nullfont, and until then.
    pub identifier: Bytes,
}

impl FontState {
    /// \nullfont as INITEX has it (TeX: The Program, section 552); takes no memory.
    pub(crate) fn null(alloc: Global) -> FontState
        ensures { result ≡ spec.null_state }
    {
        FontState {
            named: None,
            parameters: Parameters::new(alloc),
            hyphen: i32::from(b'-'),
            skew: -1,
            identifier: Bytes::new(alloc),
        }
    }

    /// A font that is loaded now: it has the parameters of its file, and these numbers, and no identifier yet. Its only error is
    /// want of memory.
    pub(crate) fn loaded(
        alloc: Global,
        font: NamedFont,
        hyphen: i32,
        skew: i32,
    ) -> Result<FontState, AllocError>
        ensures { IfOk result (λ state. state ≡ spec.loaded_state font hyphen skew) }
    {
        let parameters = Parameters::of_file(alloc, &font.font)?;
        Ok(FontState {
            named: Some(LoadedFont::new(alloc, font)?),
            parameters,
            hyphen,
            skew,
            identifier: Bytes::new(alloc),
        })
    }

    /// The font that was loaded, lent.
    pub(crate) fn named(&self) -> Option<&NamedFont>
        ensures { option_copied result ≡ self.now.named }
    {
        match &self.named {
            Some(loaded) => Some(loaded.named()),
            None => None,
        }
    }

    /// Whether \font with this name and size gives this font once more.
    pub(crate) fn is_asked(&self, name: &[u8], size: Size) -> bool
        ensures { result ≡ option_map_or (spec.is_asked name.now size) self.now.named false }
    {
        match self.named() {
            Some(named) => named.is_asked(name, size),
            None => false,
        }
    }

    /// Parameter `n`, from 1 on.
    pub(crate) fn parameter(&self, n: u16) -> i64
        requires { 1 ≤ n }
        ensures value { result ≡ parameter_at self.now.parameters n }
        ensures bound { unsigned_abs result ≤ 2 ^ 31 }
    {
        self.parameters.get(n)
    }

    /// How many parameters it has.
    pub(crate) fn parameter_count(&self) -> usize
        ensures { result ≡ spec.state_count self.now }
    {
        self.parameters.len().max(LEAST)
    }

    /// Gives parameter `n` a value. After want of memory, its only error, the parameters may only be dropped.
    pub(crate) fn set_parameter(&mut self, n: u16, value: i32) -> Result<(), AllocError>
        ensures value { OnOk result (self.new ≡ spec.with_parameter n value self.old) }
        ensures named { self.new.named ≡ self.old.named }
    {
        self.parameters.set(n, value)
    }

    /// \hyphenchar or \skewchar.
    pub(crate) fn integer(&self, kind: FontNumber) -> i32
        ensures { result ≡ spec.state_integer kind self.now }
    {
        match kind {
            FontNumber::Hyphen => self.hyphen,
            FontNumber::Skew => self.skew,
        }
    }

    /// Gives \hyphenchar or \skewchar a value.
    pub(crate) fn set_integer(&mut self, kind: FontNumber, value: i32)
        ensures value { self.new ≡ spec.with_integer kind value self.old }
        ensures named { self.new.named ≡ self.old.named }
    {
        match kind {
            FontNumber::Hyphen => self.hyphen = value,
            FontNumber::Skew => self.skew = value,
        }
    }

    /// Gives its identifier a text.
    pub(crate) fn set_identifier(&mut self, identifier: Bytes)
        ensures value { self.new ≡ spec.with_identifier identifier self.old }
        ensures named { self.new.named ≡ self.old.named }
    {
        self.identifier = identifier;
    }
}

impl Kept for FontState {
    fn share(&self) -> Result<Self, AllocError> {
        Ok(FontState {
            named: share_option(&self.named)?,
            parameters: self.parameters.share()?,
            hyphen: self.hyphen,
            skew: self.skew,
            identifier: self.identifier.clone()?,
        })
    }

    fn same(&self, other: &Self) -> bool {
        self.hyphen == other.hyphen
            && self.skew == other.skew
            && self.identifier.same(&other.identifier)
            && self.parameters.same(&other.parameters)
            && same_option(&self.named, &other.named)
    }
}
