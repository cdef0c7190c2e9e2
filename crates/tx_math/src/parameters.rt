//! The parameters of symbol and extension fonts (TeX: The Program, sections 700 and 701).
ghost use Rattle.std.specs.Prelude.{◌≡◌, ◌≤◌, ◌^◌, unsigned_abs};
ghost use Rattle.tx_math.specs.Parameters as spec;
ghost use Rattle.tx_math.specs.Setters.{math_in};
ghost use Rattle.tx_math.specs.Styles.{size_of as size_in};

use crate::params::{FamilyFonts, MathSize};
use crate::setter::Setter;
use crate::styles::size_of;

/// The fonts of the families at a size.
fn fonts_at(families: &FamilyFonts, size: MathSize) -> &[u8]
    ensures { result.now ≡ spec.fonts_at families.now size }
{
    match size {
        MathSize::Text => &families.text,
        MathSize::Script => &families.script,
        MathSize::ScriptScript => &families.script_script,
    }
}

impl Setter<'_> {
    /// The number of the font of a family at a size, 0 where it has none.
    pub fn family_font(&self, size: MathSize, family: u8) -> u8
        ensures { result ≡ spec.family_font (math_in self.now) size family }
    {
        fonts_at(&self.params.families, size)
            .get(usize::from(family))
            .copied()
            .unwrap_or(0)
    }

    /// Parameter `n` of the symbol font of a size, in sp.
    pub fn symbol(&self, size: MathSize, n: u16) -> i64
        requires { 1 ≤ n }
        ensures value { result ≡ spec.symbol (math_in self.now) size n }
        ensures bound { unsigned_abs result ≤ 2 ^ 31 }
    {
        self.fonts.parameter(self.family_font(size, 2), n)
    }

    /// Parameter `n` of the symbol font in a style, in sp.
    pub fn symbol_in(&self, style: u8, n: u16) -> i64
        requires { 1 ≤ n }
        ensures value { result ≡ spec.symbol (math_in self.now) (size_in style) n }
        ensures bound { unsigned_abs result ≤ 2 ^ 31 }
    {
        self.symbol(size_of(style), n)
    }

    /// Parameter `n` of the extension font in a style, in sp.
    pub fn extension_in(&self, style: u8, n: u16) -> i64
        requires { 1 ≤ n }
        ensures value { result ≡ spec.extension (math_in self.now) (size_in style) n }
        ensures bound { unsigned_abs result ≤ 2 ^ 31 }
    {
        self.fonts.parameter(self.family_font(size_of(style), 3), n)
    }

    /// Whether the symbol font of a size has 22 parameters at least, and its extension font 13.
    fn has_parameters(&self, size: MathSize) -> bool
        ensures { result ≡ spec.has_parameters (math_in self.now) size }
    {
        self.fonts.parameter_count(self.family_font(size, 2)) >= 22
            && self.fonts.parameter_count(self.family_font(size, 3)) >= 13
    }

    /// Whether those of all sizes have.
    pub fn has_all_parameters(&self) -> bool
        ensures { result ≡ spec.has_all_parameters (math_in self.now) }
    {
        self.has_parameters(MathSize::Text)
            && self.has_parameters(MathSize::Script)
            && self.has_parameters(MathSize::ScriptScript)
    }
}

/// Half of a size, in sp; an odd one is made greater by 1 first.
pub fn half(size: i64) -> i64
    requires { unsigned_abs size ≤ 2 ^ 40 }
    ensures value { result ≡ spec.half size }
    ensures bound { unsigned_abs result ≤ unsigned_abs size }
{
    if size < 0 {
        -((size.unsigned_abs() / 2) as i64)
    } else {
        ((size.unsigned_abs() + 1) / 2) as i64
    }
}

/// Four fifths of a height, in sp, of either sign, rounded down.
pub fn four_fifths(height: i64) -> i64
    requires { unsigned_abs height ≤ 2 ^ 40 }
    ensures value { result ≡ spec.four_fifths height }
    ensures bound { unsigned_abs result ≤ unsigned_abs height }
{
    (4 * height.unsigned_abs() / 5) as i64
}

/// A quarter of a height, in sp, of either sign, rounded down.
pub fn quarter(height: i64) -> i64
    requires { unsigned_abs height ≤ 2 ^ 40 }
    ensures value { result ≡ spec.quarter height }
    ensures bound { unsigned_abs result ≤ unsigned_abs height }
{
    (height.unsigned_abs() / 4) as i64
}
