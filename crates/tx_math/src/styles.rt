//! Styles (TeX: The Program, sections 688, 702 and 703).
ghost use Rattle.std.specs.Prelude.{◌≡◌};
ghost use Rattle.tx_math.specs.Styles as spec;

use crate::params::MathSize;

/// The same style, cramped.
pub fn cramped(style: u8) -> u8
    ensures { result ≡ spec.cramped style }
{
    style / 2 * 2 + 1
}

/// The style of a subscript.
pub fn subscript_style(style: u8) -> u8
    ensures { result ≡ spec.subscript_style style }
{
    style / 4 * 2 + 5
}

/// The style of a superscript.
pub fn superscript_style(style: u8) -> u8
    ensures { result ≡ spec.superscript_style style }
{
    style / 4 * 2 + 4 + style % 2
}

/// The style above the line of a fraction.
pub fn numerator_style(style: u8) -> u8
    ensures { result ≡ spec.numerator_style style }
{
    style - style / 6 * 2 + 2
}

/// The style below the line of a fraction.
pub fn denominator_style(style: u8) -> u8
    ensures { result ≡ spec.denominator_style style }
{
    style / 2 * 2 - style / 6 * 2 + 3
}

/// The size of its fonts.
pub fn size_of(style: u8) -> MathSize
    ensures { result ≡ spec.size_of style }
{
    if style < 4 {
        MathSize::Text
    } else if style < 6 {
        MathSize::Script
    } else {
        MathSize::ScriptScript
    }
}

/// The size of its scripts' fonts.
pub fn script_size(style: u8) -> MathSize
    ensures { result ≡ spec.script_size style }
{
    if style < 4 {
        MathSize::Script
    } else {
        MathSize::ScriptScript
    }
}
