//! The kinds of commands of formulas, as noads tell them.
ghost use Rattle.std.specs.Prelude.{◌≡◌};
ghost use Rattle.tx_formula.specs.Kinds as spec;

use tx_mlist::{AtomKind, Limits, Place};
use tx_prim::{AtomClass, AtomPart, FractionKind, LimitsKind, MathStyle};

/// The kind of an atom that \mathord or its kin begins.
pub(crate) fn kind_from(class: AtomClass) -> AtomKind
    ensures { result ≡ spec.kind_from class }
{
    match class {
        AtomClass::Ord => AtomKind::Ord,
        AtomClass::Op => AtomKind::Op(Limits::Displayed),
        AtomClass::Bin => AtomKind::Bin,
        AtomClass::Rel => AtomKind::Rel,
        AtomClass::Open => AtomKind::Open,
        AtomClass::Close => AtomKind::Close,
        AtomClass::Punct => AtomKind::Punct,
        AtomClass::Inner => AtomKind::Inner,
        AtomClass::Under => AtomKind::Under,
        AtomClass::Over => AtomKind::Over,
    }
}

/// The place of a part.
pub(crate) fn place_of(part: AtomPart) -> Place
    ensures { result ≡ spec.place_of part }
{
    match part {
        AtomPart::Nucleus => Place::Nucleus,
        AtomPart::Superscript => Place::Superscript,
        AtomPart::Subscript => Place::Subscript,
    }
}

/// Where the limits of an operator stand behind \limits or its kin.
pub(crate) fn limits_of(kind: LimitsKind) -> Limits
    ensures { result ≡ spec.limits_of kind }
{
    match kind {
        LimitsKind::Always => Limits::Always,
        LimitsKind::Never => Limits::Never,
        LimitsKind::Displayed => Limits::Displayed,
    }
}

/// The number of a style.
pub fn style_of(style: MathStyle) -> u8
    ensures { result ≡ spec.style_of style }
{
    match style {
        MathStyle::Display => 0,
        MathStyle::Text => 2,
        MathStyle::Script => 4,
        MathStyle::ScriptScript => 6,
    }
}

/// How thick the line of a fraction is, in sp; None where the fonts tell it.
pub fn thickness_of(kind: FractionKind) -> Option<i32>
    ensures { result ≡ spec.thickness_of kind }
{
    match kind {
        FractionKind::Over => None,
        FractionKind::Atop => Some(0),
    }
}
