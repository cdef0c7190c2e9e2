//! Items that hold no list: those that a node keeps in itself, and those that it shares.
use crate::character::{Character, Ligature};
use crate::rule::Rule;
use tx_bytes::Bytes;
use tx_num::Glue;
use tx_toklist::TokList;

/// Where a kern comes from (TeX: The Program, section 155). What stands at both ends of a formula in a text is one too, as wide as
/// \mathsurround (section 147), but \unkern and \lastkern don't know it.
#[derive(Clone, Copy, PartialEq, Eq)]
pub enum KernKind {
    /// From a font's table, or from TeX itself.
    Implicit,
    /// From \accent, on both sides of it.
    Accent,
    /// From \kern.
    Explicit,
    /// From the beginning of a formula.
    MathOn,
    /// From its end.
    MathOff,
}

/// A small item, which its node holds.
#[derive(Clone, Copy)]
pub enum Plain {
    /// A kern of so many sp.
    Kern(KernKind, i32),
    /// Glue.
    Glue(Glue),
    /// A penalty for a break at this place.
    Penalty(i32),
    /// A character.
    Character(Character),
}

/// How the copies of leaders are spread (TeX: The Program, section 149).
#[derive(Clone, Copy, PartialEq, Eq)]
pub enum LeadersKind {
    /// \leaders.
    Aligned,
    /// \cleaders.
    Centered,
    /// \xleaders.
    Expanded,
}

/// Leaders of a rule: glue that is filled with it.
#[derive(Clone, Copy)]
pub struct Leaders {
    pub kind: LeadersKind,
    pub glue: Glue,
    pub rule: Rule,
}

/// A larger item, which clones of its node share.
#[derive(Drop)]
pub enum Shared {
    /// A rule.
    Rule(Rule),
    /// Leaders of a rule.
    Leaders(Leaders),
    /// The bytes of a \special.
    Special(Bytes),
    /// A ligature.
    Ligature(Ligature),
    /// The tokens of a \mark (TeX: The Program, section 141).
    Mark(TokList),
}
