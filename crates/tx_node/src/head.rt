//! What boxes, discretionaries, insertions and leaders are beside their lists.
use crate::plain::LeadersKind;
use tx_num::Glue;

/// Which way the items of a list follow one another.
#[derive(Clone, Copy, PartialEq, Eq)]
pub enum Direction {
    /// To the right, as in \hbox.
    Horizontal,
    /// Down, as in \vbox.
    Vertical,
}

/// Which part of its glue a box sets.
#[derive(Clone, Copy, PartialEq, Eq)]
pub enum Change {
    Stretch,
    Shrink,
}

/// How glue is set that isn't left natural: which part of it, of which order (0 to 3: normal, fil, fill, filll), how much of
/// it the list has in all, and how far the list has to grow, less than 0 where it has to shrink. In sp.
#[derive(Clone, Copy)]
pub struct GlueSet {
    pub change: Change,
    pub order: u8,
    pub total: i32,
    pub excess: i32,
}

/// How the glue of a box is set (TeX: The Program, sections 135 and 619).
#[derive(Clone, Copy)]
pub enum Setting {
    /// All of it is as wide as it is naturally.
    Natural,
    /// One order of it stretches or shrinks.
    Set(GlueSet),
}

/// A box beside its list: which way this goes, width, height and depth in sp, and how its glue is set.
#[derive(Clone, Copy)]
pub struct BoxHead {
    pub direction: Direction,
    pub width: i32,
    pub height: i32,
    pub depth: i32,
    pub setting: Setting,
}

/// A discretionary beside its texts (TeX: The Program, section 145): how many of the items that stand behind it in its list are
/// its no-break text, and whether hyphenation made it.
#[derive(Clone, Copy)]
pub struct BreakHead {
    pub replaced: u8,
    pub hyphenated: bool,
}

/// An insertion beside its list (TeX: The Program, section 140): its class, the height plus depth of its list, and what splits
/// it: the glue on top of what is left, the greatest depth of what is split off, and the price of what floats to another page.
/// In sp.
#[derive(Clone, Copy)]
pub struct InsertHead {
    pub class: u8,
    pub size: i32,
    pub split_top_skip: Glue,
    pub split_max_depth: i32,
    pub floating_penalty: i32,
}

/// Leaders of a box beside this (TeX: The Program, section 149): how its copies are spread, and the glue that they fill.
#[derive(Clone, Copy)]
pub struct LeadersHead {
    pub kind: LeadersKind,
    pub glue: Glue,
}
