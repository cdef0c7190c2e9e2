//! What else line breaking is given.
use tx_num::{Glue, Scaled};

/// How far a line is indented and how wide it is, in sp.
#[derive(Clone, Copy)]
pub struct LineShape {
    pub indent: Scaled,
    pub width: Scaled,
}

/// The shapes of the lines from the first one on, at least one; the last one is that of all further lines too.
pub type Shape = tx_list::Items<LineShape>;

/// The parameters of line breaking, by TeX's names.
#[derive(Clone, Copy)]
pub struct BreakParams {
    pub pretolerance: i32,
    pub tolerance: i32,
    pub emergency_stretch: Scaled,
    pub line_penalty: i32,
    pub hyphen_penalty: i32,
    pub ex_hyphen_penalty: i32,
    pub adj_demerits: i32,
    pub double_hyphen_demerits: i32,
    pub final_hyphen_demerits: i32,
    pub looseness: i32,
    pub left_skip: Glue,
    pub right_skip: Glue,
}

/// An attempt at breaking the whole list (TeX: The Program, section 863).
#[derive(Clone, Copy)]
pub enum Pass {
    /// Within \pretolerance, and not where hyphenation made a discretionary.
    First,
    /// Within \tolerance.
    Second,
    /// Within \tolerance, with \emergencystretch in each line.
    Emergency,
}
