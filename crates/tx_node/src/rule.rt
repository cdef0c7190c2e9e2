//! Rules.

/// A rule: its sides in sp. A side that isn't given runs as far as the box that the rule stands in.
#[derive(Clone, Copy)]
pub struct Rule {
    pub width: Option<i32>,
    pub height: Option<i32>,
    pub depth: Option<i32>,
}
