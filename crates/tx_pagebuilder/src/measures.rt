//! What a page measures.
use tx_insert::{Break, Sums};

/// What a page has (TeX: The Program, section 980).
#[derive(Clone, Copy, PartialEq, Eq)]
pub enum Contents {
    /// Nothing that counts, though marks and specials may stand on it.
    Nothing,
    /// The same, and the page before was fired; until its \output ends its quantities can still be read.
    Fired,
    /// Insertions, and neither box nor rule.
    Inserts,
    /// A box or a rule.
    Solid,
}

/// A page beside its nodes (TeX: The Program, sections 980 to 989): what it has; \pagegoal, and \maxdepth as it stood when the page
/// got its first box, rule or insertion, in sp; the sums over its nodes; \insertpenalties; the best break; and whether its last
/// node stays where a break comes behind it.
#[derive(Clone, Copy)]
pub struct Measures {
    pub contents: Contents,
    pub goal: i32,
    pub most: i32,
    pub sums: Sums,
    pub insert_penalties: i32,
    pub best: Option<Break>,
    pub after_solid: bool,
}

/// What comes of a contribution.
#[derive(Clone, Copy)]
pub enum Built {
    /// The page goes on.
    Went,
    /// The page is to be fired.
    Fires,
}

/// The measures behind a node, and what came of it.
#[derive(Clone, Copy)]
pub(crate) struct Placed {
    pub measures: Measures,
    pub built: Built,
}
