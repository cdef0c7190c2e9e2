//! What of a rule is read, and what comes next.
use tx_node::Rule;
use tx_scan::{DimenScan, KeyScan};

/// A side of a rule.
#[derive(Clone, Copy)]
pub enum Side {
    Width,
    Height,
    Depth,
}

/// The part of a rule that comes next.
#[derive(Clone, Copy)]
pub enum RulePart {
    /// The name of a side, if there is one, with spaces before it.
    Start,
    /// The name of this side.
    Name(Side, KeyScan),
    /// The size of this side.
    Size(Side),
}

/// The sides and sizes of a rule that are being read.
#[derive(Drop)]
pub struct RuleScan {
    /// The rule as it is so far.
    pub rule: Rule,
    pub part: RulePart,
    /// The size of a side.
    pub size: DimenScan,
}
