//! The sides and sizes of a rule, token by token (The TeXbook, chapter 21; TeX: The Program, section 463).
//!
//! Proved: a rule is read exactly as the grammar of tokens and values says, and what stands behind it is given back. Only tested:
//! that the grammar is TeX's, on documents that Knuth's TeX reads alike.
//!
//! Read `scans`, how far a rule is read; then `rule`, and `clones`. Scans of sizes and of keywords are tx_scan's.
#![tactic(auto)]

mod clones;
mod rule;
mod scans;

pub use scans::{RulePart, RuleScan, Side};
