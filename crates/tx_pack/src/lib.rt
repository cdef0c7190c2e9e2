//! Packing lists into boxes of a size, with glue set by exact fractions (TeX: The Program, part 33).
//!
//! Proved: a box's sizes, how its glue is set, how bad that is, what is said of it and the rule at an overfull list's end
//! are exactly as defined, and so is each error. Only tested: sizes and badnesses that Knuth's TeX gives.
//!
//! Modules in reading order: `types`, `sums`, `asked`, `stretching`, `verdicts`, `reports`, `packing`,
//! `tops`.
#![tactic(auto)]

mod asked;
mod packing;
mod reports;
mod stretching;
mod sums;
mod tops;
mod types;
mod verdicts;

pub use packing::{extent_of, hpack, vpack};
pub use sums::{Orders, Sums, sums_of};
pub use tops::vtop;
pub use types::{Extent, Goal, PackError, PackParams, Packed};
