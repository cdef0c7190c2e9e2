//! The part in which two texts differ, and the edit that gives a file other contents: a client that has the whole text of a file tells
//! the engine no more than what changed in it.
//!
//! Proved: the part is what stands between the longest common beginning and, behind it, the longest common end, and no shorter part
//! exchanged makes one text the other; the edit fits and gives the file these contents. Nothing is left to tests.
//!
//! Read `part`, then `contents`.
#![tactic(auto)]

mod contents;
mod part;

pub use contents::edit_to;
pub use part::{Differing, differing_part};
