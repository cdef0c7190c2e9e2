//! Pending input: what TeX reads before it asks for another line (TeX: The Program, part 22). It is one list of tokens,
//! markers and lines, whose front is replaced; the code keeps a stack of shared lists and lines, none of which is copied
//! to be read, and of tokens that were given back or that \noexpand holds.
//!
//! Proved: each call is its definition on one flat list, however the lists are cut. Only tested: that the definition is
//! TeX's, on input worked out by hand.
//!
//! Modules in reading order: `next`, `list`, `line`, `source`, `same`, `level`, `pending`.
#![tactic(auto)]

mod level;
mod line;
mod list;
mod next;
mod pending;
mod same;
mod source;

pub use next::{ColumnPart, Next};
pub use pending::Pending;
