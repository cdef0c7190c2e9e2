//! A paragraph's list set as lines (TeX: The Program, sections 816 and 876 to 890; The TeXbook, chapter 14): how the list ends,
//! what line breaking sees of its items, what stands in each line from one break to the next, and the lines in a vertical list,
//! with leading before them and penalties between them.
//!
//! Proved: the list is broken as `tx_linebreak` breaks its pieces, of whose chains only one can be chosen; so the lines, and each
//! error but want of memory, are those of a function of the list, the shape and the parameters, which the definitions compute.
//! Only tested: that the definitions are TeX's.
//!
//! Modules in reading order: `params`, `lines`, `error`; `ending`, `pieces`; `task`, `first`, `line_list`, `line`; `penalty`,
//! `so_far`, `setting`; `set`.
#![tactic(auto)]

mod ending;
mod error;
mod first;
mod line;
mod line_list;
mod lines;
mod params;
mod penalty;
mod pieces;
mod set;
mod setting;
mod so_far;
mod task;

pub use error::ParError;
pub use line::Line;
pub use line_list::line_of;
pub use lines::Lines;
pub use params::ParParams;
pub use set::{first_lines, paragraph};
