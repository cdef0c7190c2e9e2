//! Groups end, with the lists in them, and paragraphs begin and end, carried out on TeX's state (TeX: The Program, sections 1026, 1063
//! to 1068, 1086, 1090 to 1100, 1119, 1133, 1244 and 1248).
//!
//! Proved: what ends a group by its kind, what its end makes of the list in it, how paragraphs begin and end, where the page builder
//! is exercised, and exactly when each error comes. Only tested: that this is what TeX does, on documents that Knuth's TeX sets alike.
//!
//! Read `lists`, `paragraphs` and `groups`.
#![tactic(auto)]

mod groups;
mod lists;
mod paragraphs;

pub use groups::{end_group, end_semi_simple};
pub use paragraphs::{add_size, begin_shape, end_paragraph, indent, insert_par, set_graf};
