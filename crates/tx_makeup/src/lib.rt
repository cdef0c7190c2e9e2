//! Page make-up on parts of TeX's state (TeX: The Program, sections 638 to 644, 1026 and 1082): the page of a box that is shipped,
//! what \vsplit splits off, where \output's tokens end.
//!
//! Proved: what each makes of the parts, and exactly when each error comes. Only tested: that this is what TeX does, on documents
//! that Knuth's TeX sets alike.
//!
//! Read `page`, `shipping`, `splitting` and `marker`.
#![tactic(auto)]

mod marker;
mod page;
mod shipping;
mod splitting;

pub use marker::take_marker;
pub use shipping::{discard, ship};
pub use splitting::split;
