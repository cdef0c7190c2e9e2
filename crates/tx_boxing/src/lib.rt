//! The commands of boxes and pages, carried out on TeX's state (TeX: The Program, parts 45 and 47, and sections 638 to 644).
//!
//! Proved: what each command does to the state, where the page builder is exercised, what a box that is shipped or copied leaves, and
//! exactly when each error comes. Only tested: that this is what TeX does, on documents that Knuth's TeX sets alike.
//!
//! Read `boxes`, `breaks`, `pages` and `shipping`.
#![tactic(auto)]

mod boxes;
mod breaks;
mod pages;
mod shipping;

pub use boxes::{add_rule, copy_box, open_box, remove, set_depth, take_box, unbox, use_box};
pub use breaks::begin_break;
pub use pages::{begin_vertical_list, end_run, set_dead_cycles, set_page, split};
pub use shipping::work_boxes;
