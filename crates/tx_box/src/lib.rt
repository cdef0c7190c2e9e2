//! The commands of boxes (TeX: The Program, part 47): how a box begins and ends, boxes that were made before, and where each of
//! them goes: into the list that is being built, a register, or the DVI file.
//!
//! Proved: what each command makes of the lists and the table, what it leaves to a turn of its own and what that costs, and
//! exactly when each error comes. Only tested: that this is what TeX does, on documents that Knuth's TeX reads alike
//! (tools/check-boxes).
//!
//! Read `parts`, `kept`, `parameters`, `opening`, `formulas`, `placing`, `sources`, `kinds`, `leaving`, `building`,
//! `formula_lists`, `breaks`, `inserts` and `due_work`.
#![tactic(auto)]

mod breaks;
mod building;
mod due_work;
mod formula_lists;
mod formulas;
mod inserts;
mod kept;
mod kinds;
mod leaving;
mod opening;
mod parameters;
mod parts;
mod placing;
mod sources;

pub use breaks::{begin_break, end_break};
pub use building::{Ended, begin_box, end_box, greatest_depth, leave_list, reset_shape};
pub use formula_lists::{begin_display, begin_formula, end_formula};
pub use formulas::{append_atom, append_noad, settle, with_nodes};
pub use inserts::{
    InsertParams, begin_vertical, end_insert, end_vertical, insert_params, whole_size,
};
pub use kinds::{every_in, goal_of, size_in};
pub use leaving::split_list;
pub use parameters::{across, down, leading_of};
pub use parts::{Done, Lists, OpenBox, OpenFormula, Target, Work};
pub use placing::place;
pub use sources::{copy_register, take_last, unbox, use_register};
