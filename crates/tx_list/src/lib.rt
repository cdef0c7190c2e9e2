//! Lists of values with one owner, for all crates above: what is asked of a value that can be kept, and the list and the stack
//! that keep any number of them. Contracts see the list of the values. `specs/` says when two values of plain data are equal.
//!
//! Proved: a list is the list of its values, a stack that of its values with the newest first, and `same` is exactly equality.
//! Nothing is left to tests.
//!
//! Read `kept`, what is asked of a value; then `items`, `stack` and `options`; and `results`, whose `both` makes one
//! result of two.
#![tactic(auto)]

mod items;
mod kept;
mod options;
mod results;
mod stack;

pub use items::{Items, same_items};
pub use kept::Kept;
pub use options::{same_option, share_option};
pub use results::both;
pub use stack::Stack;
