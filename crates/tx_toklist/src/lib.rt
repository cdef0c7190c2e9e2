//! Lists of tokens: those that one owner builds, those that many share, and the macros that are made of them (The
//! TeXbook, chapter 20; TeX: The Program, parts 20 and 25).
//!
//! Proved: lists are the lists that they are said to be, and `same` is exactly equality. Nothing is left to tests.
//!
//! Modules in reading order: `toks`, `tok_list`, `braces`, `parameters`, `body`, `macros`; and `item`, what is fed where not
//! every token may come.
#![tactic(auto)]

mod body;
mod braces;
mod item;
mod macros;
mod parameters;
mod tok_list;
mod toks;

pub use body::{Body, Slot, Slots};
pub use braces::{begins_group, ends_group};
pub use item::Item;
pub use macros::Macro;
pub use parameters::ParameterText;
pub use tok_list::TokList;
pub use toks::{Lists, Toks};
