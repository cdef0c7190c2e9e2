//! Displayed formulas in the vertical list (TeX: The Program, sections 1145 to 1148 and 1199 to 1205; The TeXbook, chapter 19): how
//! far the line before one reaches; how the boxes of a formula and of its number share a line, which may make the formula shrink; and
//! what stands in the list then, with glue, penalties and leading.
//!
//! Proved: \predisplaysize, how the boxes are set, what is appended, \badness and what is reported are exactly as defined, and so is
//! each error. Only tested: that the definitions are TeX's.
//!
//! Modules in reading order: `types`, `error`, `packing`, `sizes`; `edge`; `fitted`, `fitting`; `arranged`, `arranging`; `appending`;
//! `number`, `display`.
#![tactic(auto)]

mod appending;
mod arranged;
mod arranging;
mod display;
mod edge;
mod error;
mod fitted;
mod fitting;
mod number;
mod packing;
mod sizes;
mod types;

pub use display::append_display;
pub use edge::{LEAST_SIZE, size_behind};
pub use error::DisplayError;
pub use number::number_of;
pub use types::{DisplayParams, DisplayPlace, EquationNumber, Told};
