//! What becomes of a page that was fired (TeX: The Program, sections 1012, 1015, 1017 and 1023 to 1028; The TeXbook, chapter 23):
//! its box, which is shipped or which \output reads, and what stands before the remaining contributions behind that; and what is
//! kept of pages from command to command (sections 382, 592 and 980): the page that is being built, its last node, the marks,
//! \deadcycles, and the output that has begun.
//!
//! Proved: the box, what becomes of it and what is contributed anew are exactly as defined, and so is each error; what is read of
//! what is kept, and which marks a page or a split leaves. Only tested: that the definitions are TeX's, on pages that Knuth's TeX
//! puts out so.
//!
//! Modules in reading order: `error`, `begun`, `waiting`, `page_box`, `output`; `last`, `marks`, `pages`.
#![tactic(auto)]

mod begun;
mod error;
mod last;
mod marks;
mod output;
mod page_box;
mod pages;
mod waiting;

pub use begun::Begun;
pub use error::OutputError;
pub use last::{LastItem, last_item};
pub use marks::Marks;
pub use output::Output;
pub use pages::Pages;
pub use waiting::Waiting;
