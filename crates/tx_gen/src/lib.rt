//! A document of any number of pages that is made of a number, with the metrics of its font and a script of edits of it:
//! the same number makes the same files. `specs/Book.antt`, `Font.antt` and `Edits.antt` say what they hold.
//!
//! Proved: the files are exactly the defined ones; the script is one that is read, of edits each of which puts a letter in
//! the stead of one that stands in the document. Only tested: that TeX makes so many pages of it.
//!
//! Read `draws`, `book`, `font`, `edits`, `made`, and then `making`.
#![tactic(auto)]

mod book;
mod draws;
mod edits;
mod font;
pub mod made;
mod making;

pub use made::Made;
pub use making::make;
