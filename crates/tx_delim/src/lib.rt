//! Delimiters (TeX: The Program, sections 706 to 714): the character of a font that is tall enough, along its successors; its box,
//! or the stack of pieces that its recipe builds; and the widest accent that fits above something (section 740). Which fonts and
//! characters are looked at is told by the caller, who knows families and styles.
//!
//! Proved: a search finds the character that is defined; a box has the defined sizes and pieces, and each error comes exactly where
//! it is defined; an accent becomes the last of its successors that fits. Only tested: that the definitions are TeX's.
//!
//! Modules in reading order: `search`, `error`, `finding`, `fitting`, `boxes`, `recipes`, `stacking`, `delimiters`.
#![tactic(auto)]

mod boxes;
mod delimiters;
mod error;
mod finding;
mod fitting;
mod recipes;
mod search;
mod stacking;

pub use boxes::{character_box, character_of, full_width};
pub use delimiters::delimiter_box;
pub use error::DelimError;
pub use finding::{begin_search, look_along};
pub use fitting::widest_fitting;
pub use search::{FontCharacter, Search};
