//! Parts of TeX's state that need nothing of commands and expansion: what is due, the text that is being taken, and tokens that are
//! kept for later; and, with the table, the fonts, the lists and what is known of hyphenation, copies of them, their comparison and
//! their end. How each of them is dropped is proved here once: what holds them together is dropped by a call.
//!
//! Proved: a copy is equal to what it is a copy of, two parts are told apart exactly where they differ, what the text that is being
//! taken makes of one more token, and what is read next of the tokens that are kept. Only tested: that this is TeX's, on documents
//! that Knuth's TeX reads alike.
//!
//! Read `parts`, `due`, `text`, `kept_tokens`; then `kept`, `same`, `small` and `large`.
#![tactic(auto)]

mod due;
mod kept;
mod kept_tokens;
mod large;
mod parts;
mod same;
mod small;
mod text;

pub use due::push_work;
pub use kept_tokens::release_kept;
pub use large::LargeParts;
pub use parts::{Due, FontRequest, KeptToken, OpenText};
pub use same::{same_begun, same_kept, same_lists, same_words};
pub use small::SmallParts;
pub use text::is_global;
