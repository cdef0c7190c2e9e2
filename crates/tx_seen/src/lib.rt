//! What a token is when it is read: the token with what it means at that moment; the errors that end a run; and what
//! everything answers that is fed tokens one at a time. A scan's definition is a grammar on the list of what was taken, and
//! its answers are what that grammar gives of it.
//!
//! Proved: what a token is told to be is what it means, each error has its number and is found by it, and a
//! value equals its copies. Only tested: the words of the errors, which docs/FORMATS.md has too (`tools/check-errors`).
//!
//! Read `place`, where something can stand in TeX's table, and `meaning`; then `seen`, `error`, `fed`, `item` and
//! `quantities`.
#![tactic(auto)]

mod error;
mod fed;
mod item;
mod meaning;
mod place;
mod quantities;
mod seen;

pub use error::TexError;
pub use fed::{Fed, Kind, Value, Want};
pub use item::Item;
pub use meaning::Meaning;
pub use place::{FontName, FontSize, Place};
pub use quantities::Quantities;
pub use seen::Seen;
