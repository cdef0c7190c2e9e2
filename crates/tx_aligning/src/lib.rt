//! The commands of alignments, carried out on TeX's state (TeX: The Program, part 37; The TeXbook, chapter 22): \halign and its
//! preamble, rows and their entries, \noalign, and the alignment's end.
//!
//! Proved: what each does to the state, and exactly when each error comes. Only tested: that this is what TeX does, on documents
//! that Knuth's TeX sets alike (call_cases, tools/check-alignments).
//!
//! Read `standing`, `preambles`, `entries` and `ends`.
#![tactic(auto)]

mod ends;
mod entries;
mod preambles;
mod standing;

pub use ends::end_align;
pub use entries::{begin_entry, end_entry, end_part};
pub use preambles::{align, begin_align, begin_noalign, expand_next, feed_template, set_tabskip};
