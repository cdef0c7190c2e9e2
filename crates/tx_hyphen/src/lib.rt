//! Liang's hyphenation: patterns of letters with levels say where a word may be divided, and a list of exceptions
//! comes before them. `Hyphens` holds both; the texts that it is given are those of \patterns and \hyphenation.
//!
//! Proved: `points` gives exactly the places of the exceptions or of the greatest levels, `add` and `except` answer as the
//! definitions of their texts say. Only tested: that these are Knuth's, on words that his program divides.
//!
//! Read `spelling` (what a text spells), `trie` (the tree of letters), `lexicon` (spellings by their letters), `places` (the list
//! of places), `error` and `reading` (why a text is refused), and then `hyphens`, the whole.
#![tactic(auto)]

pub mod error;
pub mod hyphens;
mod lexicon;
pub mod places;
mod reading;
mod spelling;
mod trie;
