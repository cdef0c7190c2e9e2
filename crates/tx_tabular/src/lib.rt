//! Alignments that are being read (TeX: The Program, part 37): what is known of one between its tokens, its lists among those that
//! are being built, and what its entries, rows and end make of both.
//!
//! Proved: what each call makes of the alignment and the lists, and exactly when each error comes. Only tested: that this is what
//! TeX does, on documents that Knuth's TeX sets alike (call_cases, tools/check-alignments).
//!
//! Modules in reading order: `alignment`, `lists`, `entries`, `rows`, `ending`.
#![tactic(auto)]

mod alignment;
mod ending;
mod entries;
mod lists;
mod rows;

pub use alignment::Alignment;
pub use ending::end_alignment;
pub use entries::{
    begin_entry, begin_row, end_entry, ending_of, join_columns, next_column, part_of,
};
pub use lists::{begin_entry_list, begin_list};
pub use rows::end_row;
