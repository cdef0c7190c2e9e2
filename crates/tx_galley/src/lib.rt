//! The pages' list goes to the page builder (TeX: The Program, sections 994 to 1028 and 1054): what is contributed from it, what a
//! page that fires makes of the boxes, the marks and the list, and how \output begins and ends.
//!
//! Proved: what each of these makes of the lists, the table and what is kept of pages, and exactly when each error comes. Only
//! tested: that this is what TeX does, on documents that Knuth's TeX sets alike.
//!
//! Read `errors`, `params`, `contributing`, `firing`, `exercising`, `splitting`, `ending` and `assigning`.
#![tactic(auto)]

mod assigning;
mod contributing;
mod ending;
mod errors;
mod exercising;
mod firing;
mod params;
mod splitting;

pub use assigning::set_quantity;
pub use ending::{add_end, end_output, is_done};
pub use errors::GalleyError;
pub use exercising::exercise;
pub use firing::Next;
pub use splitting::split_box;
