//! A page of a DVI file as a file of its own, as the program dviselect makes it: the fonts that it uses of those that earlier pages
//! define are defined at its beginning.
//!
//! Proved: the file is exactly the defined bytes, and the page means in it what it means behind the pages that define its fonts.
//! Nothing is left to tests.
//!
//! Read `uses`, which fonts a page chooses, then `file` and `laws`.
#![tactic(auto)]

mod file;
mod laws;
mod uses;

pub use file::{append_fonts, page_file};
pub use laws::a_page_alone_means_the_same;
