//! DVI files read, as Knuth's DVItype does it (the DVI standard; TeX: The Program, sections 583 to 591): the pages of such a
//! file, each with its numbers and what is met on it.
//!
//! `specs/Grammar.antt` says which bytes are a DVI file, which pages it brings, and what the refusal of any others names.
//!
//! Proved: exactly the files of the grammar are read, each with the pages that it brings, and a refusal names the furthest
//! place up to which the bytes begin a file, and the element that comes there; a refusal depends on the bytes up to the one
//! that is refused alone; what is read of a page is what its commands mean; and a file that is assembled of pages is one, if
//! the commands of each page may stand on one.
//!
//! Read `error`, `movement`, `page_reader` and `reader`, then `laws`.
#![tactic(auto)]

mod error;
mod laws;
mod movement;
mod page_reader;
mod reader;

pub use error::{DviError, DviRule};
pub use laws::{
    assembled_files_are_read_back, no_file_begins_with_what_is_refused,
    pages_are_read_by_their_meaning,
};
pub use reader::{ReadPage, Reader};
