//! DVI files (TeX: The Program, parts 31 and 32): what a page brings to one, and the file of a list of pages. The
//! commands within a page are its maker's own: to `file` they are bytes, and `specs/Meaning.antt` says what they mean.
//!
//! Proved: the file is exactly the defined bytes, and each page's pointer names the place of the page before it. Only
//! tested: the bytes against files worked out by hand and read by dvitype.
//!
//! Read `font` and `page`, then `file`; for those who read pages `placed` and `commands`, which tells the commands of a
//! page apart.
#![tactic(auto)]

pub mod commands;
pub mod file;
pub mod font;
pub mod page;
mod placed;

pub use commands::{
    is_font_number, is_movement, movement_operands, opcode_of, operands_of, signed_of,
};
pub use file::{assemble, definition, four_bytes, two_bytes, units, unsigned_bytes};
pub use font::FontDefinition;
pub use page::{DateParameters, PageBody, PageParts};
pub use placed::{Placed, PlacedCharacter, PlacedRule, PlacedSpecial, Registers};
