//! A box that is shipped, as the body of a page of the DVI file (TeX: The Program, part 32). What the commands of the body
//! mean to a DVI reader is proved to be what the box holds, at its places.
//!
//! Proved: the bytes are exactly the defined ones; they mean what the plain commands mean, whose movements use no registers, and
//! are no longer; and, where each character is in its font with the sizes that this gives it, that is the box's characters, rules
//! and specials at their absolute places, those of each copy that leaders make of a box among them, and the definitions of the
//! fonts that are new, to a reader of DVI files. Only tested: that the reader is the standard's, by dvitype.
//!
//! Modules in reading order: `params`, `error`, `places`, `frames`, `within`, `commands`, `output`, `fonts`, `characters`, `plain`,
//! `shared`, `list`, `level`, `amounts`, `registers`, `ship`.
#![tactic(auto)]

mod amounts;
mod characters;
mod commands;
mod error;
mod fonts;
mod frames;
mod level;
mod list;
mod output;
mod params;
mod places;
mod plain;
mod registers;
mod shared;
mod ship;
mod within;

pub use error::ShipError;
pub use params::ShipParams;
pub use ship::body;
