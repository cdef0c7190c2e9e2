//! Scans: what is read off tokens as TeX expands them: integers, dimensions, glue, keywords, an optional `=`, a begin-group token,
//! names, fonts, names that are spelled out, and names of files. A scan is fed token by token, asks for the values that only its
//! caller knows, and gives back the tokens that aren't part of what it reads. A scan can be a part of a longer one: its
//! answers say what reading on from it gives.
//!
//! Proved: each scan answers exactly what its grammar gives of all tokens and values that were taken; an integer's answers
//! are final. Only tested: that the grammars are Knuth's, on numbers, keywords and names that his program reads alike.
//!
//! Read `scans`, `beginnings` and `lists`, then `integer`, `quantity`, `dimension`, `keyword`, `glue` and `grammars`; `spellings`,
//! `control_name` and `file_name`; and `giving_back` and `laws`. `outers`, `units`, `fraction` and `clones` are parts of these.
#![tactic(auto)]

mod beginnings;
mod clones;
mod control_name;
mod dimension;
mod file_name;
mod fraction;
mod giving_back;
mod glue;
mod grammars;
mod integer;
mod keyword;
mod laws;
mod lists;
mod outers;
mod quantity;
mod scans;
mod spellings;
mod units;

pub use beginnings::beginning;
pub use file_name::input_name;
pub use giving_back::{give_back, token_of};
pub use integer::{byte, parameter};
pub use laws::integers_are_read_from_the_left;
pub use lists::list_begun;
pub use scans::{
    Beginning, BraceScan, DimenScan, EqualsScan, FontScan, FontSought, GlueScan, IntScan, KeyScan,
    ListBegun, Measure, NameScan, Order, QuantityScan, Sought, Units,
};
pub use spellings::{ControlNameScan, FileNameScan};
