//! Why a call of `vortex` ended as it did, in words for its user: by what was said, by the faults that the real source and
//! sink keep, and by a second look at words, script and files. Nothing here is part of what is proved of a call but that
//! it is safe: the words are tested, by `tools/check-program`.
//!
//! Read `run` (what a call was to run), `ends` (how a run ended), `outside` (edits), `around` (files, read once more), `quotes` (the
//! line of an error), `dates`, `names` and `refusals` (words), `scripts`, `listings` (DVI files), `serving`, `faults` (the system's
//! errors), `memory`, `notes` (what else is worth knowing), and then `telling` and `causes`.
#![tactic(auto)]

pub mod around;
pub mod causes;
mod dates;
mod ends;
mod faults;
mod listings;
mod memory;
mod names;
mod notes;
mod outside;
mod quotes;
pub mod refusals;
pub mod run;
mod scripts;
pub mod serving;
pub mod telling;
