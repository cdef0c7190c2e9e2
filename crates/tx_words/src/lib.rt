//! What the words of a call ask for: a run with what it is given, or one with answers to requests, a document that is made, a DVI
//! file that is listed, a help, the version, or nothing that there is.
//!
//! Proved: the answer is the defined one, whatever the words are. Only tested: that `clap` reads them as it is told here.
//!
//! Read `given` (what the words ask for), `command` (the command line, as it is told to clap), `values` and `words` (how
//! they are read).
#![tactic(auto)]

pub mod command;
pub mod given;
mod values;
pub mod words;
