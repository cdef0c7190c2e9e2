//! Scripts of edits: lists of commands, each of which edits a file, takes one away, does several of these together, saves what
//! there is, or asks by which page a place of a file is first read; they are read from their texts.
//! `specs/Text.antt` says which bytes are the text of a script, and what the refusal of any others names.
//!
//! Proved: exactly the texts of scripts are read, each in the only way there is, and a refusal names the furthest place
//! that the bytes reach. Only tested: places and rules against a table made by hand.
//!
//! Read `command`, then `error`, `element`, `read`.
#![tactic(auto)]

pub mod command;
pub mod element;
pub mod error;
mod read;

pub use command::{Command, FilePlace, Script};
pub use error::{Broken, Fault, Rule, ScriptError};
pub use read::read_script;
