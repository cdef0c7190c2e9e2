//! The arguments of macros (The TeXbook, chapter 20; TeX: The Program, sections 389 to 399): a matcher is fed the tokens
//! behind a macro's name, one at a time, up to the last one that its parameter text takes.
//!
//! Proved: arguments are exactly those that the definition of a macro's use gives, whose answers are final. Only tested:
//! that the definition is Knuth's, on uses that his program takes alike.
//!
//! Modules in reading order: `tokens`, `stage`, `borders`, `undelimited`, `delimited`, `advance`, `matcher`, `laws`.
#![tactic(auto)]

mod advance;
mod borders;
mod delimited;
mod laws;
mod matcher;
mod stage;
mod tokens;
mod undelimited;

pub use laws::{arguments_are_what_stands_in_a_use, uses_are_read_from_the_left};
pub use matcher::Matcher;
pub use tx_toklist::Lists as Args;
