//! The texts that TeX reads whole: the parameter text and the body of a definition, and the balanced texts that \toks,
//! \uppercase, \message and their kin absorb (The TeXbook, chapters 20 and 24; TeX: The Program, part 27). Each is fed the
//! tokens behind what begins it, and holds what it has made of them, which is not looked at again.
//!
//! Proved: each answer, and what a text is behind one more token, is as defined; what a definition gives is always a macro's.
//! Only tested: that the definitions are Knuth's, on cases that his program was given too.
//!
//! Read `stages`, where a text can be, and `signs`; then `absorbed` and `definition`.
#![tactic(auto)]

mod absorbed;
mod definition;
mod signs;
mod stages;

pub use absorbed::TextScan;
pub use definition::DefinitionScan;
pub use stages::{Stage, TextStage};
