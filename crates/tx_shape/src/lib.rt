//! What families of commands take behind their first token (The TeXbook, chapters 24 to 26; TeX: The Program, parts 46 to 49): boxes,
//! what is done with them, inserts, penalties, \prevdepth, quantities of the page, fonts, alignments, and what stands in formulas.
//! It is scanned token by token, with the values that it needs.
//!
//! Proved: the rest of a command is read exactly as the grammar of tokens and values says, and what stands behind it is given back.
//! Only tested: that the grammars are TeX's, on documents that Knuth's TeX reads alike.
//!
//! Read `types`; `scans`, `words` and `letters`, how far a scan is; `next` and `amount`, numbers and sizes with what follows
//! them; `goal` and `boxes`, the parts of a box; `elastic`, glue; `settings`, what is set; `loading`, what \font takes; last
//! `stage`, whole rests, and `clones`. Scans of numbers are tx_scan's.
#![tactic(auto)]

mod amount;
mod boxes;
mod clones;
mod elastic;
mod goal;
mod letters;
mod loading;
mod next;
mod scans;
mod settings;
mod stage;
mod types;
mod words;

pub use loading::LoadScan;
pub use scans::ShapeScan;
pub use types::{AskedSize, BoxContext, BoxGoal, BoxRead, FontAsked, Opener, Shaped, Shaping};
