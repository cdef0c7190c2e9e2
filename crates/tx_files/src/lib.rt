//! Files as a run sees them: their names, a set of them in memory, how they are edited and taken away, and their lines.
//!
//! Proved: names, the map of files, lines, edits and lists of changes are exactly as defined, and which reads of a run changes
//! leave. Nothing is left to tests.
//!
//! Read `name`, then `edit`, `file_set`, `before`, `changes` (lists of them) and `line`, and then `reads` and `seen`: what a run
//! saw of the files.
#![tactic(auto)]

pub mod before;
mod changes;
pub mod edit;
pub mod file_set;
pub mod line;
pub mod name;
pub mod reads;
pub mod seen;

pub use before::Before;
pub use edit::{BatchRefusal, Change, Edit, Refusal, Undo};
pub use file_set::FileSet;
pub use line::{NextLine, line_count, next_line};
pub use name::Name;
pub use reads::{Extent, FileReads, Note, Sight};
pub use seen::{Seen, asks_for, asks_for_any, untouched};
