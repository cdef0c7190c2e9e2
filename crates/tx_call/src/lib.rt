//! What a call of the program does, over any machine, any source and any sink: what the words ask for is fetched, run, said and
//! saved.
//!
//! Proved: what is put out is what the definition of an outcome says of the words and of what the source holds, or its beginning
//! where the call was cut short; and what cut it short. Only tested: that it answers anything but want of memory.
//!
//! Read `trouble`, `scripted`, `scripts` and `fetching` (what is read from the source), `parts` and `lines` (what is said), `outputs`
//! (what is put out of a run), `tally`, `step` and `replay` (the commands of a script), `made` (what is put out of a document that
//! was made), `listed`, `listing` and `list` (what is said of a DVI file), and then `run`; of a document that is served `answers`,
//! `serving` and `serve`, and `laws`. What the words ask for is read in `tx_words`, requests are read in `tx_request`, and documents
//! are made in `tx_gen`.
#![tactic(auto)]

mod answers;
mod fetching;
pub mod laws;
mod lines;
mod list;
mod listed;
mod listing;
mod made;
mod outputs;
mod parts;
mod replay;
mod run;
mod scripted;
mod scripts;
mod serve;
mod serving;
mod step;
mod tally;
mod trouble;

pub use run::run_words;
pub use serve::serve_words;
pub use trouble::{Break, Interruption, Trouble};
