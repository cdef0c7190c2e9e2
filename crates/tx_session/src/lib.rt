//! A document that is edited: a session holds its files and what the run on them gave, and after each list of changes that is
//! accepted it has what a fresh run on the changed files gives. It stands over any machine, and knows nothing of TeX.
//!
//! Proved: after any changes all that it shows is that of the fresh run on the changed files; report and turns are exact; memory is
//! wanting for one change alone only where it fits; and an edit leaves the pages before the one by which its place is first read.
//! The same holds of a document that is typed, whose changes are made of the last run that wasn't cut off. Only tested: sessions
//! over a machine of a few lines.
//!
//! Read `report`, `refusal`, `changing` (the files), `kept` and `made` (a run by its rows, with its joined transcript), then
//! `document` (what is done with one, however its changes are made) and `session`; and, for documents that are typed, `cutting` and
//! `live`.
#![tactic(auto)]

mod changing;
mod cutting;
pub mod document;
mod kept;
pub mod live;
mod made;
pub mod refusal;
pub mod report;
pub mod session;

pub use document::Document;
pub use live::Live;
pub use refusal::Refusal;
pub use report::Report;
pub use session::Session;
