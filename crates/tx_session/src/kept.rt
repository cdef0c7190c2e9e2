//! What a session keeps of a run, what it makes beside it, and what a document that is typed keeps beside that.
use crate::report::Report;
use tx_bytes::Bytes;
use tx_checkpoint::{Last, Rows};
use tx_files::{Change, FileSet};
use tx_list::Items;
use tx_quiesce::Later;
use tx_quiesce::later::Part;

/// What a run gave, by its rows, and its transcript as one text.
#[derive(Drop)]
pub struct Made<S> {
    pub rows: Rows<S>,
    pub said: Bytes,
}

/// What changes make of a run, beside it: what comes behind the rows that they leave, and the whole transcript.
#[derive(Drop)]
pub struct Beside<S> {
    pub later: Later<S>,
    pub said: Bytes,
}

/// A run that was cut off, beside the run of which it has the first pages, so many: its pages behind these, the stretch after the
/// last of them, and its whole transcript.
#[derive(Drop)]
pub struct Cut<S> {
    pub kept: usize,
    pub part: Part<S>,
    pub last: Last,
    pub said: Bytes,
}

/// What changes come to that are made of a run that is kept.
#[derive(Drop)]
pub enum Come<S> {
    /// What was kept shows the run on the changed files.
    Settled(Report),
    /// It stands as before, and beside it is the run on the changed files, which was cut off.
    Beside { report: Report, cut: Cut<S> },
}

/// What is kept of an earlier run beside the last one.
#[derive(Drop)]
pub struct Earlier<S> {
    /// The files of the earlier run.
    pub files: FileSet,
    /// The changes that were made of them since.
    pub since: Items<Change>,
    /// The run to which these led.
    pub cut: Cut<S>,
}
