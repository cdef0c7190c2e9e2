//! A line that is tried.
use crate::line::{Candidate, Fit};

/// Where a line begins: the place of its first piece, how wide in sp the pieces from there on have to be together, with what
/// the pass adds to each line and the text at the line's end, and whether the line begins behind a discretionary.
#[derive(Clone, Copy)]
pub(crate) struct Start {
    pub first: usize,
    pub goal: i128,
    pub hyphened: bool,
}

/// The line from a chain, by its number, to the break that is looked at: the candidate that the chain ends with and its
/// demerits, where the line begins, and how it fits.
#[derive(Clone, Copy)]
pub(crate) struct Trial {
    pub chain: usize,
    pub from: Candidate,
    pub total: i128,
    pub start: Start,
    pub fit: Fit,
}
