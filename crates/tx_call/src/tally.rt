//! What is counted of the commands of a script.

/// How many edits were read, how many places were asked for, and whether an edit went past the end of its file.
#[derive(Clone, Copy)]
pub struct Tally {
    pub edits: u64,
    pub places: u64,
    pub outside: bool,
}
