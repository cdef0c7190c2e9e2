//! What skipped text is made of, and the conditionals that are open.

use tx_prim::CondWord;

/// What a token is to text that is skipped.
#[derive(Clone, Copy)]
pub enum SkipItem {
    /// It begins a conditional, \ifcase among them.
    If,
    Word(CondWord),
    Other,
    /// A macro that is \outer.
    Outer,
    /// No token: the file has ended.
    EndOfFile,
}

/// What the caller does behind a word.
#[derive(Clone, Copy)]
pub enum Meet {
    /// A \relax is inserted before the word, which is read again behind it.
    Relax,
    /// The text behind the word is skipped.
    Skip,
    /// The text behind the word is read.
    Closed,
}

/// A conditional from its \if.. to its \fi, by what it waits for. `cases` says that it is an \ifcase.
#[derive(Clone, Copy, PartialEq, Eq)]
pub enum Conditional {
    /// Its test is being scanned.
    Testing { cases: bool },
    /// The text up to the \or behind so many others is skipped, or up to its \else or \fi: an \ifcase with a number
    /// above 0.
    AwaitingOr { others: u64 },
    /// The text up to its \else or \fi is skipped: a test that is false, or an \ifcase with a number below 0.
    AwaitingElse { cases: bool },
    /// The branch that its test has chosen is read.
    Live { cases: bool },
    /// A branch was read, and the text up to its \fi is skipped.
    Ending,
    /// The branch behind its \else is read.
    LastBranch,
}
