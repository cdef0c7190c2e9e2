//! What is asked for.
use tx_bytes::Bytes;
use tx_files::Name;
use tx_script::{Command, Rule};

/// What a file is to hold from now on.
#[derive(Drop)]
pub struct FileContents {
    /// The file's name.
    pub name: Name,
    /// All of it, at most 67,108,864 bytes.
    pub contents: Bytes,
}

/// What is asked for.
#[derive(Drop)]
pub enum Request {
    /// What a command of a script asks for.
    Command(Command),
    /// A file is to have these contents: the edit is to be made that gives it them.
    File(FileContents),
    /// The page of this number, counted from 1, as a DVI file of its own.
    Page(u64),
    /// The transcript.
    Log,
    /// What the page of this number, counted from 1, brought to the transcript.
    LogOf(u64),
}

/// What comes in next.
#[derive(Drop)]
pub enum Next {
    /// A request.
    Asks(Request),
    /// Bytes that begin no request; what would have to come behind as many of them as begin one is of this rule. They are passed
    /// over up to the next LF behind these, and with it.
    Refused(Rule),
    /// Nothing more.
    Over,
    /// What comes in couldn't be read, and nothing was taken whole. The inlet has counted a fault.
    Failed,
    /// There was no memory left for it.
    OutOfMemory,
}
