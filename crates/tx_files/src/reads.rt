//! What a run sees of files, and how much of each that makes.
use tx_bytes::Bytes;

/// What the reply to one ask shows of a file.
#[derive(Clone, Copy)]
pub enum Sight {
    /// There is no such file.
    Absent,
    /// It is there, and was opened.
    Opened,
    /// A line of it that ends with its LF, up to this offset.
    Line(u64),
    /// Its end: no line was left, or one without LF.
    End,
    /// All its bytes at once.
    Whole,
}

/// One sight of the file of this name.
#[derive(Drop)]
pub struct Note {
    pub name: Bytes,
    pub sight: Sight,
}

/// How much of a file was read.
#[derive(Clone, Copy)]
pub enum Extent {
    /// It wasn't there.
    Absent,
    /// Its bytes up to this offset, and nothing of what follows.
    Upto(u64),
    /// All of it: its end was met, or it was taken whole.
    Whole,
}

/// What was read of one file, and whether it was asked for by its name, to be opened or taken whole.
#[derive(Clone, Copy)]
pub struct FileReads {
    pub extent: Extent,
    pub asked: bool,
}
