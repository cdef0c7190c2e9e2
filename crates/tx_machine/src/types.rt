//! What runs have beside events: dates, limits, turns at one go, open files, and how runs end.
ghost use Rattle.std.specs.Prelude.{◌≡◌};

use crate::lists::{Pages, Pieces};
use std::alloc::AllocError;
use tx_bytes::Bytes;
use tx_dvi::PageBody;
use tx_event::{Event, Stop};
use tx_list::Kept;

/// The moment of a run, as \year, \month, \day and \time tell it: the minutes are those since midnight.
#[derive(Clone, Copy, PartialEq, Eq)]
pub struct Date {
    pub year: u32,
    pub month: u32,
    pub day: u32,
    pub minutes: u32,
}

/// How far a run may go.
#[derive(Clone, Copy)]
pub struct Limits {
    /// What the turns of one page may cost together.
    pub budget: u64,
    /// How many pages are shipped at most.
    pub pages: u32,
    /// How many states are kept for later edits.
    pub keep: u32,
}

/// Turns that were taken at one go.
#[derive(Drop)]
pub struct Passed {
    /// How many of them, each of which costs 1 and is nothing that the outside has to know.
    pub turns: u64,
    /// What came of one more behind them, which costs 1 too, if one more was taken.
    pub last: Option<Event>,
}

/// What ends the turns of a page: the page, the machine's stop, or a turn that the budget doesn't allow.
#[derive(Drop)]
pub enum Close {
    Page(PageBody),
    Halt(Stop),
    Spent,
}

/// A file that is open, and how many of its bytes were read.
#[derive(Drop)]
pub struct OpenFile {
    pub name: Bytes,
    pub offset: u64,
}

impl Kept for OpenFile {
    fn share(&self) -> Result<Self, AllocError> {
        Ok(OpenFile {
            name: self.name.clone()?,
            offset: self.offset,
        })
    }

    fn same(&self, other: &Self) -> bool {
        self.offset == other.offset && self.name.same(&other.name)
    }
}

/// How a run ended.
#[derive(Drop)]
pub enum End {
    /// By the end of its text.
    End,
    /// By an error, in the line of the innermost open file; without an open file there is no name, and the line is 0.
    Error {
        code: u8,
        name: Option<Bytes>,
        line: u64,
    },
    /// A page would have cost more than the budget.
    Budget,
    /// As many pages were shipped as the limit allows.
    PageLimit,
}

/// All that a run gives: its pages, the piece of the transcript that belongs to each of them, the piece after the last
/// page, and how it ended.
#[derive(Drop)]
pub struct Ran {
    pub pages: Pages,
    pub pieces: Pieces,
    pub last: Bytes,
    pub end: End,
}
