//! The rows of a run, the greatest one up to which changes leave all reads as they are, and the one that first read a place.
ghost use Rattle.std.specs.Prelude.{◌≡◌, ◌++◌};
ghost use Rattle.std.specs.FinMap.{get};
ghost use Rattle.std.specs.List.{prefix_len};
ghost use Rattle.tx_checkpoint.specs.Locate as locate;
ghost use Rattle.tx_checkpoint.specs.Resume.{resume, stays, all_stay};
ghost use Rattle.tx_files.specs.Reads as reads;

use crate::located::Located;
use crate::row::{Last, Row, Rows};
use tx_files::{Change, Extent, Name, Seen, untouched};

/// Whether all that was read of a file lies before a place in it.
fn lies_before(extent: Extent, place: u64) -> bool
    ensures { result ≡ reads.lies_before extent place }
{
    match extent {
        Extent::Upto(n) => n <= place,
        Extent::Absent | Extent::Whole => false,
    }
}

/// Whether an edit at a place of the file of this name leaves what was read.
fn leaves(seen: &Seen, name: &Name, place: u64) -> bool
    ensures { result ≡ reads.leaves (get seen.now name.now) place }
{
    match seen.get(name.as_slice()) {
        None => true,
        Some(reads) => lies_before(reads.extent, place),
    }
}

/// What an edit touches first that leaves the first of so many rows, so many, and perhaps the last stretch.
fn located_at(passed: usize, rows: usize, left: bool) -> Located
    ensures { result ≡ locate.located_at passed rows left }
{
    if passed < rows {
        Located::Page(passed + 1)
    } else if left {
        Located::Nowhere
    } else {
        Located::After
    }
}

/// How many of the first rows of some an edit at a place of the file of this name leaves.
fn passed<S>(rows: &[Row<S>], name: &Name, place: u64) -> usize
    ensures { result ≡ prefix_len (locate.passes name.now place) rows.now }
{
    let mut passed = 0;
    for row in rows {
        if !leaves(&row.seen, name, place) {
            return passed;
        }
        passed += 1;
    }
    passed
}

/// The first row whose reads an edit at a place of the file of this name touches, where a run has these rows, then those behind
/// them, and this last stretch. It takes no memory.
pub fn locate_between<S>(
    first: &[Row<S>],
    others: &[Row<S>],
    last: &Last,
    name: &Name,
    place: u64,
) -> Located
    ensures { result ≡ locate.located_in (first.now ++ others.now) last.now name.now place }
{
    let before = passed(first, name, place);
    if before < first.len() {
        return Located::Page(before + 1);
    }
    let behind = passed(others, name, place);
    let left = leaves(&last.seen, name, place);
    located_at(before + behind, first.len() + others.len(), left)
}

impl<S> Rows<S> {
    /// The first row whose reads an edit at a place of the file of this name touches. It takes no memory.
    pub fn locate(&self, name: &Name, place: u64) -> Located
        ensures { result ≡ locate.located_in self.now.rows.items self.now.last name.now place }
    {
        let passed = passed(self.rows.as_slice(), name, place);
        let left = leaves(&self.last.seen, name, place);
        located_at(passed, self.rows.len(), left)
    }

    /// The row at which formatting resumes after changes: the last one that they leave with all rows before it, 0 where they
    /// don't leave the first. It takes no memory.
    pub fn resume_at(&self, changes: &[Change]) -> usize
        ensures { result ≡ resume self.now.rows.items changes.now }
    {
        let mut kept = 0;
        for row in &self.rows {
            if !untouched(&row.seen, changes) {
                return kept;
            }
            kept += 1;
        }
        kept
    }

    /// Whether changes leave all that the run read as it is, so that everything stands, where formatting resumes at this row. It
    /// takes no memory.
    pub fn stands(&self, kept: usize, changes: &[Change]) -> bool
        requires { kept ≡ resume self.now.rows.items changes.now }
        ensures { result ≡ all_stay self.now.rows.items self.now.last changes.now }
    {
        kept == self.rows.len() && untouched(&self.last.seen, changes)
    }
}
