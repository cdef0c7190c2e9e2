//! How reused rows move with a list of changes.
ghost use Rattle.std.specs.Prelude.{◌≡◌, ◌<◌, ◌≤◌, ◌+◌, length, map, take, drop, slice_get, slice_set, vec_len, vec_capacity, IfSome};
ghost use Rattle.std.specs.List.{All, list_all};
ghost use Rattle.tx_quiesce.specs.Moves as spec;
ghost use Rattle.tx_quiesce.specs.Moves.{opens_by, reads_by, carried_opens, carried_reads, carried_row, carried_last, with_part_carried, CanMoveOpens, CanMoveReads, CanCarryOpens, CanCarryReads, CanCarryRow, CanCarryLast, AreCarried};
ghost use Rattle.tx_quiesce.specs.Shift.{CanShiftFile, shifted_file, shifted_opens};

use tx_checkpoint::{Last, Row, Rows};
use tx_files::{Change, Edit, Seen};
use tx_machine::Opens;

/// Moves the file at a place of the list, if it is the edited one.
fn relocate_file(opens: &mut Opens, at: usize, e: &Edit)
    requires within { at < length opens.old }
    requires can { IfSome (slice_get opens.old at) (CanShiftFile e.now) }
    ensures { IfSome (slice_get opens.old at) (λ file. opens.new ≡ slice_set opens.old at (shifted_file e.now file)) }
{
    let file = &opens.as_slice()[at];
    if file.name.as_slice() == e.name.as_slice() {
        let offset = file.offset - e.removed + e.put.len() as u64;
        opens.move_at(at, offset);
    }
}

/// Moves open files with an edit.
fn shift_opens(opens: &mut Opens, e: &Edit)
    requires { All (CanShiftFile e.now) opens.old }
    ensures { opens.new ≡ shifted_opens e.now opens.old }
{
    for at in 0..opens.as_slice().len() {
        relocate_file(opens, at, e);
    }
}

/// Moves open files with a change.
fn move_opens(opens: &mut Opens, change: &Change)
    requires { CanMoveOpens change.now opens.old }
    ensures { opens.new ≡ opens_by change.now opens.old }
{
    match change {
        Change::Edit(e) => shift_opens(opens, e),
        Change::Remove(_) => {}
    }
}

/// Moves all open files.
pub fn relocate_opens(opens: &mut Opens, changes: &[Change])
    requires { CanCarryOpens changes.now opens.old }
    ensures { opens.new ≡ carried_opens changes.now opens.old }
{
    for at in 0..changes.len() {
        move_opens(opens, &changes[at]);
    }
}

/// Moves reads with a change.
fn move_reads(seen: &mut Seen, change: &Change)
    requires { CanMoveReads change.now seen.old }
    ensures { seen.new ≡ reads_by change.now seen.old }
{
    match change {
        Change::Edit(e) => seen.shift(e),
        Change::Remove(_) => {}
    }
}

/// Moves all reads.
fn relocate_reads(seen: &mut Seen, changes: &[Change])
    requires { CanCarryReads changes.now seen.old }
    ensures { seen.new ≡ carried_reads changes.now seen.old }
{
    for at in 0..changes.len() {
        move_reads(seen, &changes[at]);
    }
}

/// Moves one row.
fn relocate_row<S>(row: &mut Row<S>, changes: &[Change])
    requires { CanCarryRow changes.now row.old }
    ensures { row.new ≡ carried_row changes.now row.old }
{
    relocate_reads(&mut row.seen, changes);
    relocate_opens(&mut row.opens, changes);
}

/// Whether a change leaves all that stands behind it where it is: an edit does that puts in as many bytes as it takes out.
fn is_even(change: &Change) -> bool
    ensures { result ≡ spec.is_even change.now }
{
    match change {
        Change::Edit(e) => e.removed == e.put.len() as u64,
        Change::Remove(_) => true,
    }
}

/// Whether each change does.
fn are_even(changes: &[Change]) -> bool
    ensures { result ≡ list_all (λ c. spec.is_even c) changes.now }
{
    changes.iter().all(|change| is_even(change))
}

/// Moves these rows, as `relocate` does; takes no memory. Where each edit puts in as many bytes as it takes out, they stay.
pub fn relocate_rows<S>(rows: &mut [Row<S>], changes: &[Change])
    requires { All (CanCarryRow changes.now) rows.old }
    ensures { rows.new ≡ map (carried_row changes.now) rows.old }
{
    if are_even(changes) {
        return;
    }
    for at in 0..rows.len() {
        relocate_row(&mut rows[at], changes);
    }
}

/// Moves so many of these rows behind a number.
fn relocate_range<S>(rows: &mut [Row<S>], from: usize, count: usize, changes: &[Change])
    requires within { from + count ≤ length rows.old }
    requires can { All (CanCarryRow changes.now) (take count (drop from rows.old)) }
    ensures { rows.new ≡ with_part_carried changes.now from count rows.old }
{
    relocate_rows(&mut rows[from..from + count], changes);
}

/// Moves so many of these rows behind a number, as `relocate` does; takes no memory.
pub fn relocate_part<S>(rows: &mut Vec<Row<S>>, from: usize, count: usize, changes: &[Change])
    requires within { from + count ≤ length rows.old.items }
    requires can { All (CanCarryRow changes.now) (take count (drop from rows.old.items)) }
    ensures items { rows.new.items ≡ with_part_carried changes.now from count rows.old.items }
    ensures len { vec_len rows.new ≡ vec_len rows.old }
    ensures capacity { vec_capacity rows.old ≤ vec_capacity rows.new }
{
    relocate_range(rows.as_mut_slice(), from, count, changes);
}

/// Moves the stretch after the rows, as `relocate` does; takes no memory.
pub fn relocate_last(last: &mut Last, changes: &[Change])
    requires { CanCarryLast changes.now last.old }
    ensures { last.new ≡ carried_last changes.now last.old }
{
    relocate_reads(&mut last.seen, changes);
    relocate_opens(&mut last.opens, changes);
}

/// Moves rows that stand behind a list of changes, change by change: their offsets in each edited file, and how much of it they
/// read, by what the edit puts in less what it takes out; changes nothing else, and takes no memory.
pub fn relocate<S>(rows: &mut Rows<S>, changes: &[Change])
    requires rows { All (CanCarryRow changes.now) rows.old.rows.items }
    requires last { CanCarryLast changes.now rows.old.last }
    ensures { AreCarried changes.now rows.old rows.new }
{
    relocate_rows(rows.rows.as_mut_slice(), changes);
    relocate_last(&mut rows.last, changes);
}
