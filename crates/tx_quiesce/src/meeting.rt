//! When a new row meets an old one.
ghost use Rattle.std.specs.Prelude.{◌≡◌, ◌+◌, ◌<◌, ◌≤◌, ◌^◌, IfSome};
ghost use Rattle.tx_checkpoint.specs.Meant.{row_meant};
ghost use Rattle.tx_files.specs.Carry as places;
ghost use Rattle.tx_quiesce.specs.Meeting as spec;
ghost use Rattle.tx_quiesce.specs.Meeting.{row_fits};

use tx_checkpoint::Row;
use tx_files::{Change, Edit};
use tx_machine::{Machine, OpenFile};

/// Where a place of an edited file stands after the edit; None where it doesn't stand behind the bytes that are taken out. Between
/// changes of a list a place may lie past all that an offset tells of, so that places are counted in 128 bits.
fn moved_place(e: &Edit, offset: u128) -> Option<u128>
    requires { offset + 2 ^ 64 ≤ 2 ^ 128 }
    ensures place { result ≡ places.moved_place e.now offset }
    ensures near { IfSome result (λ next. next < offset + 2 ^ 64) }
{
    let end = u128::from(e.place) + u128::from(e.removed);
    if end <= offset {
        Some(offset - u128::from(e.removed) + u128::from(e.put.len() as u64))
    } else {
        None
    }
}

/// Where a place of the file of this name stands after a change; None where it is edited there, or the file is taken away.
fn place_after(change: &Change, name: &[u8], offset: u128) -> Option<u128>
    requires { offset + 2 ^ 64 ≤ 2 ^ 128 }
    ensures place { result ≡ places.place_after change.now name.now offset }
    ensures near { IfSome result (λ next. next < offset + 2 ^ 64) }
{
    match change {
        Change::Edit(e) => {
            if name == e.name.as_slice() {
                moved_place(e, offset)
            } else {
                Some(offset)
            }
        }
        Change::Remove(gone) => {
            if name == gone.as_slice() {
                None
            } else {
                Some(offset)
            }
        }
    }
}

/// Where a place of the file of this name stands after a list of changes.
fn carried_place(name: &[u8], offset: u64, changes: &[Change]) -> Option<u128>
    ensures { result ≡ places.carried_place changes.now name.now offset }
{
    let mut here = u128::from(offset);
    for at in 0..changes.len() {
        match place_after(&changes[at], name, here) {
            Some(next) => here = next,
            None => return None,
        }
    }
    Some(here)
}

/// Whether an open file of the new run is that of the old run, read up to the same place.
fn file_fits(old: &OpenFile, new: &OpenFile, changes: &[Change]) -> bool
    ensures { result ≡ spec.file_fits changes.now old.now new.now }
{
    if new.name.as_slice() != old.name.as_slice() {
        return false;
    }
    match carried_place(old.name.as_slice(), old.offset, changes) {
        Some(here) => u128::from(new.offset) == here,
        None => false,
    }
}

/// Whether the same files are open in the same order, each read up to the same place.
fn opens_fit(old: &[OpenFile], new: &[OpenFile], changes: &[Change]) -> bool
    ensures { result ≡ spec.opens_fit changes.now old.now new.now }
{
    if old.len() != new.len() {
        return false;
    }
    for at in 0..old.len() {
        if !file_fits(&old[at], &new[at], changes) {
            return false;
        }
    }
    true
}

/// Whether a new row fits an old one, so that the rest of the run must come out as after the old one as long as it doesn't
/// ask for one of the changed files by its name. The open files are compared before the states. It takes no memory.
pub fn meets<M: Machine>(
    machine: &M,
    row: &Row<M::State>,
    new: &Row<M::State>,
    changes: &[Change],
) -> bool
    ensures { result ≡ row_fits M.formatter changes.now (row_meant M.meaning row.now) (row_meant M.meaning new.now) }
{
    if !opens_fit(row.opens.as_slice(), new.opens.as_slice(), changes) {
        return false;
    }
    machine.same(&new.state, &row.state)
}
