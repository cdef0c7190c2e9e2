//! Which old rows a new one may fit, by numbers alone.
ghost use Rattle.std.specs.Prelude.{◌≡◌, ◌+◌, ◌≤◌, length, drop, IfOk, OnOk};
ghost use Rattle.std.specs.List.Sorted.{IsNonDecreasing};
ghost use Rattle.tx_quiesce.specs.Tails as spec;
ghost use Rattle.tx_quiesce.specs.Tails.{AreOffsets, IsFirstNotLess, IsNextEqual, IsMovedFrom, IsLedFrom, IsCarriedFrom, IsOrigin, offsets_of, skipped, unequal};

use std::alloc::{AllocError, Global};
use tx_checkpoint::Row;
use tx_files::{Change, Edit};
use tx_machine::Opens;

/// How far the innermost file of each old row was read, as far as that is written down.
#[derive(Drop)]
pub enum Offsets {
    /// It stands in the rows alone.
    Unread,
    /// It is written down, and is never less than in the row before.
    Ascending(Vec<u64>),
    /// It is written down.
    Mixed(Vec<u64>),
}

/// How many bytes of the innermost open file were read; 0 where none is open.
pub fn innermost_offset(opens: &Opens) -> u64
    ensures { result ≡ spec.innermost_offset opens.now }
{
    match opens.innermost() {
        None => 0,
        Some(file) => file.offset,
    }
}

/// The offsets of these rows, written down. Its only error is want of memory.
fn read_offsets<S>(alloc: Global, rows: &[Row<S>]) -> Result<Offsets, AllocError>
    ensures { IfOk result (AreOffsets rows.now) }
{
    let mut numbers = Vec::with_capacity(alloc, rows.len())?;
    for row in rows {
        numbers.push(innermost_offset(&row.opens))?;
    }
    if numbers.as_slice().is_sorted() {
        Ok(Offsets::Ascending(numbers))
    } else {
        Ok(Offsets::Mixed(numbers))
    }
}

/// Writes the offsets of these rows down, unless they are. Its only error is want of memory.
pub fn write_down<S>(
    alloc: Global,
    offsets: &mut Offsets,
    rows: &[Row<S>],
) -> Result<(), AllocError>
    requires { AreOffsets rows.now offsets.old }
    ensures { OnOk result (AreOffsets rows.now offsets.new) }
{
    match offsets {
        Offsets::Unread => {
            *offsets = read_offsets(alloc, rows)?;
            Ok(())
        }
        Offsets::Ascending(_) | Offsets::Mixed(_) => Ok(()),
    }
}

/// The old offset that stands here after the edit, if there is one; None where that isn't known.
fn moved_from(e: &Edit, here: u64) -> Option<u64>
    ensures { IsMovedFrom e.now here result }
{
    let put = e.put.len() as u64;
    if here < put {
        return Some(here);
    }
    match (here - put).checked_add(e.removed) {
        Some(old) => Some(old),
        None => None,
    }
}

/// The offset in the file of this name that stands here after a change, if there is one; None where that isn't known.
fn led_from(change: &Change, name: &[u8], here: u64) -> Option<u64>
    ensures { IsLedFrom change.now name.now here result }
{
    match change {
        Change::Edit(e) => {
            if name == e.name.as_slice() {
                moved_from(e, here)
            } else {
                Some(here)
            }
        }
        Change::Remove(_) => Some(here),
    }
}

/// The offset in the file of this name that stands here after a list of changes, if there is one; None where that isn't known.
fn carried_from(name: &[u8], here: u64, changes: &[Change]) -> Option<u64>
    ensures { IsCarriedFrom changes.now name.now here result }
{
    let mut from = here;
    let mut left = changes.len();
    while left > 0 {
        match led_from(&changes[left - 1], name, from) {
            Some(old) => from = old,
            None => return None,
        }
        left -= 1;
    }
    Some(from)
}

/// How far the innermost open file was read in the old run if its open files fit these; None where that isn't known.
pub fn origin_of(opens: &Opens, changes: &[Change]) -> Option<u64>
    ensures { IsOrigin changes.now opens.now result }
{
    match opens.innermost() {
        None => Some(0),
        Some(file) => carried_from(file.name.as_slice(), file.offset, changes),
    }
}

/// The first row from a place on whose innermost file was read up to this offset.
fn next_row<S>(rows: &[Row<S>], from: usize, origin: u64) -> usize
    ensures { result ≡ from + unequal origin (drop from (offsets_of rows.now)) }
{
    let mut at = from;
    while at < rows.len() {
        let old = innermost_offset(&rows[at].opens);
        if old == origin {
            return at;
        }
        at += 1;
    }
    at
}

/// The first place from one on where this offset stands.
fn next_offset(numbers: &[u64], from: usize, origin: u64) -> usize
    ensures { result ≡ from + unequal origin (drop from numbers.now) }
{
    let mut at = from;
    while at < numbers.len() {
        let old = numbers[at];
        if old == origin {
            return at;
        }
        at += 1;
    }
    at
}

/// The first place from one on behind which no number is less than this one, by halving.
fn first_not_less(numbers: &[u64], from: usize, value: u64) -> usize
    requires ascending { IsNonDecreasing numbers.now }
    requires within { from ≤ length numbers.now }
    ensures { IsFirstNotLess numbers.now from value result }
{
    let mut low = from;
    let mut high = numbers.len();
    while low < high {
        let middle = low + (high - low) / 2;
        if numbers[middle] < value {
            low = middle + 1;
        } else {
            high = middle;
        }
    }
    low
}

/// The first place from one on where this number stands; the end where it doesn't.
fn next_equal(numbers: &[u64], from: usize, value: u64) -> usize
    requires ascending { IsNonDecreasing numbers.now }
    requires within { from ≤ length numbers.now }
    ensures { IsNextEqual numbers.now from value result }
{
    let at = first_not_less(numbers, from, value);
    if at < numbers.len() && numbers[at] != value {
        return numbers.len();
    }
    at
}

/// The same as `next_offset` where no offset is less than the one before.
fn next_ascending(numbers: &[u64], from: usize, origin: u64) -> usize
    requires { IsNonDecreasing numbers.now }
    ensures { result ≡ from + unequal origin (drop from numbers.now) }
{
    if from >= numbers.len() {
        return from;
    }
    next_equal(numbers, from, origin)
}

/// The first old row from a place on whose innermost file was read up to this offset.
fn next_from<S>(rows: &[Row<S>], offsets: &Offsets, from: usize, origin: u64) -> usize
    requires { AreOffsets rows.now offsets.now }
    ensures { result ≡ from + unequal origin (drop from (offsets_of rows.now)) }
{
    match offsets {
        Offsets::Unread => next_row(rows, from, origin),
        Offsets::Ascending(numbers) => next_ascending(numbers.as_slice(), from, origin),
        Offsets::Mixed(numbers) => next_offset(numbers.as_slice(), from, origin),
    }
}

/// The first old row from a place on that may fit: the next one with this innermost offset, or any where that isn't known.
pub fn next_candidate<S>(
    rows: &[Row<S>],
    offsets: &Offsets,
    from: usize,
    origin: Option<u64>,
) -> usize
    requires { AreOffsets rows.now offsets.now }
    ensures { result ≡ from + skipped origin (drop from (offsets_of rows.now)) }
{
    match origin {
        None => from,
        Some(number) => next_from(rows, offsets, from, number),
    }
}
