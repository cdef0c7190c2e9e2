//! What a run saw of files.
ghost use Rattle.std.specs.Prelude.{◌≡◌, true, false, ℕ, List, OnOk, OnErr};
ghost use Rattle.std.specs.FinMap.{empty, get};
ghost use Rattle.tx_files.specs.Changes.{name_of};
ghost use Rattle.tx_files.specs.Reads as reads;
ghost use Rattle.tx_files.specs.Reads.{noted, seen_more, lies_before, leaves, was_asked};
ghost use Rattle.tx_files.specs.Shift.{CanShiftExtent, CanShiftReads, shifted_extent};
ghost use Rattle.tx_files.specs.Shift as shift;

use crate::edit::{Change, Edit};
use crate::reads::{Extent, FileReads, Sight};
use indexmap::IndexMap;
use std::alloc::{AllocError, Global};
use std::marker::Model;

/// What was read of each file, by their names. Contracts see the finite map.
#[derive(Drop)]
pub struct Seen {
    files: IndexMap<Vec<u8>, FileReads>,
}

impl Model for Seen {
    ghost use Rattle.std.specs.Coded.{coded_ℕ, coded_list};
    ghost use Rattle.std.specs.FinMap as map;
    ghost use Rattle.tx_files.specs.Reads.{Reads};
    ghost use Rattle.tx_files.specs.Entries.{by_names};
    ghost use Rattle.tx_files.specs.contracts.reads.FileReads as file_reads;

    ghost Value = { Reads };

    ghost coded = { map.code (coded_list coded_ℕ) file_reads.the_row.coded };

    ghost view = { λ s. by_names s.files.entries };
}

/// How much of a file one sight of it reads.
fn extent_of(sight: Sight) -> Extent
    ensures { result ≡ reads.extent_of sight }
{
    match sight {
        Sight::Absent => Extent::Absent,
        Sight::Opened => Extent::Upto(0),
        Sight::Line(end) => Extent::Upto(end),
        Sight::End | Sight::Whole => Extent::Whole,
    }
}

/// Whether a sight comes of an ask for the file by its name.
fn is_asked(sight: Sight) -> bool
    ensures { result ≡ reads.is_asked sight }
{
    match sight {
        Sight::Absent | Sight::Opened | Sight::Whole => true,
        Sight::Line(_) | Sight::End => false,
    }
}

/// How much of a file two readings of it read.
fn together(first: Extent, later: Extent) -> Extent
    ensures { result ≡ reads.together first later }
{
    match (first, later) {
        (Extent::Absent, _) | (_, Extent::Absent) => Extent::Absent,
        (Extent::Whole, _) | (_, Extent::Whole) => Extent::Whole,
        (Extent::Upto(n), Extent::Upto(k)) => Extent::Upto(n.max(k)),
    }
}

/// What is read of a file that wasn't seen before.
fn seen_first(sight: Sight) -> FileReads
    ensures { result ≡ seen_more None sight }
{
    FileReads {
        extent: extent_of(sight),
        asked: is_asked(sight),
    }
}

/// What is read of a file with one sight more.
fn seen_again(reads: FileReads, sight: Sight) -> FileReads
    ensures { result ≡ seen_more (Some reads) sight }
{
    FileReads {
        extent: together(reads.extent, extent_of(sight)),
        asked: reads.asked || is_asked(sight),
    }
}

/// Whether all that was read of a file lies before a place in it.
fn lies_before(extent: Extent, place: u64) -> bool
    ensures { result ≡ reads.lies_before extent place }
{
    match extent {
        Extent::Upto(n) => n <= place,
        Extent::Absent | Extent::Whole => false,
    }
}

/// How much was read of the edited file, up to a place behind the edit, by its bytes as they are after it.
fn shifted_extent(extent: Extent, e: &Edit) -> Extent
    requires { CanShiftExtent e.now extent }
    ensures { result ≡ shifted_extent e.now extent }
{
    match extent {
        Extent::Upto(n) => Extent::Upto(n - e.removed + e.put.len() as u64),
        Extent::Absent | Extent::Whole => extent,
    }
}

/// What was read of the edited file, by its bytes as they are after the edit.
fn shifted_reads(reads: FileReads, e: &Edit) -> FileReads
    requires { CanShiftExtent e.now reads.extent }
    ensures { result ≡ record reads { extent = shifted_extent e.now reads.extent } }
{
    FileReads {
        extent: shifted_extent(reads.extent, e),
        asked: reads.asked,
    }
}

impl Seen {
    /// Nothing was read; takes no memory.
    pub fn new(alloc: Global) -> Seen
        ensures { result ≡ empty }
    {
        Seen {
            files: IndexMap::new(alloc),
        }
    }

    /// Notes a sight of the file of this name. After want of memory nothing has changed.
    pub fn note(&mut self, alloc: Global, name: &[u8], sight: Sight) -> Result<(), AllocError>
        ensures ok { OnOk result (self.new ≡ noted self.old (record { name = name.now; sight = sight })) }
        ensures err { OnErr result (self.new ≡ self.old) }
    {
        if let Some(reads) = self.files.get_mut(name) {
            *reads = seen_again(*reads, sight);
            return Ok(());
        }
        let key = Vec::from_slice(alloc, name)?;
        self.files.insert(key, seen_first(sight))?;
        Ok(())
    }

    /// What was read of the file of this name; None where it wasn't seen.
    pub fn get(&self, name: &[u8]) -> Option<FileReads>
        ensures { result ≡ get self.now name.now }
    {
        self.files.get(name).copied()
    }

    /// Whether one file was seen at most, and all that was read of it lies before this place: then no name is compared.
    fn is_before(&self, place: u64) -> bool
        ensures { result ≡ true → (name : List ℕ) → leaves (get self.now name) place ≡ true }
    {
        if self.files.len() > 1 {
            return false;
        }
        match self.files.first() {
            None => true,
            Some((_, reads)) => lies_before(reads.extent, place),
        }
    }

    /// Whether one file was seen at most, and it wasn't asked for by its name: then no name is compared.
    fn is_unasked(&self) -> bool
        ensures { result ≡ true → (name : List ℕ) → was_asked (get self.now name) ≡ false }
    {
        if self.files.len() > 1 {
            return false;
        }
        match self.files.first() {
            None => true,
            Some((_, reads)) => !reads.asked,
        }
    }

    /// Moves what was read of the edited file, up to a place behind the edit, with the bytes behind it; takes no memory.
    pub fn shift(&mut self, e: &Edit)
        requires { CanShiftReads e.now (get self.old e.now.name) }
        ensures { self.new ≡ shift.shifted_reads e.now self.old }
    {
        let name = e.name.as_slice();
        if let Some(reads) = self.files.get_mut(name) {
            *reads = shifted_reads(*reads, e);
            return;
        }
    }
}

/// Whether an edit leaves all that was read as it is: its file wasn't seen, or was read up to the edit's place at most.
fn untouched_by_edit(seen: &Seen, e: &Edit) -> bool
    ensures { result ≡ reads.untouched_by_edit seen.now e.now }
{
    if seen.is_before(e.place) {
        return true;
    }
    match seen.get(e.name.as_slice()) {
        None => true,
        Some(reads) => lies_before(reads.extent, e.place),
    }
}

/// Whether the file of this name wasn't seen.
fn is_unseen(seen: &Seen, name: &[u8]) -> bool
    ensures { result ≡ reads.is_unseen (get seen.now name.now) }
{
    match seen.get(name) {
        None => true,
        Some(_) => false,
    }
}

/// Whether a change leaves all that was read as it is; to take a file away does so where the file wasn't seen.
fn untouched_by(seen: &Seen, change: &Change) -> bool
    ensures { result ≡ reads.untouched_by seen.now change.now }
{
    match change {
        Change::Edit(e) => untouched_by_edit(seen, e),
        Change::Remove(name) => is_unseen(seen, name.as_slice()),
    }
}

/// Whether each of these changes leaves all that was read as it is. It takes no memory.
pub fn untouched(seen: &Seen, changes: &[Change]) -> bool
    ensures { result ≡ reads.untouched seen.now changes.now }
{
    for change in changes {
        if !untouched_by(seen, change) {
            return false;
        }
    }
    true
}

/// Whether this file was asked for by its name, to be opened or taken whole. It takes no memory.
pub fn asks_for(seen: &Seen, name: &[u8]) -> bool
    ensures { result ≡ reads.asks_for seen.now name.now }
{
    if seen.is_unasked() {
        return false;
    }
    match seen.get(name) {
        None => false,
        Some(reads) => reads.asked,
    }
}

/// Whether the file that is changed was asked for by its name.
fn asks_for_changed(seen: &Seen, change: &Change) -> bool
    ensures { result ≡ reads.asks_for seen.now (name_of change.now) }
{
    asks_for(seen, change.name().as_slice())
}

/// Whether one of the files that are changed was asked for by its name, to be opened or taken whole. It takes no memory.
pub fn asks_for_any(seen: &Seen, changes: &[Change]) -> bool
    ensures { result ≡ reads.asks_for_any seen.now changes.now }
{
    for change in changes {
        if asks_for_changed(seen, change) {
            return true;
        }
    }
    false
}
