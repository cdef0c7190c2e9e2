//! Which cells end in which column (TeX: The Program, sections 797 and 798).
ghost use Rattle.std.specs.Prelude.{◌≡◌, [], replicate, IfOk, OnOk};
ghost use Rattle.tx_align.specs.Entries as spec;
ghost use Rattle.tx_align.specs.Grouping.{put};

use crate::entry::Entry;
use std::alloc::{AllocError, Global};
use tx_list::Items;

/// How many columns an alignment has whose preamble has so many of its own.
pub(crate) fn count_of(count: usize, entries: &[Entry]) -> usize
    ensures { result ≡ spec.count_of count entries.now }
{
    let mut most = count;
    for entry in entries {
        most = most.max(entry.end);
    }
    most
}

/// So many lists without an entry. Its only error is want of memory.
#[tactic(auto, using(crate::proofs::Grouped::one_more_empty, crate::proofs::Grouped::none_missing))]
fn no_groups(alloc: Global, count: usize) -> Result<Vec<Items<Entry>>, AllocError>
    ensures { IfOk result (λ groups. groups.items ≡ replicate count []) }
{
    let mut groups = Vec::new(alloc);
    let mut missing = count;
    while missing > 0 {
        missing -= 1;
        groups.push(Items::new(alloc))?;
    }
    Ok(groups)
}

/// Puts an entry to those that end in the same column. Its only error is want of memory.
fn put(groups: &mut Vec<Items<Entry>>, entry: &Entry) -> Result<(), AllocError>
    ensures { OnOk result (groups.new.items ≡ put groups.old.items entry.now) }
{
    let end = entry.end;
    if 0 < end && end <= groups.len() {
        groups[end - 1].push(*entry)?;
    }
    Ok(())
}

/// The entries that end in each of so many columns, in their order. Its only error is want of memory.
pub(crate) fn endings(
    alloc: Global,
    count: usize,
    entries: &[Entry],
) -> Result<Vec<Items<Entry>>, AllocError>
    ensures { IfOk result (λ groups. groups.items ≡ spec.endings 0 count entries.now) }
{
    let mut groups = no_groups(alloc, count)?;
    for entry in entries {
        put(&mut groups, entry)?;
    }
    Ok(groups)
}
