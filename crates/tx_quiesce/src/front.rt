//! Formatting after changes, up to the first new row that meets an old one.
ghost use Rattle.std.specs.Prelude.{◌≡◌, ◌≤◌, ◌++◌, ◌∷◌, [], IfOk, OnOk};
ghost use Rattle.tx_machine.specs.Steps.{raised};
ghost use Rattle.tx_checkpoint.specs.Meant.{IsIdle, AreIdle, row_meant, rows_meant};
ghost use Rattle.tx_checkpoint.specs.Rows.{at_limit, rows_from, rows_in};
ghost use Rattle.tx_quiesce.specs.Front.{IsEmpty, Reaches, turns_to};
ghost use Rattle.tx_quiesce.specs.Meeting as spec;
ghost use Rattle.tx_quiesce.specs.Meeting.{first_meeting};
ghost use Rattle.tx_quiesce.specs.Tails.{AreOffsets};

use crate::search::met_row;
use crate::tails::{Offsets, write_down};
use std::alloc::{AllocError, Global};
use std::mem;
use tx_bytes::Bytes;
use tx_checkpoint::{Formatted, Last, Row, Rows, format_row};
use tx_dvi::PageBody;
use tx_files::{Change, FileSet, Seen};
use tx_machine::spot::Spot;
use tx_machine::{End, Machine, Opens, Steps};

/// Why formatting stopped.
#[derive(Drop)]
pub enum Stopped {
    /// The run has ended, by this stretch.
    Over(Last),
    /// The last new row meets the old row of this number, counted from 1.
    Met(usize),
}

/// The pages that were formatted, as `Rows` has them, and why no more were.
#[derive(Drop)]
pub struct Front<S> {
    pub pages: Vec<PageBody>,
    pub pieces: Vec<Bytes>,
    pub rows: Vec<Row<S>>,
    pub stopped: Stopped,
}

/// Puts an item behind others. Its only error is want of memory.
fn push_item<T: Drop>(items: &mut Vec<T>, item: T) -> Result<(), AllocError>
    ensures { OnOk result (items.new.items ≡ items.old.items ++ item ∷ []) }
{
    items.push(item)?;
    Ok(())
}

impl<S> Front<S> {
    /// No page; takes no memory.
    fn new(alloc: Global) -> Front<S>
        ensures { IsEmpty result }
    {
        Front {
            pages: Vec::new(alloc),
            pieces: Vec::new(alloc),
            rows: Vec::new(alloc),
            stopped: Stopped::Met(0),
        }
    }

    /// Puts a page behind the others.
    fn push(&mut self, body: PageBody, piece: Bytes, row: Row<S>) -> Result<(), AllocError>
    where
        S: Drop,
        ensures pages { OnOk result (self.new.pages.items ≡ self.old.pages.items ++ body ∷ []) }
        ensures pieces { OnOk result (self.new.pieces.items ≡ self.old.pieces.items ++ piece ∷ []) }
        ensures rows { OnOk result (self.new.rows.items ≡ self.old.rows.items ++ row ∷ []) }
    {
        // Each is handed on before it is looked at whether there was room, so that no way out has anything to drop.
        let pages = push_item(&mut self.pages, body);
        let pieces = push_item(&mut self.pieces, piece);
        let rows = push_item(&mut self.rows, row);
        pages?;
        pieces?;
        rows
    }

    /// Says why no more pages were formatted.
    fn stop(&mut self, stopped: Stopped)
        ensures pages { self.new.pages.items ≡ self.old.pages.items }
        ensures pieces { self.new.pieces.items ≡ self.old.pieces.items }
        ensures rows { self.new.rows.items ≡ self.old.rows.items }
        ensures stopped { self.new.stopped ≡ stopped }
    {
        drop(mem::replace(&mut self.stopped, stopped));
    }
}

/// The stretch after the last page that may come, with these files open; takes no memory.
pub(crate) fn last_at_limit(alloc: Global, opens: Opens) -> Last
    ensures { result ≡ at_limit opens }
{
    Last {
        piece: Bytes::new(alloc),
        turns: 0,
        seen: Seen::new(alloc),
        opens,
        end: End::PageLimit,
    }
}

/// Puts a page behind the others, and returns the old row that it meets, counted from 1. Where it meets none, the offsets of the
/// old rows are written down for the pages behind it. Its only error is want of memory.
fn take_page<M: Machine>(
    alloc: Global,
    machine: &M,
    old: &Rows<M::State>,
    changes: &[Change],
    resumed: usize,
    offsets: &mut Offsets,
    front: &mut Front<M::State>,
    body: PageBody,
    piece: Bytes,
    row: Row<M::State>,
) -> Result<Option<usize>, AllocError>
    requires { AreOffsets old.now.rows.items offsets.old }
    ensures pages { OnOk result (front.new.pages.items ≡ front.old.pages.items ++ body ∷ []) }
    ensures pieces { OnOk result (front.new.pieces.items ≡ front.old.pieces.items ++ piece ∷ []) }
    ensures rows { OnOk result (front.new.rows.items ≡ front.old.rows.items ++ row ∷ []) }
    ensures met { IfOk result (λ met. met ≡ spec.met_row M.formatter changes.now (rows_meant M.meaning old.now.rows.items) old.now.last resumed (row_meant M.meaning row)) }
    ensures offsets { OnOk result (AreOffsets old.now.rows.items offsets.new) }
{
    let met = met_row(machine, old, offsets, changes, resumed, &row);
    front.push(body, piece, row)?;
    if met.is_none() {
        write_down(alloc, offsets, old.rows.as_slice())?;
    }
    Ok(met)
}

/// Formats as `format_until_met` does, behind no page yet. What it goes on with is lent, since it may stop anywhere.
fn format_front<M: Machine>(
    alloc: Global,
    machine: &M,
    files: &FileSet,
    old: &Rows<M::State>,
    changes: &[Change],
    resumed: usize,
    spot: &mut Spot<M::State>,
    offsets: &mut Offsets,
    front: &mut Front<M::State>,
    budget: u64,
    most: u32,
    steps: &mut Steps,
) -> Result<(), AllocError>
    requires idle { IsIdle M.formatter M.meaning M.pending spot.old.state }
    requires offsets { AreOffsets old.now.rows.items offsets.old }
    requires empty { IsEmpty front.old }
    ensures reaches { OnOk result (let whole = rows_from M.formatter files.now budget most (M.meaning spot.old.state) spot.old.opens in Reaches M.meaning whole (first_meeting M.formatter changes.now (rows_meant M.meaning old.now.rows.items) old.now.last resumed (rows_in whole.pages)) front.new) }
    ensures idle { OnOk result (AreIdle M.formatter M.meaning M.pending front.new.rows.items) }
    ensures counted { OnOk result (let whole = rows_from M.formatter files.now budget most (M.meaning spot.old.state) spot.old.opens in steps.new ≡ raised steps.old (turns_to whole (first_meeting M.formatter changes.now (rows_meant M.meaning old.now.rows.items) old.now.last resumed (rows_in whole.pages)))) }

    // Also where memory was wanting.
    ensures bound { let whole = rows_from M.formatter files.now budget most (M.meaning spot.old.state) spot.old.opens in steps.new ≤ raised steps.old (turns_to whole (first_meeting M.formatter changes.now (rows_meant M.meaning old.now.rows.items) old.now.last resumed (rows_in whole.pages))) }
{
    for _page in 0..most {
        spot.left = budget;
        match format_row(alloc, machine, files, spot, steps)? {
            Formatted::Page { body, piece, row } => {
                let met = take_page(
                    alloc, machine, old, changes, resumed, offsets, front, body, piece, row,
                )?;
                if let Some(number) = met {
                    front.stop(Stopped::Met(number));
                    return Ok(());
                }
            }
            Formatted::Over(last) => {
                front.stop(Stopped::Over(last));
                return Ok(());
            }
        }
    }
    let opens = mem::replace(&mut spot.opens, Opens::new(alloc));
    front.stop(Stopped::Over(last_at_limit(alloc, opens)));
    Ok(())
}

/// Formats from a state on, for so many pages at most, until a new row meets an old one. Each turn raises `steps` by one. Its
/// only error is want of memory.
pub fn format_until_met<M: Machine>(
    alloc: Global,
    machine: &M,
    files: &FileSet,
    old: &Rows<M::State>,
    changes: &[Change],
    resumed: usize,
    mut spot: Spot<M::State>,
    budget: u64,
    most: u32,
    steps: &mut Steps,
) -> Result<Front<M::State>, AllocError>
    requires { IsIdle M.formatter M.meaning M.pending spot.state }
    ensures reaches { IfOk result (let whole = rows_from M.formatter files.now budget most (M.meaning spot.state) spot.opens in Reaches M.meaning whole (first_meeting M.formatter changes.now (rows_meant M.meaning old.now.rows.items) old.now.last resumed (rows_in whole.pages))) }
    ensures idle { IfOk result (λ front. AreIdle M.formatter M.meaning M.pending front.rows.items) }
    ensures counted { OnOk result (let whole = rows_from M.formatter files.now budget most (M.meaning spot.state) spot.opens in steps.new ≡ raised steps.old (turns_to whole (first_meeting M.formatter changes.now (rows_meant M.meaning old.now.rows.items) old.now.last resumed (rows_in whole.pages)))) }

    // Also where memory was wanting.
    ensures bound { let whole = rows_from M.formatter files.now budget most (M.meaning spot.state) spot.opens in steps.new ≤ raised steps.old (turns_to whole (first_meeting M.formatter changes.now (rows_meant M.meaning old.now.rows.items) old.now.last resumed (rows_in whole.pages))) }
{
    let mut offsets = Offsets::Unread;
    let mut front = Front::new(alloc);
    let formatted = format_front(
        alloc,
        machine,
        files,
        old,
        changes,
        resumed,
        &mut spot,
        &mut offsets,
        &mut front,
        budget,
        most,
        steps,
    );
    drop(spot);
    drop(offsets);
    match formatted {
        Ok(()) => Ok(front),
        Err(error) => {
            drop(front);
            Err(error)
        }
    }
}
