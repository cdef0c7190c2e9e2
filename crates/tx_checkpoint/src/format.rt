//! How rows are made: a page with its row, and many of them.
ghost use Rattle.std.specs.Prelude.{◌≡◌, ◌≤◌, ◌++◌, ◌∷◌, [], Ok, IfOk, OnOk};
ghost use Rattle.tx_machine.specs.Steps.{raised};
ghost use Rattle.tx_machine.specs.Turn.{stretch, place_of};
ghost use Rattle.tx_checkpoint.specs.Meant.{AreRows, AreIdle, IsIdle, IsFormatted, FormattedIsIdle, row_meant};
ghost use Rattle.tx_checkpoint.specs.Rows.{rows_from, all_turns};

use crate::row::{Formatted, Last, Row, Rows};
use std::alloc::{AllocError, Global};
use std::mem;
use tx_bytes::Bytes;
use tx_dvi::PageBody;
use tx_files::{FileSet, Seen};
use tx_list::both;
use tx_machine::run::end_of;
use tx_machine::spot::{Closed, Spot};
use tx_machine::turn::format_page;
use tx_machine::{Close, End, Machine, Opens, Steps};

/// The row of a page that ended here: its turns and what they read, and the open files and the state after it, which is shared.
fn row_at<M: Machine>(
    alloc: Global,
    machine: &M,
    spot: &Spot<M::State>,
    turns: u64,
    seen: Seen,
) -> Result<Row<M::State>, AllocError>
    ensures row { IfOk result (λ row. row_meant M.meaning row ≡ record { turns = turns; seen = seen; opens = spot.now.opens; state = M.meaning spot.now.state }) }
    ensures pending { IfOk result (λ row. M.pending row.state ≡ M.pending spot.now.state) }
{
    let (opens, state) = both(spot.opens.clone(), machine.share(alloc, &spot.state))?;
    Ok(Row {
        turns,
        seen,
        opens,
        state,
    })
}

/// The stretch after the last row, with these files open, which ended the run so.
fn last_at(
    opens: &Opens,
    piece: Bytes,
    turns: u64,
    seen: Seen,
    end: Result<End, AllocError>,
) -> Result<Last, AllocError>
    ensures ended { IfOk result (λ last. end ≡ Ok last.end) }
    ensures last { IfOk result (λ last. last ≡ record { piece = piece; turns = turns; seen = seen; opens = opens.now; end = last.end }) }
{
    let (opens, end) = both(opens.clone(), end)?;
    Ok(Last {
        piece,
        turns,
        seen,
        opens,
        end,
    })
}

/// Takes turns up to the next page or the run's end, and makes of them a page with its row, or the last stretch.
pub fn format_row<M: Machine>(
    alloc: Global,
    machine: &M,
    files: &FileSet,
    spot: &mut Spot<M::State>,
    steps: &mut Steps,
) -> Result<Formatted<M::State>, AllocError>
    requires { IsIdle M.formatter M.meaning M.pending spot.old.state }
    ensures formatted { IfOk result (IsFormatted M.meaning files.now (stretch M.formatter files.now (place_of M.meaning spot.old))) }
    ensures place { OnOk result (place_of M.meaning spot.new ≡ (stretch M.formatter files.now (place_of M.meaning spot.old)).place) }
    ensures idle { IfOk result (λ formatted. FormattedIsIdle M.formatter M.meaning M.pending formatted spot.new.state) }
    ensures counted { OnOk result (steps.new ≡ raised steps.old (stretch M.formatter files.now (place_of M.meaning spot.old)).turns) }
    ensures bound { steps.new ≤ raised steps.old (stretch M.formatter files.now (place_of M.meaning spot.old)).turns }
{
    let mut seen = Seen::new(alloc);
    let Closed {
        close,
        piece,
        turns,
    } = format_page(alloc, machine, files, spot, &mut seen, steps)?;
    match close {
        Close::Page(body) => {
            let row = row_at(alloc, machine, spot, turns, seen)?;
            Ok(Formatted::Page { body, piece, row })
        }
        Close::Halt(stop) => {
            let end = end_of(alloc, files, &spot.opens, stop);
            Ok(Formatted::Over(last_at(&spot.opens, piece, turns, seen, end)?))
        }
        Close::Spent => {
            let end = Ok(End::Budget);
            Ok(Formatted::Over(last_at(&spot.opens, piece, turns, seen, end)?))
        }
    }
}

/// Puts one behind others.
fn put<T: Drop>(items: &mut Vec<T>, item: T) -> Result<(), AllocError>
    ensures { OnOk result (items.new.items ≡ items.old.items ++ item ∷ []) }
{
    items.push(item)?;
    Ok(())
}

/// Puts a page behind others.
fn push_page<S>(
    pages: &mut Vec<PageBody>,
    pieces: &mut Vec<Bytes>,
    rows: &mut Vec<Row<S>>,
    body: PageBody,
    piece: Bytes,
    row: Row<S>,
) -> Result<(), AllocError>
where
    S: Drop,
    ensures pages { OnOk result (pages.new.items ≡ pages.old.items ++ body ∷ []) }
    ensures pieces { OnOk result (pieces.new.items ≡ pieces.old.items ++ piece ∷ []) }
    ensures rows { OnOk result (rows.new.items ≡ rows.old.items ++ row ∷ []) }
{
    let page = both(put(pages, body), put(pieces, piece));
    both(page, put(rows, row))?;
    Ok(())
}

/// Formats pages, so many at most, and puts each behind those before it, of which there are none at first; answers the stretch after
/// them. After want of memory some may have been put there.
fn format_pages<M: Machine>(
    alloc: Global,
    machine: &M,
    files: &FileSet,
    spot: &mut Spot<M::State>,
    budget: u64,
    most: u32,
    pages: &mut Vec<PageBody>,
    pieces: &mut Vec<Bytes>,
    rows: &mut Vec<Row<M::State>>,
    steps: &mut Steps,
) -> Result<Last, AllocError>
    requires idle { IsIdle M.formatter M.meaning M.pending spot.old.state }
    requires no_pages { pages.old.items ≡ [] }
    requires no_pieces { pieces.old.items ≡ [] }
    requires no_rows { rows.old.items ≡ [] }
    ensures rows { IfOk result (λ last. AreRows M.meaning (record { pages = pages.new; pieces = pieces.new; rows = rows.new; last = last }) (rows_from M.formatter files.now budget most (M.meaning spot.old.state) spot.old.opens)) }
    ensures idle { OnOk result (AreIdle M.formatter M.meaning M.pending rows.new.items) }
    ensures counted { OnOk result (steps.new ≡ raised steps.old (all_turns (rows_from M.formatter files.now budget most (M.meaning spot.old.state) spot.old.opens))) }
    ensures bound { steps.new ≤ raised steps.old (all_turns (rows_from M.formatter files.now budget most (M.meaning spot.old.state) spot.old.opens)) }
{
    for _page in 0..most {
        spot.left = budget;
        match format_row(alloc, machine, files, spot, steps)? {
            Formatted::Page { body, piece, row } => {
                push_page(pages, pieces, rows, body, piece, row)?;
            }
            Formatted::Over(last) => return Ok(last),
        }
    }
    Ok(Last {
        piece: Bytes::new(alloc),
        turns: 0,
        seen: Seen::new(alloc),
        opens: mem::replace(&mut spot.opens, Opens::new(alloc)),
        end: End::PageLimit,
    })
}

/// The run from a state on, for so many pages at most, each with its row. Each turn raises `steps` by one. Its only error
/// is want of memory.
pub fn format_rows<M: Machine>(
    alloc: Global,
    machine: &M,
    files: &FileSet,
    mut spot: Spot<M::State>,
    budget: u64,
    most: u32,
    steps: &mut Steps,
) -> Result<Rows<M::State>, AllocError>
    requires { IsIdle M.formatter M.meaning M.pending spot.state }
    ensures rows { IfOk result (λ rows. AreRows M.meaning rows (rows_from M.formatter files.now budget most (M.meaning spot.state) spot.opens)) }
    ensures idle { IfOk result (λ rows. AreIdle M.formatter M.meaning M.pending rows.rows.items) }
    ensures counted { OnOk result (steps.new ≡ raised steps.old (all_turns (rows_from M.formatter files.now budget most (M.meaning spot.state) spot.opens))) }

    // Also where memory was wanting.
    ensures bound { steps.new ≤ raised steps.old (all_turns (rows_from M.formatter files.now budget most (M.meaning spot.state) spot.opens)) }
{
    let mut pages = Vec::new(alloc);
    let mut pieces = Vec::new(alloc);
    let mut rows = Vec::new(alloc);
    let last = format_pages(
        alloc,
        machine,
        files,
        &mut spot,
        budget,
        most,
        &mut pages,
        &mut pieces,
        &mut rows,
        steps,
    )?;
    Ok(Rows {
        pages,
        pieces,
        rows,
        last,
    })
}
