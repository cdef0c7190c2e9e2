//! The rows after changes: those that they leave, what comes behind them, and among that old rows, moved.
ghost use Rattle.std.specs.Prelude.{◌≡◌, ◌≤◌, ◌+◌, length, take, drop, OnOk, OnErr};
ghost use Rattle.std.specs.List.{All};
ghost use Rattle.tx_checkpoint.specs.Meant.{AreSame};
ghost use Rattle.tx_quiesce.specs.declared.further.Further.TheVariants.{Goes, Stands};
ghost use Rattle.tx_quiesce.specs.Later.{AreOfOneLength, HasRoom, AreSpliced, AreReused, FitsBehind};
ghost use Rattle.tx_quiesce.specs.Moves.{CanCarryRow, CanCarryLast};

use crate::further::Further;
use crate::later::{Later, Part};
use crate::moving::{relocate_last, relocate_part};
use crate::splice::{reserve_for, reuse_items};
use std::alloc::{AllocError, Global};
use std::mem;
use tx_checkpoint::Rows;
use tx_files::Change;
use tx_machine::End;

/// Reserves room for two parts more. Its only error is want of memory.
fn reserve_part<S>(rows: &mut Rows<S>, front: &Part<S>, more: &Part<S>) -> Result<(), AllocError>
    ensures same { AreSame rows.old rows.new }
    ensures room { OnOk result (HasRoom rows.new front.now more.now) }
{
    reserve_for(&mut rows.pages, &front.pages, &more.pages)?;
    reserve_for(&mut rows.pieces, &front.pieces, &more.pieces)?;
    reserve_for(&mut rows.rows, &front.rows, &more.rows)?;
    Ok(())
}

/// Keeps the first pages, puts others behind them, then old ones, moved, and others at the end; the last stretch stays. There is
/// room for all, so it takes no memory.
fn place_part<S: Drop>(
    rows: &mut Rows<S>,
    kept: usize,
    front: Part<S>,
    from: usize,
    count: usize,
    more: Part<S>,
    changes: &[Change],
)
    requires lengths { AreOfOneLength rows.old }
    requires order { kept ≤ from }
    requires within { from + count ≤ length rows.old.rows.items }
    requires can { All (CanCarryRow changes.now) (take count (drop from rows.old.rows.items)) }
    requires room { HasRoom rows.old front more }
    ensures { AreSpliced changes.now rows.old kept front from count more rows.new }
{
    relocate_part(&mut rows.rows, from, count, changes);
    reuse_items(&mut rows.pages, kept, front.pages, from, count, more.pages);
    reuse_items(
        &mut rows.pieces,
        kept,
        front.pieces,
        from,
        count,
        more.pieces,
    );
    reuse_items(&mut rows.rows, kept, front.rows, from, count, more.rows);
}

/// The same, where room for all has to be reserved first. After want of memory the rows are as before.
fn reuse_part<S: Drop>(
    rows: &mut Rows<S>,
    kept: usize,
    front: Part<S>,
    from: usize,
    count: usize,
    more: Part<S>,
    changes: &[Change],
) -> Result<(), AllocError>
    requires lengths { AreOfOneLength rows.old }
    requires order { kept ≤ from }
    requires within { from + count ≤ length rows.old.rows.items }
    requires can { All (CanCarryRow changes.now) (take count (drop from rows.old.rows.items)) }
    ensures ok { OnOk result (AreSpliced changes.now rows.old kept front from count more rows.new) }
    ensures err { OnErr result (AreSame rows.old rows.new) }
{
    match reserve_part(rows, &front, &more) {
        Ok(()) => {
            place_part(rows, kept, front, from, count, more, changes);
            Ok(())
        }
        Err(error) => {
            drop(front);
            drop(more);
            Err(error)
        }
    }
}

/// Makes changes in the rows where more pages come further, or none, with the stretch after them.
fn reuse_going<S: Drop>(
    rows: &mut Rows<S>,
    kept: usize,
    front: Part<S>,
    from: usize,
    count: usize,
    more: Rows<S>,
    changes: &[Change],
) -> Result<(), AllocError>
    requires lengths { AreOfOneLength rows.old }
    requires order { kept ≤ from }
    requires within { from + count ≤ length rows.old.rows.items }
    requires can { All (CanCarryRow changes.now) (take count (drop from rows.old.rows.items)) }
    ensures ok { OnOk result (AreReused changes.now rows.old kept (record { front = front; from = from; count = count; further = Goes more }) rows.new) }
    ensures err { OnErr result (AreSame rows.old rows.new) }
{
    let Rows {
        pages,
        pieces,
        rows: more,
        last,
    } = more;
    let part = Part {
        pages,
        pieces,
        rows: more,
    };
    match reuse_part(rows, kept, front, from, count, part, changes) {
        Ok(()) => {
            drop(mem::replace(&mut rows.last, last));
            Ok(())
        }
        Err(error) => {
            drop(last);
            Err(error)
        }
    }
}

/// Makes changes in the rows where the old last stretch stands, with this end.
fn reuse_standing<S: Drop>(
    alloc: Global,
    rows: &mut Rows<S>,
    kept: usize,
    front: Part<S>,
    from: usize,
    count: usize,
    end: End,
    changes: &[Change],
) -> Result<(), AllocError>
    requires lengths { AreOfOneLength rows.old }
    requires order { kept ≤ from }
    requires within { from + count ≤ length rows.old.rows.items }
    requires can { All (CanCarryRow changes.now) (take count (drop from rows.old.rows.items)) }
    requires last { CanCarryLast changes.now rows.old.last }
    ensures ok { OnOk result (AreReused changes.now rows.old kept (record { front = front; from = from; count = count; further = Stands end }) rows.new) }
    ensures err { OnErr result (AreSame rows.old rows.new) }
{
    let part = Part {
        pages: Vec::new(alloc),
        pieces: Vec::new(alloc),
        rows: Vec::new(alloc),
    };
    match reuse_part(rows, kept, front, from, count, part, changes) {
        Ok(()) => {
            relocate_last(&mut rows.last, changes);
            drop(mem::replace(&mut rows.last.end, end));
            Ok(())
        }
        Err(error) => {
            drop(end);
            Err(error)
        }
    }
}

/// Makes changes in the rows: keeps the first ones, and puts behind them what comes later. All room is reserved before anything
/// changes, so that after want of memory the rows are as before.
pub fn reuse_rows<S: Drop>(
    alloc: Global,
    rows: &mut Rows<S>,
    kept: usize,
    later: Later<S>,
    changes: &[Change],
) -> Result<(), AllocError>
    requires lengths { AreOfOneLength rows.old }
    requires fits { FitsBehind changes.now kept rows.old later }
    ensures ok { OnOk result (AreReused changes.now rows.old kept later rows.new) }
    ensures err { OnErr result (AreSame rows.old rows.new) }
{
    let Later {
        front,
        from,
        count,
        further,
    } = later;
    match further {
        Further::Goes(more) => reuse_going(rows, kept, front, from, count, more, changes),
        Further::Stands(end) => {
            reuse_standing(alloc, rows, kept, front, from, count, end, changes)
        }
    }
}
