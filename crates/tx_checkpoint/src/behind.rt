//! Where a run begins: at its start, or behind rows that stand.
ghost use Rattle.std.specs.Prelude.{◌≡◌, ◌≤◌, length, take, IfOk, OnOk};
ghost use Rattle.tx_machine.specs.Ranges.{IsDate};
ghost use Rattle.tx_machine.specs.Steps.{raised};
ghost use Rattle.tx_checkpoint.specs.Meant.{AreRows, AreIdle, IsIdle, begun_of, rows_meant};
ghost use Rattle.tx_checkpoint.specs.Resume.{after_rows, start_of};
ghost use Rattle.tx_checkpoint.specs.Rows as specs;
ghost use Rattle.tx_checkpoint.specs.Rows.{all_turns};

use crate::format::format_rows;
use crate::row::{Row, Rows};
use std::alloc::{AllocError, Global};
use tx_files::{FileSet, Name};
use tx_list::both;
use tx_machine::spot::Spot;
use tx_machine::{Date, Limits, Machine, Opens, Steps};

/// Where a run begins: at the machine's start, with no file open. Its only error is want of memory.
fn spot_at_start<M: Machine>(
    alloc: Global,
    machine: &M,
    main: &Name,
    date: &Date,
) -> Result<Spot<M::State>, AllocError>
    requires { IsDate date.now }
    ensures begun { IfOk result (λ spot. begun_of M.meaning spot ≡ start_of M.formatter main.now date.now) }
    ensures idle { IfOk result (λ spot. IsIdle M.formatter M.meaning M.pending spot.state) }
{
    Ok(Spot {
        state: machine.start(alloc, date, main)?,
        opens: Opens::new(alloc),
        left: 0,
    })
}

/// The fresh run of a main file on these files, page by page with its rows. Each turn raises `steps` by one. Its only
/// error is want of memory.
pub fn fresh_rows<M: Machine>(
    alloc: Global,
    machine: &M,
    files: &FileSet,
    main: &Name,
    date: &Date,
    limits: &Limits,
    steps: &mut Steps,
) -> Result<Rows<M::State>, AllocError>
    requires { IsDate date.now }
    ensures rows { IfOk result (λ rows. AreRows M.meaning rows (specs.fresh_rows M.formatter files.now main.now date.now limits.now)) }
    ensures idle { IfOk result (λ rows. AreIdle M.formatter M.meaning M.pending rows.rows.items) }
    ensures counted { OnOk result (steps.new ≡ raised steps.old (all_turns (specs.fresh_rows M.formatter files.now main.now date.now limits.now))) }

    // Also where memory was wanting.
    ensures bound { steps.new ≤ raised steps.old (all_turns (specs.fresh_rows M.formatter files.now main.now date.now limits.now)) }
{
    let spot = spot_at_start(alloc, machine, main, date)?;
    format_rows(
        alloc,
        machine,
        files,
        spot,
        limits.budget,
        limits.pages,
        steps,
    )
}

/// Where the page behind the first rows begins: with the state and the open files after the last of them, which is
/// shared; where none is kept, at the start. Its only error is want of memory.
pub fn spot_behind<M: Machine>(
    alloc: Global,
    machine: &M,
    rows: &[Row<M::State>],
    kept: usize,
    main: &Name,
    date: &Date,
) -> Result<Spot<M::State>, AllocError>
    requires dated { IsDate date.now }
    requires within { kept ≤ length rows.now }
    requires idle { AreIdle M.formatter M.meaning M.pending rows.now }
    ensures begun { IfOk result (λ spot. begun_of M.meaning spot ≡ after_rows (start_of M.formatter main.now date.now) (take kept (rows_meant M.meaning rows.now))) }
    ensures idle { IfOk result (λ spot. IsIdle M.formatter M.meaning M.pending spot.state) }
{
    if kept == 0 {
        return spot_at_start(alloc, machine, main, date);
    }
    let row = &rows[kept - 1];
    let (state, opens) = both(machine.share(alloc, &row.state), row.opens.clone())?;
    Ok(Spot {
        state,
        opens,
        left: 0,
    })
}
