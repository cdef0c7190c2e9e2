//! What comes behind the pages that are reused.
ghost use Rattle.std.specs.Prelude.{◌≡◌, ◌≤◌, ◌-◌, [], length, take, drop, IfOk, OnOk};
ghost use Rattle.std.specs.List.{All};
ghost use Rattle.tx_machine.specs.Steps.{raised};
ghost use Rattle.tx_checkpoint.specs.Meant.{AreRows, AreIdle, IsIdle, rows_meant};
ghost use Rattle.tx_checkpoint.specs.Resume.{Begun, after_rows};
ghost use Rattle.tx_checkpoint.specs.Rows as rows;
ghost use Rattle.tx_checkpoint.specs.Rows.{History, rows_in};
ghost use Rattle.tx_quiesce.specs.Further.{IsFurther, FurtherIsIdle, further_turns, CanReuse};
ghost use Rattle.tx_quiesce.specs.Reuse as reuse;
ghost use Rattle.tx_quiesce.specs.Reuse.{moved, moved_begun, rest_of};
ghost use Rattle.tx_quiesce.specs.Moves.{CanCarryOpens, carried_opens, last_now};

use crate::front::last_at_limit;
use crate::moving::relocate_opens;
use std::alloc::{AllocError, Global};
use tx_checkpoint::{Last, Row, Rows, format_rows};
use tx_event::Stop;
use tx_files::{Change, FileSet};
use tx_machine::run::end_of;
use tx_machine::spot::Spot;
use tx_machine::{End, Machine, Opens, Steps};

/// What comes behind the pages that are reused.
#[derive(Drop)]
pub enum Further<S> {
    /// More pages, perhaps none, and the stretch after them.
    Goes(Rows<S>),
    /// The old run's last stretch, moved, with this end.
    Stands(End),
}

/// Open files, moved. Its only error is want of memory.
fn moved_opens(opens: &Opens, changes: &[Change]) -> Result<Opens, AllocError>
    requires { CanCarryOpens changes.now opens.now }
    ensures { IfOk result (λ moved. moved ≡ carried_opens changes.now opens.now) }
{
    let mut moved = opens.clone()?;
    relocate_opens(&mut moved, changes);
    Ok(moved)
}

/// How the old run ends on the changed files. Its only error is want of memory.
fn end_now(
    alloc: Global,
    files: &FileSet,
    last: &Last,
    changes: &[Change],
) -> Result<End, AllocError>
    requires { CanCarryOpens changes.now last.now.opens }
    ensures { IfOk result (λ end. end ≡ (last_now files.now changes.now last.now).end) }
{
    match &last.end {
        End::End => Ok(End::End),
        End::Error { code, .. } => {
            let opens = moved_opens(&last.opens, changes)?;
            end_of(alloc, files, &opens, Stop::Error(*code))
        }
        End::Budget => Ok(End::Budget),
        End::PageLimit => Ok(End::PageLimit),
    }
}

/// No page more, at the page limit.
fn at_limit<S>(alloc: Global, opens: Opens) -> Rows<S>
    ensures pages { result.pages.items ≡ [] }
    ensures pieces { result.pieces.items ≡ [] }
    ensures rows { result.rows.items ≡ [] }
    ensures last { result.last ≡ rows.at_limit opens }
{
    Rows {
        pages: Vec::new(alloc),
        pieces: Vec::new(alloc),
        rows: Vec::new(alloc),
        last: last_at_limit(alloc, opens),
    }
}

/// Formats on from a row of the old run, moved, for so many pages at most. Its only error is want of memory.
fn goes_on<M: Machine>(
    alloc: Global,
    machine: &M,
    files: &FileSet,
    changes: &[Change],
    row: &Row<M::State>,
    budget: u64,
    most: u32,
    steps: &mut Steps,
) -> Result<Rows<M::State>, AllocError>
    requires opens { CanCarryOpens changes.now row.now.opens }
    requires idle { IsIdle M.formatter M.meaning M.pending row.now.state }
    ensures rows { IfOk result (λ later. AreRows M.meaning later (rows.rows_from M.formatter files.now budget most (M.meaning row.now.state) (carried_opens changes.now row.now.opens))) }
    ensures idle { IfOk result (λ later. AreIdle M.formatter M.meaning M.pending later.rows.items) }
    ensures counted { OnOk result (steps.new ≡ raised steps.old (rows.all_turns (rows.rows_from M.formatter files.now budget most (M.meaning row.now.state) (carried_opens changes.now row.now.opens)))) }
    ensures bound { steps.new ≤ raised steps.old (rows.all_turns (rows.rows_from M.formatter files.now budget most (M.meaning row.now.state) (carried_opens changes.now row.now.opens))) }
{
    let spot = Spot {
        state: machine.share(alloc, &row.state)?,
        opens: moved_opens(&row.opens, changes)?,
        left: 0,
    };
    format_rows(alloc, machine, files, spot, budget, most, steps)
}

/// What comes behind the pages that are reused behind a row of the old run, counted from 1, where so many pages may still come:
/// at the page limit nothing; where the old run was cut off there, what is formatted from its last row on; and else the old
/// run's last stretch. Its only error is want of memory.
pub fn format_further<M: Machine>(
    alloc: Global,
    machine: &M,
    files: &FileSet,
    changes: &[Change],
    old: &Rows<M::State>,
    number: usize,
    budget: u64,
    most: u32,
    steps: &mut Steps,
) -> Result<Further<M::State>, AllocError>
    requires can { CanReuse changes.now number old.now.rows.items old.now.last }
    requires idle { AreIdle M.formatter M.meaning M.pending old.now.rows.items }
    ensures further { IfOk result (λ found. (h : History M.Meaning) (start : Begun M.Meaning) → AreRows M.meaning old.now h → IsFurther M.meaning changes.now old.now.last (reuse.further M.formatter files.now budget most (moved_begun changes.now (after_rows start (take number (rows_in h.pages)))) (moved files.now changes.now (rest_of h number))) found) }
    ensures idle { IfOk result (FurtherIsIdle M.formatter M.meaning M.pending) }
    ensures counted { OnOk result ((h : History M.Meaning) (start : Begun M.Meaning) → AreRows M.meaning old.now h → steps.new ≡ raised steps.old (further_turns old.now.last (reuse.further M.formatter files.now budget most (moved_begun changes.now (after_rows start (take number (rows_in h.pages)))) (moved files.now changes.now (rest_of h number))))) }

    // Also where memory was wanting.
    ensures bound { (h : History M.Meaning) (start : Begun M.Meaning) → AreRows M.meaning old.now h → steps.new ≤ raised steps.old (further_turns old.now.last (reuse.further M.formatter files.now budget most (moved_begun changes.now (after_rows start (take number (rows_in h.pages)))) (moved files.now changes.now (rest_of h number)))) }
{
    let rows = old.rows.as_slice();
    let rest = rows.len() - number;
    if most as usize <= rest {
        let row = &rows[number + most as usize - 1];
        let opens = moved_opens(&row.opens, changes)?;
        return Ok(Further::Goes(at_limit(alloc, opens)));
    }
    if let End::PageLimit = &old.last.end {
        let row = &rows[rows.len() - 1];
        let left = most - rest as u32;
        let later = goes_on(alloc, machine, files, changes, row, budget, left, steps)?;
        return Ok(Further::Goes(later));
    }
    let end = end_now(alloc, files, &old.last, changes)?;
    Ok(Further::Stands(end))
}
