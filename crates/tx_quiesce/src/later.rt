//! What comes behind the rows that changes leave.
ghost use Rattle.std.specs.Prelude.{◌≡◌, ◌≤◌, ◌-◌, [], length, None, IfSome, IfOk, OnOk};
ghost use Rattle.tx_machine.specs.Ranges.{IsDate};
ghost use Rattle.tx_machine.specs.Steps.{raised};
ghost use Rattle.tx_checkpoint.specs.Meant.{AreIdle, AreRows, rows_meant};
ghost use Rattle.tx_checkpoint.specs.Resume.{run_behind};
ghost use Rattle.tx_checkpoint.specs.Rows.{History};
ghost use Rattle.tx_quiesce.specs.Front.{Reaches, turns_to};
ghost use Rattle.tx_quiesce.specs.Further.{CanReuse};
ghost use Rattle.tx_quiesce.specs.Later.{IsLater, HasNoPage, LaterIsIdle, FitsBehind, turns_behind};
ghost use Rattle.tx_quiesce.specs.Reuse.{meeting_behind, made_behind, reused_rows};

use crate::front::{Front, Stopped, format_until_met};
use crate::further::{Further, format_further};
use std::alloc::{AllocError, Global};
use tx_bytes::Bytes;
use tx_checkpoint::{Last, Row, Rows, spot_behind};
use tx_dvi::PageBody;
use tx_files::{Change, FileSet, Name};
use tx_machine::{Date, Limits, Machine, Steps};

/// Some pages, with their pieces of the transcript and their rows, in three lists of one length.
#[derive(Drop)]
pub struct Part<S> {
    pub pages: Vec<PageBody>,
    pub pieces: Vec<Bytes>,
    pub rows: Vec<Row<S>>,
}

/// What comes behind the rows that changes leave: pages that were formatted, then old ones, of which `count` behind the number
/// `from` are reused, and what comes further.
#[derive(Drop)]
pub struct Later<S> {
    pub front: Part<S>,
    pub from: usize,
    pub count: usize,
    pub further: Further<S>,
}

/// No page more, but this last stretch; takes no memory.
fn only<S>(alloc: Global, last: Last) -> Rows<S>
    ensures pages { result.pages.items ≡ [] }
    ensures pieces { result.pieces.items ≡ [] }
    ensures rows { result.rows.items ≡ [] }
    ensures last { result.last ≡ last }
{
    Rows {
        pages: Vec::new(alloc),
        pieces: Vec::new(alloc),
        rows: Vec::new(alloc),
        last,
    }
}

/// How many pages may still come behind so many, where there may be `most`.
fn left_of(most: u32, formatted: usize) -> u32
    requires { formatted ≤ most }
    ensures { result ≡ most - formatted }
{
    most - formatted as u32
}

/// Formats behind the first rows until a new row meets an old one. Its only error is want of memory.
fn front_behind<M: Machine>(
    alloc: Global,
    machine: &M,
    files: &FileSet,
    changes: &[Change],
    old: &Rows<M::State>,
    kept: u32,
    main: &Name,
    date: &Date,
    limits: &Limits,
    steps: &mut Steps,
) -> Result<Front<M::State>, AllocError>
    requires dated { IsDate date.now }
    requires within { kept ≤ length old.now.rows.items }
    requires fewer { kept ≤ limits.now.pages }
    requires idle { AreIdle M.formatter M.meaning M.pending old.now.rows.items }
    ensures reaches { IfOk result (Reaches M.meaning (run_behind M.formatter files.now (rows_meant M.meaning old.now.rows.items) kept main.now date.now limits.now) (meeting_behind M.formatter files.now changes.now (rows_meant M.meaning old.now.rows.items) old.now.last kept main.now date.now limits.now)) }
    ensures idle { IfOk result (λ front. AreIdle M.formatter M.meaning M.pending front.rows.items) }
    ensures counted { OnOk result (steps.new ≡ raised steps.old (turns_to (run_behind M.formatter files.now (rows_meant M.meaning old.now.rows.items) kept main.now date.now limits.now) (meeting_behind M.formatter files.now changes.now (rows_meant M.meaning old.now.rows.items) old.now.last kept main.now date.now limits.now))) }

    // Also where memory was wanting.
    ensures bound { steps.new ≤ raised steps.old (turns_to (run_behind M.formatter files.now (rows_meant M.meaning old.now.rows.items) kept main.now date.now limits.now) (meeting_behind M.formatter files.now changes.now (rows_meant M.meaning old.now.rows.items) old.now.last kept main.now date.now limits.now)) }
{
    let spot = spot_behind(
        alloc,
        machine,
        old.rows.as_slice(),
        kept as usize,
        main,
        date,
    )?;
    format_until_met(
        alloc,
        machine,
        files,
        old,
        changes,
        kept as usize,
        spot,
        limits.budget,
        limits.pages - kept,
        steps,
    )
}

/// Makes what comes behind the first rows after changes, beside the old rows: formats up to the first new row that meets an old
/// one, and behind the rows that are then reused. Each turn raises `steps` by one. Its only error is want of memory.
pub fn format_later<M: Machine>(
    alloc: Global,
    machine: &M,
    files: &FileSet,
    changes: &[Change],
    old: &Rows<M::State>,
    kept: u32,
    main: &Name,
    date: &Date,
    limits: &Limits,
    steps: &mut Steps,
) -> Result<Later<M::State>, AllocError>
    requires dated { IsDate date.now }
    requires within { kept ≤ length old.now.rows.items }
    requires fewer { kept ≤ limits.now.pages }
    requires idle { AreIdle M.formatter M.meaning M.pending old.now.rows.items }
    requires can { IfSome (meeting_behind M.formatter files.now changes.now (rows_meant M.meaning old.now.rows.items) old.now.last kept main.now date.now limits.now) (λ meeting. CanReuse changes.now meeting.old old.now.rows.items old.now.last) }
    ensures later { IfOk result (λ later. (h : History M.Meaning) → AreRows M.meaning old.now h → IsLater M.meaning changes.now old.now h later (made_behind M.formatter files.now changes.now main.now date.now limits.now kept h)) }
    ensures count { IfOk result (λ later. later.count ≡ reused_rows limits.now.pages (length old.now.rows.items) kept (meeting_behind M.formatter files.now changes.now (rows_meant M.meaning old.now.rows.items) old.now.last kept main.now date.now limits.now)) }
    ensures alone { IfOk result (λ later. meeting_behind M.formatter files.now changes.now (rows_meant M.meaning old.now.rows.items) old.now.last kept main.now date.now limits.now ≡ None → HasNoPage later.further) }
    ensures fits { IfOk result (FitsBehind changes.now kept old.now) }
    ensures idle { IfOk result (LaterIsIdle M.formatter M.meaning M.pending) }
    ensures counted { OnOk result ((h : History M.Meaning) → AreRows M.meaning old.now h → steps.new ≡ raised steps.old (turns_behind M.formatter files.now changes.now main.now date.now limits.now kept h)) }

    // Also where memory was wanting.
    ensures bound { (h : History M.Meaning) → AreRows M.meaning old.now h → steps.new ≤ raised steps.old (turns_behind M.formatter files.now changes.now main.now date.now limits.now kept h) }
{
    let Front {
        pages,
        pieces,
        rows,
        stopped,
    } = front_behind(
        alloc, machine, files, changes, old, kept, main, date, limits, steps,
    )?;
    let formatted = rows.len();
    let front = Part {
        pages,
        pieces,
        rows,
    };
    match stopped {
        Stopped::Over(last) => Ok(Later {
            front,
            from: old.rows.len(),
            count: 0,
            further: Further::Goes(only(alloc, last)),
        }),
        Stopped::Met(number) => {
            let left = left_of(limits.pages - kept, formatted);
            let count = (left as usize).min(old.rows.len() - number);
            let further = format_further(
                alloc,
                machine,
                files,
                changes,
                old,
                number,
                limits.budget,
                left,
                steps,
            )?;
            Ok(Later {
                front,
                from: number,
                count,
                further,
            })
        }
    }
}
