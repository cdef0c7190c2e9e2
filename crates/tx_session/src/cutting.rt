//! What changes of a run that is kept come to: the run is given up for the one on the changed files, or kept beside it where that one was
//! cut off.
ghost use Rattle.std.specs.Prelude.{◌≡◌, ◌≤◌, ◌&&◌, nat_le, List, length, IfOk, OnOk, OnErr};
ghost use Rattle.tx_bytes.specs.Files.{Files};
ghost use Rattle.tx_files.specs.declared.edit.Change.{Change as FileChange};
ghost use Rattle.tx_machine.specs.Steps.{raised};
ghost use Rattle.tx_checkpoint.specs.Meant.{AreSame};
ghost use Rattle.tx_checkpoint.specs.declared.row.Last.{Last as LastStretch};
ghost use Rattle.tx_quiesce.specs.Later.{HasNoPage, last_of};
ghost use Rattle.tx_session.specs.Cut as spec;
ghost use Rattle.tx_session.specs.Cut.{IsLed, HasCome};
ghost use Rattle.tx_session.specs.Held.{held_of, with_files};
ghost use Rattle.tx_session.specs.Report.{work};
ghost use Rattle.tx_session.specs.Standing as standing;

use crate::kept::{Beside, Come, Cut, Made};
use crate::made::{make_beside, take_over};
use crate::session::report_of;
use std::alloc::{AllocError, Global};
use tx_checkpoint::Rows;
use tx_files::{Change, FileSet, Name};
use tx_machine::{Date, End, Limits, Machine, Steps};
use tx_quiesce::{Further, Later};

/// Of an earlier run no more changes are made.
const MOST_CHANGES: usize = 1000;

/// Whether a run ended by the end of its text.
fn is_whole(end: &End) -> bool
    ensures { result ≡ standing.is_whole end.now }
{
    match end {
        End::End => true,
        End::Error { .. } | End::Budget | End::PageLimit => false,
    }
}

/// Whether a run was cut off, by an error or by what a page may cost.
fn is_cut(end: &End) -> bool
    ensures { result ≡ standing.is_cut end.now }
{
    match end {
        End::Error { .. } | End::Budget => true,
        End::End | End::PageLimit => false,
    }
}

/// How a run ends of which this comes further.
fn end_of<S>(further: &Further<S>) -> &End
    ensures { result.now ≡ spec.end_of further.now }
{
    match further {
        Further::Goes(rows) => &rows.last.end,
        Further::Stands(end) => end,
    }
}

/// Whether a run of which so many changes were made is kept beside what they led to.
fn is_kept<S>(made: &Made<S>, beside: &Beside<S>, count: usize) -> bool
    ensures { result ≡ (standing.is_whole made.now.rows.last.end && standing.is_cut (spec.end_of beside.now.later.further) && nat_le count 1000) }
{
    is_whole(&made.rows.last.end) && is_cut(end_of(&beside.later.further)) && count <= MOST_CHANGES
}

/// What was made beside a run of which the first pages, so many, stand, where nothing more of that run was reused.
fn cut_of<S: Drop>(kept: usize, beside: Beside<S>) -> Cut<S>
    requires { HasNoPage beside.later.further }
    ensures kept { result.kept ≡ kept }
    ensures part { result.part ≡ beside.later.front }
    ensures last { (changes : List FileChange) (last : LastStretch) → result.last ≡ last_of changes last beside.later.further }
    ensures said { result.said ≡ beside.said }
{
    let Beside { later, said } = beside;
    let Later { front, further, .. } = later;
    match further {
        Further::Goes(rows) => {
            let Rows {
                pages: _pages,
                pieces: _pieces,
                rows: _rows,
                last,
            } = rows;
            Cut {
                kept,
                part: front,
                last,
                said,
            }
        }
        Further::Stands(_) => unreachable!(),
    }
}

/// Makes changes of a run that is kept, on these files, which are the changed ones: formats what they touch, and takes it over unless the
/// run is to be kept beside it. After want of memory the run stands as before.
pub fn make<M: Machine>(
    alloc: Global,
    machine: &M,
    files: &FileSet,
    changes: &[Change],
    made: &mut Made<M::State>,
    main: &Name,
    date: &Date,
    limits: &Limits,
    steps: &mut Steps,
) -> Result<Come<M::State>, AllocError>
    requires { (base : Files) × IsLed M.formatter M.meaning M.pending base (held_of files.now main.now date.now limits.now) made.old changes.now }
    ensures come { IfOk result (λ come. (base : Files) → IsLed M.formatter M.meaning M.pending base (held_of files.now main.now date.now limits.now) made.old changes.now → HasCome M.formatter M.meaning M.pending base (held_of files.now main.now date.now limits.now) changes.now made.old made.new come) }
    ensures same { OnErr result (AreSame made.old.rows made.new.rows) }
    ensures unsaid { OnErr result (made.new.said ≡ made.old.said) }
    ensures counted { OnOk result ((base : Files) → IsLed M.formatter M.meaning M.pending base (held_of files.now main.now date.now limits.now) made.old changes.now → steps.new ≡ raised steps.old (work M.formatter (held_of base main.now date.now limits.now) changes.now)) }

    // Also where memory was wanting.
    ensures bound { (base : Files) → IsLed M.formatter M.meaning M.pending base (held_of files.now main.now date.now limits.now) made.old changes.now → steps.new ≤ raised steps.old (work M.formatter (held_of base main.now date.now limits.now) changes.now) }
{
    let kept = made.rows.resume_at(changes);
    if made.rows.stands(kept, changes) {
        let pages = made.rows.pages.as_slice().len();
        return Ok(Come::Settled(report_of(pages, pages, 0)));
    }
    let beside = make_beside(
        alloc,
        machine,
        files,
        changes,
        made,
        kept as u32,
        main,
        date,
        limits,
        steps,
    )?;
    if is_kept(made, &beside, changes.len()) {
        let cut = cut_of(kept, beside);
        let pages = kept + cut.part.pages.as_slice().len();
        let report = report_of(pages, kept, 0);
        return Ok(Come::Beside { report, cut });
    }
    let reused = beside.later.count;
    take_over(alloc, made, kept, beside, changes)?;
    let pages = made.rows.pages.as_slice().len();
    Ok(Come::Settled(report_of(pages, kept, reused)))
}
