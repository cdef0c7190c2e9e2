//! How a run is made anew, or made of what changes leave of it, with its transcript as one text.
ghost use Rattle.std.specs.Prelude.{◌≡◌, ◌≤◌, ◌+◌, ◌++◌, length, None, IfSome, IfOk, OnOk, OnErr};
ghost use Rattle.tx_machine.specs.Ranges.{IsDate};
ghost use Rattle.tx_machine.specs.Steps.{raised};
ghost use Rattle.tx_checkpoint.specs.Meant.{AreRows, AreIdle, AreSame, rows_meant};
ghost use Rattle.tx_checkpoint.specs.Rows as rows;
ghost use Rattle.tx_checkpoint.specs.Rows.{History, all_turns};
ghost use Rattle.tx_quiesce.specs.Further.{CanReuse};
ghost use Rattle.tx_quiesce.specs.Later.{AreOfOneLength, AreReused, FitsBehind, HasNoPage, IsLater, LaterIsIdle, pieces_of, turns_behind};
ghost use Rattle.tx_quiesce.specs.Reuse.{meeting_behind, made_after, made_behind, reused_rows};
ghost use Rattle.tx_session.specs.Held.{joined_with};
ghost use Rattle.tx_session.specs.Made.{Joins, Becomes, IsSaid, pieces_after, last_piece};

use crate::kept::{Beside, Made};
use std::alloc::{AllocError, Global};
use tx_bytes::Bytes;
use tx_checkpoint::{Rows, fresh_rows};
use tx_files::{Change, FileSet, Name};
use tx_machine::{Date, Limits, Machine, Steps};
use tx_quiesce::{Further, Later, format_later, reuse_rows};

/// Puts pieces of a transcript behind it, most of which are empty.
fn append_pieces(said: &mut Bytes, pieces: &[Bytes]) -> Result<(), AllocError>
    ensures { OnOk result (Joins pieces.now said.old said.new) }
{
    for piece in pieces {
        let bytes = piece.as_slice();
        if bytes.len() != 0 {
            said.append(bytes)?;
        }
    }
    Ok(())
}

/// The whole transcript of a run.
fn transcript(alloc: Global, pieces: &[Bytes], last: &Bytes) -> Result<Bytes, AllocError>
    ensures { IfOk result (λ said. said ≡ joined_with pieces.now last.now) }
{
    let mut said = Bytes::new(alloc);
    append_pieces(&mut said, pieces)?;
    said.append(last.as_slice())?;
    Ok(said)
}

/// Makes the run of a main file on these files from its start. Its only error is want of memory.
pub fn make_anew<M: Machine>(
    alloc: Global,
    machine: &M,
    files: &FileSet,
    main: &Name,
    date: &Date,
    limits: &Limits,
    steps: &mut Steps,
) -> Result<Made<M::State>, AllocError>
    requires { IsDate date.now }
    ensures rows { IfOk result (λ made. AreRows M.meaning made.rows (rows.fresh_rows M.formatter files.now main.now date.now limits.now)) }
    ensures idle { IfOk result (λ made. AreIdle M.formatter M.meaning M.pending made.rows.rows.items) }
    ensures said { IfOk result IsSaid }
    ensures counted { OnOk result (steps.new ≡ raised steps.old (all_turns (rows.fresh_rows M.formatter files.now main.now date.now limits.now))) }
    ensures bound { steps.new ≤ raised steps.old (all_turns (rows.fresh_rows M.formatter files.now main.now date.now limits.now)) }
{
    let rows = fresh_rows(alloc, machine, files, main, date, limits, steps)?;
    let Ok(said) = transcript(alloc, rows.pieces.as_slice(), &rows.last.piece) else {
        drop(rows);
        return Err(AllocError);
    };
    Ok(Made { rows, said })
}

/// Puts the pieces of what comes behind the pages that are reused behind a transcript, to the end of the run.
fn append_further<S>(said: &mut Bytes, last: &Bytes, further: &Further<S>) -> Result<(), AllocError>
    ensures { OnOk result (said.new ≡ said.old ++ joined_with (pieces_of further.now) (last_piece last.now further.now)) }
{
    match further {
        Further::Goes(rows) => {
            append_pieces(said, rows.pieces.as_slice())?;
            said.append(rows.last.piece.as_slice())
        }
        Further::Stands(_) => said.append(last.as_slice()),
    }
}

/// The whole transcript after changes: some pieces are kept, others come behind them, then some that are reused, and others.
fn transcript_after<S>(
    alloc: Global,
    rows: &Rows<S>,
    kept: usize,
    later: &Later<S>,
) -> Result<Bytes, AllocError>
    requires kept { kept ≤ length rows.now.pieces.items }
    requires within { later.now.from + later.now.count ≤ length rows.now.pieces.items }
    ensures { IfOk result (λ said. said ≡ joined_with (pieces_after rows.now kept later.now) (last_piece rows.now.last.piece later.now.further)) }
{
    let pieces = rows.pieces.as_slice();
    let mut said = Bytes::new(alloc);
    append_pieces(&mut said, &pieces[..kept])?;
    append_pieces(&mut said, later.front.pieces.as_slice())?;
    append_pieces(&mut said, &pieces[later.from..later.from + later.count])?;
    append_further(&mut said, &rows.last.piece, &later.further)?;
    Ok(said)
}

/// Formats what changes make of a run behind its first pages, so many, on these files, which are the changed ones, until a new row
/// meets an old one, and leaves the run as it is. Its only error is want of memory.
pub fn make_beside<M: Machine>(
    alloc: Global,
    machine: &M,
    files: &FileSet,
    changes: &[Change],
    made: &Made<M::State>,
    kept: u32,
    main: &Name,
    date: &Date,
    limits: &Limits,
    steps: &mut Steps,
) -> Result<Beside<M::State>, AllocError>
    requires dated { IsDate date.now }
    requires lengths { AreOfOneLength made.now.rows }
    requires within { kept ≤ length made.now.rows.rows.items }
    requires fewer { kept ≤ limits.now.pages }
    requires idle { AreIdle M.formatter M.meaning M.pending made.now.rows.rows.items }
    requires can { IfSome (meeting_behind M.formatter files.now changes.now (rows_meant M.meaning made.now.rows.rows.items) made.now.rows.last kept main.now date.now limits.now) (λ meeting. CanReuse changes.now meeting.old made.now.rows.rows.items made.now.rows.last) }
    ensures later { IfOk result (λ beside. (h : History M.Meaning) → AreRows M.meaning made.now.rows h → IsLater M.meaning changes.now made.now.rows h beside.later (made_behind M.formatter files.now changes.now main.now date.now limits.now kept h)) }
    ensures count { IfOk result (λ beside. beside.later.count ≡ reused_rows limits.now.pages (length made.now.rows.rows.items) kept (meeting_behind M.formatter files.now changes.now (rows_meant M.meaning made.now.rows.rows.items) made.now.rows.last kept main.now date.now limits.now)) }
    ensures alone { IfOk result (λ beside. meeting_behind M.formatter files.now changes.now (rows_meant M.meaning made.now.rows.rows.items) made.now.rows.last kept main.now date.now limits.now ≡ None → HasNoPage beside.later.further) }
    ensures fits { IfOk result (λ beside. FitsBehind changes.now kept made.now.rows beside.later) }
    ensures idle { IfOk result (λ beside. LaterIsIdle M.formatter M.meaning M.pending beside.later) }
    ensures said { IfOk result (λ beside. beside.said ≡ joined_with (pieces_after made.now.rows kept beside.later) (last_piece made.now.rows.last.piece beside.later.further)) }
    ensures counted { OnOk result ((h : History M.Meaning) → AreRows M.meaning made.now.rows h → steps.new ≡ raised steps.old (turns_behind M.formatter files.now changes.now main.now date.now limits.now kept h)) }

    // Also where memory was wanting.
    ensures bound { (h : History M.Meaning) → AreRows M.meaning made.now.rows h → steps.new ≤ raised steps.old (turns_behind M.formatter files.now changes.now main.now date.now limits.now kept h) }
{
    let later = format_later(
        alloc, machine, files, changes, &made.rows, kept, main, date, limits, steps,
    )?;
    let Ok(said) = transcript_after(alloc, &made.rows, kept as usize, &later) else {
        drop(later);
        return Err(AllocError);
    };
    Ok(Beside { later, said })
}

/// Takes over what changes made of a run behind its first pages, so many. After want of memory the run stands as before.
pub fn take_over<S: Drop>(
    alloc: Global,
    made: &mut Made<S>,
    kept: usize,
    beside: Beside<S>,
    changes: &[Change],
) -> Result<(), AllocError>
    requires lengths { AreOfOneLength made.old.rows }
    requires fits { FitsBehind changes.now kept made.old.rows beside.later }
    ensures rows { OnOk result (AreReused changes.now made.old.rows kept beside.later made.new.rows) }
    ensures said { OnOk result (made.new.said ≡ beside.said) }
    ensures same { OnErr result (AreSame made.old.rows made.new.rows) }
    ensures unsaid { OnErr result (made.new.said ≡ made.old.said) }
{
    let Beside { later, said } = beside;
    match reuse_rows(alloc, &mut made.rows, kept, later, changes) {
        Ok(()) => {
            made.said = said;
            Ok(())
        }
        Err(error) => {
            drop(said);
            Err(error)
        }
    }
}

/// Makes changes in a run of which the first pages are kept, on these files, which are the changed ones: formats until a new row
/// meets an old one, and takes the rest over. Answers how many pages were taken over. After want of memory the run stands as
/// before.
pub fn make_after<M: Machine>(
    alloc: Global,
    machine: &M,
    files: &FileSet,
    changes: &[Change],
    made: &mut Made<M::State>,
    kept: u32,
    main: &Name,
    date: &Date,
    limits: &Limits,
    steps: &mut Steps,
) -> Result<usize, AllocError>
    requires dated { IsDate date.now }
    requires lengths { AreOfOneLength made.old.rows }
    requires within { kept ≤ length made.old.rows.rows.items }
    requires fewer { kept ≤ limits.now.pages }
    requires idle { AreIdle M.formatter M.meaning M.pending made.old.rows.rows.items }
    requires can { IfSome (meeting_behind M.formatter files.now changes.now (rows_meant M.meaning made.old.rows.rows.items) made.old.rows.last kept main.now date.now limits.now) (λ meeting. CanReuse changes.now meeting.old made.old.rows.rows.items made.old.rows.last) }
    ensures goes { OnOk result (Becomes M.meaning made.old.rows (made_after M.formatter files.now changes.now main.now date.now limits.now kept) made.new.rows) }
    ensures idle { OnOk result (AreIdle M.formatter M.meaning M.pending made.new.rows.rows.items) }
    ensures said { OnOk result (IsSaid made.new) }
    ensures reused { IfOk result (λ reused. reused ≡ reused_rows limits.now.pages (length made.old.rows.rows.items) kept (meeting_behind M.formatter files.now changes.now (rows_meant M.meaning made.old.rows.rows.items) made.old.rows.last kept main.now date.now limits.now)) }
    ensures same { OnErr result (AreSame made.old.rows made.new.rows) }
    ensures unsaid { OnErr result (made.new.said ≡ made.old.said) }
    ensures counted { OnOk result ((h : History M.Meaning) → AreRows M.meaning made.old.rows h → steps.new ≡ raised steps.old (turns_behind M.formatter files.now changes.now main.now date.now limits.now kept h)) }
    ensures bound { (h : History M.Meaning) → AreRows M.meaning made.old.rows h → steps.new ≤ raised steps.old (turns_behind M.formatter files.now changes.now main.now date.now limits.now kept h) }
{
    let beside = make_beside(
        alloc, machine, files, changes, made, kept, main, date, limits, steps,
    )?;
    let reused = beside.later.count;
    take_over(alloc, made, kept as usize, beside, changes)?;
    Ok(reused)
}
