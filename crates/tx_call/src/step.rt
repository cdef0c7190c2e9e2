//! One command, as a script has it and as a request does: its changes are made and what came of them is said, what there is is saved,
//! or it is said by which page a place is first read.
ghost use Rattle.std.specs.Prelude.{◌≡◌, ◌∷◌, [], true, ◌+◌, ◌<◌, ◌≤◌, ◌^◌, IfOk, OnOk};
ghost use Rattle.tx_io.specs.Output.{Say};
ghost use Rattle.tx_session.specs.Held.{fresh};
ghost use Rattle.tx_session.specs.Refusals.{may_want};
ghost use Rattle.tx_session.specs.Standing.{now};
ghost use Rattle.tx_call.specs.Lines.{edit_line as made_line};
ghost use Rattle.tx_call.specs.Replay.{MayWant, refused_line};
ghost use Rattle.tx_call.specs.Sitting.{Goes, edit_effect, effect};
ghost use Rattle.tx_call.specs.Tally.{sitting};
ghost use Rattle.tx_call.specs.Trouble.{PutsOut, SinkCauses};

use crate::lines::{batch_outside_line, edit_line, outside_line};
use crate::outputs::{save_document, say, say_located};
use crate::tally::Tally;
use crate::trouble::Trouble;
use std::alloc::{AllocError, Global};
use std::slice;
use tx_bytes::Bytes;
use tx_files::Change;
use tx_io::Sink;
use tx_machine::{Machine, Steps};
use tx_script::Command;
use tx_session::{Document, Refusal, Report};

/// How a command went that met no trouble of the outside.
#[derive(Clone, Copy)]
pub enum Stepped {
    /// It was carried out.
    Done,
    /// There was no memory left for its changes. All is as before, and nothing was put out.
    Wanting,
}

/// Says what came of changes that were made.
fn say_made<M: Machine, D: Document<M>, K: Sink>(
    alloc: Global,
    number: u64,
    report: &Report,
    document: &D,
    sink: &mut K,
) -> Result<(), Trouble>
    ensures puts { PutsOut result (K.output sink.old) (Say (made_line number report.now (fresh M.formatter (now (D.standing document.now))).ran.end) ∷ []) (K.output sink.new) }
    ensures causes { SinkCauses result (K.faults sink.old) (K.faults sink.new) }
{
    let line = edit_line(alloc, number, report, document.end())?;
    say(sink, line.as_slice())
}

/// What is said of a change that goes past the end of its file, the first of its batch or one alone.
fn refused(
    alloc: Global,
    together: bool,
    number: u64,
    index: u64,
    len: u64,
) -> Result<Bytes, AllocError>
    ensures { IfOk result (λ line. line ≡ refused_line together number (index, len)) }
{
    if together {
        batch_outside_line(alloc, number, index, len)
    } else {
        outside_line(alloc, number, len)
    }
}

/// Says it.
fn say_refused<K: Sink>(
    alloc: Global,
    together: bool,
    number: u64,
    index: u64,
    len: u64,
    sink: &mut K,
) -> Result<(), Trouble>
    ensures puts { PutsOut result (K.output sink.old) (Say (refused_line together number (index, len)) ∷ []) (K.output sink.new) }
    ensures causes { SinkCauses result (K.faults sink.old) (K.faults sink.new) }
{
    let line = refused(alloc, together, number, index, len)?;
    say(sink, line.as_slice())
}

/// Makes a list of changes, which are those of a batch or one change alone, and says what came of it.
pub fn make_changes<M: Machine, D: Document<M>, K: Sink>(
    alloc: Global,
    together: bool,
    changes: &[Change],
    document: &mut D,
    tally: &mut Tally,
    sink: &mut K,
    steps: &mut Steps,
) -> Result<Stepped, Trouble>
    requires { tally.old.edits + 1 < 2 ^ 64 }
    ensures goes { Goes result (edit_effect M.formatter D.longest (sitting (D.standing document.old) tally.old) together changes.now) (sitting (D.standing document.old) tally.old) (sitting (D.standing document.new) tally.new) (K.output sink.old) (K.output sink.new) steps.old steps.new }
    ensures edits { OnOk result (tally.new.edits ≤ tally.old.edits + 1) }
    ensures places { OnOk result (tally.new.places ≡ tally.old.places) }
    ensures wanting { IfOk result (λ stepped. stepped ≡ Stepped.Wanting → may_want (now (D.standing document.old)).files changes.now ≡ true) }
    ensures causes { SinkCauses result (K.faults sink.old) (K.faults sink.new) }
{
    match document.batch(changes, steps) {
        Ok(report) => {
            tally.edits += 1;
            say_made::<M, D, K>(alloc, tally.edits, &report, document, sink)?;
            Ok(Stepped::Done)
        }
        Err(Refusal::BatchOutside { index, len }) => {
            tally.edits += 1;
            tally.outside = true;
            say_refused(alloc, together, tally.edits, index, len, sink)?;
            Ok(Stepped::Done)
        }
        Err(Refusal::OutOfMemory) => Ok(Stepped::Wanting),
        Err(Refusal::Outside { .. }) => unreachable!(),
    }
}

/// Carries out a command.
pub fn step<M: Machine, D: Document<M>, K: Sink>(
    alloc: Global,
    command: &Command,
    document: &mut D,
    tally: &mut Tally,
    sink: &mut K,
    steps: &mut Steps,
) -> Result<Stepped, Trouble>
    requires room { tally.old.edits + 1 < 2 ^ 64 }
    requires places_room { tally.old.places + 1 < 2 ^ 64 }
    ensures goes { Goes result (effect M.formatter D.longest (sitting (D.standing document.old) tally.old) command.now) (sitting (D.standing document.old) tally.old) (sitting (D.standing document.new) tally.new) (K.output sink.old) (K.output sink.new) steps.old steps.new }
    ensures edits { OnOk result (tally.new.edits ≤ tally.old.edits + 1) }
    ensures places { OnOk result (tally.new.places ≤ tally.old.places + 1) }
    ensures wanting { IfOk result (λ stepped. stepped ≡ Stepped.Wanting → MayWant (now (D.standing document.old)).files command.now) }
    ensures causes { SinkCauses result (K.faults sink.old) (K.faults sink.new) }
{
    match command {
        Command::Change(change) => {
            let changes = slice::from_ref(change);
            make_changes::<M, D, K>(alloc, false, changes, document, tally, sink, steps)
        }
        Command::Batch(batch) => {
            let changes = batch.as_slice();
            make_changes::<M, D, K>(alloc, true, changes, document, tally, sink, steps)
        }
        Command::Save(name) => {
            save_document::<M, D, K>(alloc, name, document, sink)?;
            Ok(Stepped::Done)
        }
        Command::Locate(at) => {
            tally.places += 1;
            say_located::<M, D, K>(alloc, tally.places, at, document, sink)?;
            Ok(Stepped::Done)
        }
    }
}
