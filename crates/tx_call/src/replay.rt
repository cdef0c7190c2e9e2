//! The commands of a script, one by one, each as `step` carries it out.
ghost use Rattle.std.specs.Prelude.{◌≡◌, ◌+◌, ◌<◌, ◌≤◌, ◌^◌, IfOk, OnOk, IsErrOf};
ghost use Rattle.tx_machine.specs.Steps.{raised};
ghost use Rattle.tx_call.specs.Replay.{Puts, Replays, MayWant, opened, next_moment, moment_after, pieces_at, pieces_from, turns_at, turns_from, refused_pieces, refusal_at};
ghost use Rattle.tx_call.specs.Tally.{moment};
ghost use Rattle.tx_call.specs.Trouble.{PutsOut, SinkCauses, EditCauses};

use crate::lines::memory_line;
use crate::outputs::{save_document, say};
use crate::step::{Stepped, step};
use crate::tally::Tally;
use crate::trouble::{Interruption, Trouble};
use std::alloc::Global;
use tx_files::Name;
use tx_io::Sink;
use tx_machine::{Machine, Steps};
use tx_script::Command;
use tx_session::Session;

/// Tells that memory refused the next edit, and saves what there was before it. The first of these outputs that can't be
/// made is the last one.
fn tell_refusal<M: Machine, K: Sink>(
    alloc: Global,
    out: &Name,
    tally: Tally,
    session: &Session<M>,
    sink: &mut K,
) -> Result<(), Trouble>
    requires { tally.edits + 1 < 2 ^ 64 }
    ensures puts { PutsOut result (K.output sink.old) (refused_pieces M.formatter out.now (moment session.now tally)) (K.output sink.new) }
    ensures causes { SinkCauses result (K.faults sink.old) (K.faults sink.new) }
{
    let line = memory_line(alloc, tally.edits + 1)?;
    say(sink, line.as_slice())?;
    save_document::<M, Session<M>, K>(alloc, out, session, sink)
}

/// Carries out a command: makes its changes and says what came of it, saves what there is, or says by which page a place is first
/// read.
fn run_command<M: Machine, K: Sink>(
    alloc: Global,
    out: &Name,
    command: &Command,
    session: &mut Session<M>,
    tally: &mut Tally,
    sink: &mut K,
    steps: &mut Steps,
) -> Result<(), Interruption>
    requires room { tally.old.edits + 1 < 2 ^ 64 }
    requires places_room { tally.old.places + 1 < 2 ^ 64 }
    ensures moment { OnOk result (moment session.new tally.new ≡ next_moment (moment session.old tally.old) command.now) }
    ensures edits { OnOk result (tally.new.edits ≤ tally.old.edits + 1) }
    ensures places { OnOk result (tally.new.places ≤ tally.old.places + 1) }
    ensures puts { Puts (pieces_at M.formatter (moment session.old tally.old) command.now) (refused_pieces M.formatter out.now (moment session.old tally.old)) result (K.output sink.old) (K.output sink.new) }
    ensures refused { IsErrOf result Interruption.RefusedEdit → MayWant session.old.files command.now }
    ensures counted { OnOk result (steps.new ≡ raised steps.old (turns_at M.formatter (moment session.old tally.old) command.now)) }
    ensures most { steps.new ≤ raised steps.old (turns_at M.formatter (moment session.old tally.old) command.now) }
    ensures causes { EditCauses result (K.faults sink.old) (K.faults sink.new) }
{
    match step::<M, Session<M>, K>(alloc, command, session, tally, sink, steps)? {
        Stepped::Done => Ok(()),
        Stepped::Wanting => {
            let _told = tell_refusal(alloc, out, *tally, session, sink);
            Err(Interruption::RefusedEdit)
        }
    }
}

/// Carries out commands in their order, and answers how many edits there were and whether one of them went past the end
/// of its file.
pub fn replay<M: Machine, K: Sink>(
    alloc: Global,
    out: &Name,
    commands: &[Command],
    session: &mut Session<M>,
    sink: &mut K,
    steps: &mut Steps,
) -> Result<Tally, Interruption>
    ensures moment { IfOk result (λ tally. moment session.new tally ≡ moment_after (opened session.old) commands.now) }
    ensures puts { Replays (pieces_from M.formatter (opened session.old) commands.now) (refusal_at M.formatter out.now (opened session.old) commands.now) result (K.output sink.old) (K.output sink.new) }
    ensures counted { OnOk result (steps.new ≡ raised steps.old (turns_from M.formatter (opened session.old) commands.now)) }
    ensures most { steps.new ≤ raised steps.old (turns_from M.formatter (opened session.old) commands.now) }
    ensures causes { EditCauses result (K.faults sink.old) (K.faults sink.new) }
{
    let mut tally = Tally {
        edits: 0,
        places: 0,
        outside: false,
    };
    for command in commands {
        run_command(alloc, out, command, session, &mut tally, sink, steps)?;
    }
    Ok(tally)
}
