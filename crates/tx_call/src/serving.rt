//! What comes in is answered, one request after the other.
ghost use Rattle.std.specs.Prelude.{◌∷◌, [], ◌+◌, ◌<◌, ◌≤◌, ◌^◌, OnOk};
ghost use Rattle.tx_io.specs.Output.{Say};
ghost use Rattle.tx_call.specs.Hearing.{BreakCauses, Hears, Serves};
ghost use Rattle.tx_call.specs.Lines.{request_refusal_line as refusal_text};
ghost use Rattle.tx_call.specs.Tally.{sitting};
ghost use Rattle.tx_call.specs.Trouble.{PutsOut, SinkCauses};

use crate::answers::answer;
use crate::lines::request_refusal_line;
use crate::outputs::say;
use crate::tally::Tally;
use crate::trouble::{Break, Trouble};
use std::alloc::Global;
use tx_io::{Inlet, Sink};
use tx_machine::{Machine, Steps};
use tx_request::{Next, next_request};
use tx_script::Rule;
use tx_session::Live;

/// Says that bytes are no request.
fn refuse<K: Sink>(alloc: Global, rule: Rule, sink: &mut K) -> Result<(), Trouble>
    ensures puts { PutsOut result (K.output sink.old) (Say (refusal_text rule) ∷ []) (K.output sink.new) }
    ensures causes { SinkCauses result (K.faults sink.old) (K.faults sink.new) }
{
    let line = request_refusal_line(alloc, rule)?;
    say(sink, line.as_slice())
}

/// Answers what comes in next; whether there was something.
fn answer_next<M: Machine, I: Inlet, K: Sink>(
    alloc: Global,
    live: &mut Live<M>,
    tally: &mut Tally,
    inlet: &mut I,
    sink: &mut K,
    steps: &mut Steps,
) -> Result<bool, Break>
    requires room { tally.old.edits + 1 < 2 ^ 64 }
    requires places_room { tally.old.places + 1 < 2 ^ 64 }
    ensures hears { Hears M.formatter result (I.left inlet.old) (I.left inlet.new) (sitting live.old tally.old) (sitting live.new tally.new) (K.output sink.old) (K.output sink.new) steps.old steps.new }
    ensures edits { OnOk result (tally.new.edits ≤ tally.old.edits + 1) }
    ensures places { OnOk result (tally.new.places ≤ tally.old.places + 1) }
    ensures causes { BreakCauses result (I.faults inlet.old) (I.faults inlet.new) (K.faults sink.old) (K.faults sink.new) }
{
    match next_request(alloc, inlet) {
        Next::Asks(request) => {
            answer(alloc, &request, live, tally, sink, steps)?;
            Ok(true)
        }
        Next::Refused(rule) => {
            refuse(alloc, rule, sink)?;
            Ok(true)
        }
        Next::Over => Ok(false),
        Next::Failed => Err(Break::Inlet),
        Next::OutOfMemory => Err(Break::Trouble(Trouble::Memory)),
    }
}

/// Answers what comes in, one request after the other, to its end; each answer is put out before the next request is read. Answers how
/// many edits there were, and whether one of them went past the end of its file.
pub fn answer_all<M: Machine, I: Inlet, K: Sink>(
    alloc: Global,
    live: &mut Live<M>,
    inlet: &mut I,
    sink: &mut K,
    steps: &mut Steps,
) -> Result<Tally, Break>
    ensures serves { Serves M.formatter live.old (I.left inlet.old) (I.left inlet.new) result live.new (K.output sink.old) (K.output sink.new) steps.old steps.new }
    ensures causes { BreakCauses result (I.faults inlet.old) (I.faults inlet.new) (K.faults sink.old) (K.faults sink.new) }
{
    let mut tally = Tally {
        edits: 0,
        places: 0,
        outside: false,
    };
    for _at in 0..u64::MAX {
        let more = answer_next(alloc, live, &mut tally, inlet, sink, steps)?;
        if !more {
            return Ok(tally);
        }
    }
    Err(Break::Trouble(Trouble::Memory))
}
