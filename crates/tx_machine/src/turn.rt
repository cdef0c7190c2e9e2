//! The turns of a page within its budget, one by one or many at one go.
ghost use Rattle.std.specs.Prelude.{◌≡◌, ◌≤◌, [], IfOk, OnOk, OnErr};
ghost use Rattle.tx_files.specs.Reads.{noting};
ghost use Rattle.tx_event.specs.Turns.{Ready};
ghost use Rattle.tx_machine.specs.Counts.{AreTaken, Closes, HasCounted, IsAwaiting, IsHeeded, Made, closing_turns};
ghost use Rattle.tx_machine.specs.Steps.{raised};
ghost use Rattle.tx_machine.specs.Turn.{came, one_turn, place_of, stretch};

use crate::machine::Machine;
use crate::opens::reply;
use crate::spot::{Closed, Spot};
use crate::steps::Steps;
use crate::types::{Close, Passed};
use std::alloc::{AllocError, Global};
use tx_bytes::Bytes;
use tx_event::Event;
use tx_files::{FileSet, Seen};

/// What turns at one go came to, with one behind them.
#[derive(Drop)]
struct Taken {
    /// How many were taken at one go.
    passed: u64,
    /// What the one behind them ends, if it ends anything.
    close: Option<Close>,
}

/// Does what the event of a turn asks for: answers what the machine asks, and notes what the answer shows of files.
#[inline(never)]
fn heed<M: Machine>(
    alloc: Global,
    machine: &M,
    files: &FileSet,
    spot: &mut Spot<M::State>,
    seen: &mut Seen,
    event: Event,
) -> Result<Option<Close>, AllocError>
    requires { IsAwaiting M.formatter (M.meaning spot.old.state) event }
    ensures heeded { IfOk result (λ close. IsHeeded (came M.formatter files.now (place_of M.meaning spot.old) event) close (place_of M.meaning spot.new) seen.old seen.new) }
    ensures pending { OnOk result (M.pending spot.new.state ≡ M.pending spot.old.state) }
{
    match event {
        Event::Went => Ok(None),
        Event::Asks(ask) => {
            let answer = reply(alloc, files, &mut spot.opens, seen, ask)?;
            machine.answer(alloc, &mut spot.state, &answer)?;
            Ok(None)
        }
        Event::Shipped(body) => Ok(Some(Close::Page(body))),
        Event::Stopped(stop) => Ok(Some(Close::Halt(stop))),
    }
}

/// Takes one turn that the machine has left, if the budget allows it, answers what the machine asks in it, and notes what the
/// answer shows of files.
fn take_turn<M: Machine>(
    alloc: Global,
    machine: &M,
    files: &FileSet,
    spot: &mut Spot<M::State>,
    seen: &mut Seen,
    steps: &mut Steps,
) -> Result<Option<Close>, AllocError>
    requires { M.formatter.mode (M.meaning spot.old.state) ≡ Ready }
    ensures made { IfOk result (λ close. Made (one_turn M.formatter files.now (place_of M.meaning spot.old)) close (place_of M.meaning spot.new) (M.pending spot.old.state) (M.pending spot.new.state)) }
    ensures seen { OnOk result (seen.new ≡ noting seen.old (one_turn M.formatter files.now (place_of M.meaning spot.old)).log) }
    ensures steps { steps.new ≡ raised steps.old (one_turn M.formatter files.now (place_of M.meaning spot.old)).turns }
{
    let cost = machine.cost(&spot.state);
    if spot.left < cost {
        return Ok(Some(Close::Spent));
    }
    let event = machine.turn(alloc, &mut spot.state, steps)?;
    spot.left -= cost;
    heed(alloc, machine, files, spot, seen, event)
}

/// Lets the machine take turns at one go, as many as the budget allows at most, and heeds what came of the last of them, or takes
/// the next one, where the machine has left it.
fn take_turns<M: Machine>(
    alloc: Global,
    machine: &M,
    files: &FileSet,
    spot: &mut Spot<M::State>,
    seen: &mut Seen,
    steps: &mut Steps,
) -> Result<Taken, AllocError>
    requires { M.formatter.mode (M.meaning spot.old.state) ≡ Ready }
    ensures taken { IfOk result (λ taken. AreTaken M.formatter files.now (place_of M.meaning spot.old) taken (place_of M.meaning spot.new) (M.pending spot.old.state) (M.pending spot.new.state) seen.old seen.new steps.old steps.new) }
    ensures bound { OnErr result (HasCounted M.formatter files.now (place_of M.meaning spot.old) steps.old steps.new) }
{
    let Passed { turns, last } = machine.run_on(alloc, &mut spot.state, spot.left, steps)?;
    spot.left -= turns;
    match last {
        Some(event) => {
            spot.left -= 1;
            let close = heed(alloc, machine, files, spot, seen, event)?;
            Ok(Taken {
                passed: turns,
                close,
            })
        }
        None => {
            let close = take_turn(alloc, machine, files, spot, seen, steps)?;
            Ok(Taken {
                passed: turns,
                close,
            })
        }
    }
}

/// How many turns a close took.
fn closing_turns(close: &Close) -> u64
    ensures { result ≡ closing_turns close.now }
{
    match close {
        Close::Page(_) | Close::Halt(_) => 1,
        Close::Spent => 0,
    }
}

/// Takes turns up to the next page or the run's end, at one go where the machine can, and notes what they see of files.
pub fn format_page<M: Machine>(
    alloc: Global,
    machine: &M,
    files: &FileSet,
    spot: &mut Spot<M::State>,
    seen: &mut Seen,
    steps: &mut Steps,
) -> Result<Closed, AllocError>
    requires ready { M.formatter.mode (M.meaning spot.old.state) ≡ Ready }
    requires taken { M.pending spot.old.state ≡ [] }
    ensures closes { IfOk result (λ closed. Closes (stretch M.formatter files.now (place_of M.meaning spot.old)) closed (place_of M.meaning spot.new)) }
    ensures seen { OnOk result (seen.new ≡ noting seen.old (stretch M.formatter files.now (place_of M.meaning spot.old)).log) }
    ensures taken { OnOk result (M.pending spot.new.state ≡ []) }
    ensures steps { OnOk result (steps.new ≡ raised steps.old (stretch M.formatter files.now (place_of M.meaning spot.old)).turns) }
    ensures bound { steps.new ≤ raised steps.old (stretch M.formatter files.now (place_of M.meaning spot.old)).turns }
{
    let mut turns = 0;
    loop {
        let Taken { passed, close } = take_turns(alloc, machine, files, spot, seen, steps)?;
        turns += passed;
        if let Some(close) = close {
            turns += closing_turns(&close);
            let piece = machine.take_said(alloc, &mut spot.state);
            return Ok(Closed {
                close,
                piece,
                turns,
            });
        }
        turns += 1;
    }
}
