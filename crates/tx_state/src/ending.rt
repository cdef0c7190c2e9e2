//! How a turn ends: it fails, asks, ends the run, ends an assignment, or appends an item.
ghost use Rattle.std.specs.Prelude.{◌≡◌, [], IfOk, OnOk};
ghost use Rattle.tx_assign.specs.Changes.{carried_out};
ghost use Rattle.tx_event.specs.Turns.{kind_of};
ghost use Rattle.tx_node.specs.Nodes.{item_of};
ghost use Rattle.tx_state.specs.Ended as spec;
ghost use Rattle.tx_state.specs.Meanings.{IsStepped, state_of};
ghost use Rattle.tx_state.specs.Outcomes.{Asks, Ends, fails, leaves};

use crate::parts::Phase;
use crate::state::State;
use std::alloc::AllocError;
use std::mem;
use tx_assign::{Assignment, Carried};
use tx_command::{CommandScan, Head, Prefixes};
use tx_event::{Ask, AskKind, Event, Stop};
use tx_nest::append_item;
use tx_node::Node;
use tx_seen::TexError;
use tx_word::Words;

/// The run ends by an error.
pub fn fail(s: &mut State, error: TexError) -> Event
    ensures { IsStepped (fails error) s.old result s.new }
{
    s.phase = Phase::Halted;
    Event::Stopped(Stop::Error(error.number()))
}

/// The turn ends with an ask.
#[inline(never)]
pub fn ask(s: &mut State, kind: AskKind, ask: Ask) -> Event
    requires { kind ≡ kind_of ask }
    ensures { IsStepped (Asks ask (state_of s.old)) s.old result s.new }
{
    s.phase = Phase::Waiting(kind);
    Event::Asks(ask)
}

/// The run ends as \end does it.
pub fn finish(s: &mut State) -> Event
    ensures { IsStepped Ends s.old result s.new }
{
    s.phase = Phase::Halted;
    Event::Stopped(Stop::End)
}

/// What stands before the next command behind an assignment: an accent, if one waits for the character below it.
pub fn next_head(words: &Words) -> Head
    ensures { result ≡ spec.next_head words.now.accent }
{
    match words.accent() {
        Some(_) => Head::Accenting(Prefixes {
            global: false,
            long: false,
            outer: false,
        }),
        None => Head::Fresh,
    }
}

/// The next command stands behind an accent that waits, or behind nothing.
#[inline(always)]
fn stand_next(words: &Words, scan: &mut CommandScan)
    ensures { scan.new ≡ record { mode = scan.old.mode; head = spec.next_head words.now.accent; taken = [] } }
{
    match words.accent() {
        // (nearly always)
        None => scan.begin_fresh(),
        Some(_) => scan.begin_behind(next_head(words)),
    }
}

/// An assignment is done: what \afterassignment keeps is read next. Its only error is want of memory.
pub fn finish_assignment(s: &mut State) -> Result<(), AllocError>
    ensures state { OnOk result (state_of s.new ≡ spec.assigned (state_of s.old)) }
    ensures phase { OnOk result (s.new.phase ≡ s.old.phase) }
    ensures said { OnOk result (s.new.said ≡ s.old.said) }
{
    if let Some(token) = mem::replace(&mut s.after_assignment, None) {
        s.input.give_back(token)?;
    }
    stand_next(&s.words, &mut s.scan);
    Ok(())
}

/// The same, and nothing else. Its only error is want of memory.
pub fn end_assignment(s: &mut State) -> Result<Event, AllocError>
    requires { s.old.phase ≡ Phase.Running }
    ensures { IfOk result (λ event. IsStepped (leaves (spec.assigned (state_of s.old))) s.old event s.new) }
{
    finish_assignment(s)?;
    Ok(Event::Went)
}

/// An assignment is carried out, global by its prefixes or not, and ends the turn. Err is want of memory; the event ends the run
/// where the assignment is refused.
pub fn carry_out_assignment(
    s: &mut State,
    assignment: Assignment,
    global: bool,
) -> Result<Event, AllocError>
    requires { s.old.phase ≡ Phase.Running }
    ensures { IfOk result (λ event. IsStepped (spec.assigning (state_of s.old) (carried_out s.old.table assignment global)) s.old event s.new) }
{
    match tx_assign::carry_out(&mut s.table, assignment, global)? {
        Carried::Done => end_assignment(s),
        Carried::Refused(error) => Ok(fail(s, error)),
    }
}

/// Appends an item that changes nothing else of the list.
pub fn add(s: &mut State, node: Node) -> Result<Event, AllocError>
    requires { s.old.phase ≡ Phase.Running }
    ensures { IfOk result (λ event. IsStepped (spec.adding (state_of s.old) (item_of node)) s.old event s.new) }
{
    append_item(s.lists.nest.top(), node)?;
    Ok(Event::Went)
}
