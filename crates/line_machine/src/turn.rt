//! One turn: a space that is passed over, an ask, a page or the end.
ghost use Rattle.std.specs.Prelude.{◌≡◌, ◌≤◌, ◌++◌, ◌∷◌, [], length, IfOk, OnOk, OnErr};
ghost use Rattle.tx_event.specs.Turns.{kind_of, Ready};
ghost use Rattle.tx_machine.specs.Plain.{ArePlain, HasPassed};
ghost use Rattle.tx_machine.specs.Ranges.{IsDate};
ghost use Rattle.tx_machine.specs.Steps.{raised};
ghost use Rattle.tx_event.specs.declared.types.Ask.TheVariants.{Open};
ghost use Rattle.line_machine.specs.State.{meaning_of, mode_of};
ghost use Rattle.line_machine.specs.Turns as turns;
ghost use Rattle.line_machine.specs.Turns.{line_machine, HasSpaces, IsStepped};

use crate::error::LineError;
use crate::state::{Phase, State};
use std::alloc::{AllocError, Global};
use std::mem;
use tx_bytes::Bytes;
use tx_dvi::{DateParameters, PageBody, PageParts};
use tx_event::{Ask, AskKind, Event, Reply, Stop};
use tx_list::Items;
use tx_machine::{Date, Steps};

/// The most bytes that the body of a page may have.
const MAX_BODY: usize = 200000;

/// The date as the parameters of a page.
pub fn date_parameters(date: &Date) -> DateParameters
    requires { IsDate date.now }
    ensures { result ≡ turns.date_parameters date.now }
{
    DateParameters {
        year: date.year as i32,
        month: date.month as i32,
        day: date.day as i32,
        time: date.minutes as i32,
    }
}

/// A line but for its LF.
fn text_of(line: &[u8]) -> &[u8]
    ensures { result.now ≡ turns.text_of line.now }
{
    match line.last() {
        Some(b'\n') => &line[..line.len() - 1],
        _ => line,
    }
}

/// The turn ends with an ask.
fn ask(s: &mut State, kind: AskKind, ask: Ask) -> Event
    requires { kind ≡ kind_of ask }
    ensures { IsStepped (turns.asks (meaning_of s.old) ask) result (meaning_of s.new) s.old.said s.new.said }
{
    s.phase = Phase::Waits(kind);
    Event::Asks(ask)
}

/// The turn ends the run.
fn stop(s: &mut State, stop: Stop) -> Event
    ensures { IsStepped (turns.stops (meaning_of s.old) stop) result (meaning_of s.new) s.old.said s.new.said }
{
    s.phase = Phase::Halted;
    Event::Stopped(stop)
}

/// Ships a line that begins with this byte, unless it is too long.
fn ship(alloc: Global, s: &mut State, text: Bytes, first: u8) -> Result<Event, AllocError>
    ensures { IfOk result (λ event. IsStepped (turns.ships (meaning_of s.old) text first) event (meaning_of s.new) s.old.said s.new.said) }
{
    if text.len() > MAX_BODY {
        return Ok(stop(s, Stop::Error(LineError::TooLong.number())));
    }
    s.said.push(first)?;
    s.phase = Phase::Reads(Bytes::new(alloc));
    let parts = PageParts {
        body: text,
        fonts: Items::new(alloc),
        counts: [0; 10],
        height: 0,
        width: 0,
        nesting: 0,
        mag: 1000,
        date: s.date,
    };
    Ok(Event::Shipped(PageBody::new(alloc, parts)?))
}

/// Reads on in the file of this name.
fn open(alloc: Global, s: &mut State, name: &[u8]) -> Result<Event, AllocError>
    ensures { IfOk result (λ event. IsStepped (turns.asks (meaning_of s.old) (Open name.now)) event (meaning_of s.new) s.old.said s.new.said) }
{
    let name = Bytes::from_slice(alloc, name)?;
    Ok(ask(s, AskKind::Open, Ask::Open(name)))
}

/// Passes over a space, behind which this is left of the line.
fn pass(alloc: Global, s: &mut State, rest: &[u8]) -> Result<Event, AllocError>
    ensures { IfOk result (λ event. IsStepped (turns.passes (meaning_of s.old) rest.now) event (meaning_of s.new) s.old.said s.new.said) }
{
    s.phase = Phase::Reads(Bytes::from_slice(alloc, rest)?);
    Ok(Event::Went)
}

/// What comes of a line.
fn read(alloc: Global, s: &mut State, text: Bytes) -> Result<Event, AllocError>
    ensures { IfOk result (λ event. IsStepped (turns.reads (meaning_of s.old) text) event (meaning_of s.new) s.old.said s.new.said) }
{
    match text.as_slice() {
        [] => Ok(ask(s, AskKind::Line, Ask::Line)),
        [b' ', rest @ ..] => pass(alloc, s, rest),
        [b'.'] => Ok(stop(s, Stop::End)),
        [b')'] => Ok(ask(s, AskKind::Close, Ask::Close)),
        [b'(', name @ ..] => open(alloc, s, name),
        [first, ..] => {
            let first = *first;
            ship(alloc, s, text, first)
        }
    }
}

/// Takes one turn. Its only error is want of memory.
pub fn turn(alloc: Global, s: &mut State) -> Result<Event, AllocError>
    requires { mode_of s.old.phase ≡ Ready }
    ensures { IfOk result (λ event. IsStepped (turns.step (meaning_of s.old)) event (meaning_of s.new) s.old.said s.new.said) }
{
    match mem::replace(&mut s.phase, Phase::Halted) {
        Phase::Begins(name) => Ok(ask(s, AskKind::Open, Ask::Open(name.into_bytes()))),
        Phase::Reads(text) => read(alloc, s, text),
        Phase::Fails(error) => Ok(stop(s, Stop::Error(error.number()))),
        Phase::Waits(_) | Phase::Halted => unreachable!(),
    }
}

/// How many spaces a text begins with, at most so many; each is a turn, and is counted.
fn count_spaces(text: &[u8], most: u64, steps: &mut Steps) -> u64
    ensures most { result ≤ most }
    ensures within { result ≤ length text.now }
    ensures spaces { HasSpaces text.now result }
    ensures steps { steps.new ≡ raised steps.old result }
{
    let mut count = 0;
    for byte in text {
        if count == most || *byte != b' ' {
            return count;
        }
        steps.tick();
        count += 1;
    }
    count
}

/// Passes over the spaces that the line begins with, at one go, at most so many. Its only error is want of memory.
pub fn pass_spaces(
    alloc: Global,
    s: &mut State,
    most: u64,
    steps: &mut Steps,
) -> Result<u64, AllocError>
    ensures most { IfOk result (λ count. count ≤ most) }
    ensures turns { IfOk result (λ count. ArePlain line_machine count (meaning_of s.old) (meaning_of s.new)) }
    ensures steps { IfOk result (λ count. steps.new ≡ raised steps.old count) }
    ensures said { OnOk result (s.new.said ≡ s.old.said) }
    ensures bound { OnErr result (HasPassed line_machine most (meaning_of s.old) steps.old steps.new) }
{
    let Phase::Reads(text) = &s.phase else {
        return Ok(0);
    };
    let count = count_spaces(text.as_slice(), most, steps);
    if count == 0 {
        return Ok(0);
    }
    let rest = Bytes::from_slice(alloc, &text.as_slice()[count as usize..])?;
    s.phase = Phase::Reads(rest);
    Ok(count)
}

/// What a reply brings. Its only error is want of memory.
pub fn hear(alloc: Global, reply: &Reply) -> Result<Phase, AllocError>
    ensures { IfOk result (λ phase. phase ≡ turns.heard reply.now) }
{
    match reply {
        Reply::Found => Ok(Phase::Reads(Bytes::new(alloc))),
        Reply::Absent => Ok(Phase::Fails(LineError::FileAbsent)),
        Reply::Closed => Ok(Phase::Reads(Bytes::new(alloc))),
        Reply::Line(line) => Ok(Phase::Reads(Bytes::from_slice(alloc, text_of(line.as_slice()))?)),
        _ => Ok(Phase::Fails(LineError::NoEnd)),
    }
}
