//! The answers of a document that is served, each to one request.
ghost use Rattle.std.specs.Prelude.{◌≡◌, ◌∷◌, [], false, ◌+◌, ◌<◌, ◌≤◌, ◌⊎◌, ◌^◌, option_copied, OnOk};
ghost use Rattle.tx_io.specs.Output.{Say};
ghost use Rattle.tx_session.specs.Held.{fresh};
ghost use Rattle.tx_session.specs.Pages.{page_of, piece_of};
ghost use Rattle.tx_session.specs.Standing.{now};
ghost use Rattle.tx_call.specs.Answers.{changes_of, most_changes, saved_answer};
ghost use Rattle.tx_call.specs.Hearing.{Answers};
ghost use Rattle.tx_call.specs.Lines.{bytes_text as text_of_bytes, log_head, memory_line as memory_text, page_head as head_of_page, page_memory_line as page_memory_text};
ghost use Rattle.tx_call.specs.Sitting.{Goes, edit_effect};
ghost use Rattle.tx_call.specs.Tally.{sitting};
ghost use Rattle.tx_call.specs.Trouble.{PutsOut, SinkCauses};

use crate::lines::{bytes_text, memory_line, page_head, page_memory_line, saved_line};
use crate::outputs::say;
use crate::step::{Stepped, make_changes, step};
use crate::tally::Tally;
use crate::trouble::Trouble;
use std::alloc::Global;
use std::slice;
use tx_files::{Change, Edit};
use tx_io::Sink;
use tx_machine::{Machine, Steps};
use tx_request::{FileContents, Request};
use tx_script::Command;
use tx_session::{Document, Live};

/// Says that there was no memory for an edit, which counts as one.
fn tell_wanting<K: Sink>(alloc: Global, tally: &mut Tally, sink: &mut K) -> Result<(), Trouble>
    requires { tally.old.edits + 1 < 2 ^ 64 }
    ensures counted { tally.new ≡ record tally.old { edits = tally.old.edits + 1 } }
    ensures puts { PutsOut result (K.output sink.old) (Say (memory_text (tally.old.edits + 1)) ∷ []) (K.output sink.new) }
    ensures causes { SinkCauses result (K.faults sink.old) (K.faults sink.new) }
{
    tally.edits += 1;
    let line = memory_line(alloc, tally.edits)?;
    say(sink, line.as_slice())
}

/// Says that what there is was saved, where that was asked for.
fn tell_saved<K: Sink>(alloc: Global, command: &Command, sink: &mut K) -> Result<(), Trouble>
    ensures puts { PutsOut result (K.output sink.old) (saved_answer command.now) (K.output sink.new) }
    ensures causes { SinkCauses result (K.faults sink.old) (K.faults sink.new) }
{
    let Command::Save(name) = command else {
        return Ok(());
    };
    let line = saved_line(alloc, name.as_slice())?;
    say(sink, line.as_slice())
}

/// Carries out a command of a script and answers it.
fn carry_out<M: Machine, K: Sink>(
    alloc: Global,
    command: &Command,
    live: &mut Live<M>,
    tally: &mut Tally,
    sink: &mut K,
    steps: &mut Steps,
) -> Result<(), Trouble>
    requires room { tally.old.edits + 1 < 2 ^ 64 }
    requires places_room { tally.old.places + 1 < 2 ^ 64 }
    ensures answers { Answers M.formatter (Request.Command command.now) result (sitting live.old tally.old) (sitting live.new tally.new) (K.output sink.old) (K.output sink.new) steps.old steps.new }
    ensures edits { OnOk result (tally.new.edits ≤ tally.old.edits + 1) }
    ensures places { OnOk result (tally.new.places ≤ tally.old.places + 1) }
    ensures causes { SinkCauses result (K.faults sink.old) (K.faults sink.new) }
{
    match step::<M, Live<M>, K>(alloc, command, live, tally, sink, steps)? {
        Stepped::Done => tell_saved(alloc, command, sink),
        Stepped::Wanting => tell_wanting(alloc, tally, sink),
    }
}

/// Makes the edit that gives a file its contents, or nothing where it has them, and says what came of it.
fn put_edit<M: Machine, K: Sink>(
    alloc: Global,
    edit: Option<Edit>,
    live: &mut Live<M>,
    tally: &mut Tally,
    sink: &mut K,
    steps: &mut Steps,
) -> Result<Stepped, Trouble>
    requires { tally.old.edits + 1 < 2 ^ 64 }
    ensures goes { Goes result (edit_effect M.formatter most_changes (sitting live.old tally.old) false (changes_of edit)) (sitting live.old tally.old) (sitting live.new tally.new) (K.output sink.old) (K.output sink.new) steps.old steps.new }
    ensures edits { OnOk result (tally.new.edits ≤ tally.old.edits + 1) }
    ensures places { OnOk result (tally.new.places ≡ tally.old.places) }
    ensures causes { SinkCauses result (K.faults sink.old) (K.faults sink.new) }
{
    match edit {
        Some(edit) => {
            let change = Change::Edit(edit);
            let changes = slice::from_ref(&change);
            make_changes::<M, Live<M>, K>(alloc, false, changes, live, tally, sink, steps)
        }
        None => {
            let none = Vec::new(alloc);
            make_changes::<M, Live<M>, K>(alloc, false, none.as_slice(), live, tally, sink, steps)
        }
    }
}

/// Gives a file its contents, and says what came of that.
fn put_contents<M: Machine, K: Sink>(
    alloc: Global,
    file: &FileContents,
    live: &mut Live<M>,
    tally: &mut Tally,
    sink: &mut K,
    steps: &mut Steps,
) -> Result<(), Trouble>
    requires { tally.old.edits + 1 < 2 ^ 64 }
    ensures answers { Answers M.formatter (Request.File file.now) result (sitting live.old tally.old) (sitting live.new tally.new) (K.output sink.old) (K.output sink.new) steps.old steps.new }
    ensures edits { OnOk result (tally.new.edits ≤ tally.old.edits + 1) }
    ensures places { OnOk result (tally.new.places ≤ tally.old.places + 1) }
    ensures causes { SinkCauses result (K.faults sink.old) (K.faults sink.new) }
{
    let Ok(edit) = live.edit_to(&file.name, file.contents.as_slice()) else {
        return tell_wanting(alloc, tally, sink);
    };
    match put_edit(alloc, edit, live, tally, sink, steps)? {
        Stepped::Done => Ok(()),
        Stepped::Wanting => tell_wanting(alloc, tally, sink),
    }
}

/// Says bytes, how many they are, or that there are none.
fn say_bytes<K: Sink>(
    alloc: Global,
    head: &[u8],
    bytes: Option<&[u8]>,
    sink: &mut K,
) -> Result<(), Trouble>
    ensures puts { PutsOut result (K.output sink.old) (Say (text_of_bytes head.now (option_copied bytes.entry)) ∷ []) (K.output sink.new) }
    ensures causes { SinkCauses result (K.faults sink.old) (K.faults sink.new) }
{
    let text = bytes_text(alloc, head, bytes)?;
    say(sink, text.as_slice())
}

/// Says the page of a number as a DVI file of its own, or that there is no memory for it.
fn say_page<M: Machine, K: Sink>(
    alloc: Global,
    number: u64,
    live: &Live<M>,
    sink: &mut K,
) -> Result<(), Trouble>
    ensures puts { PutsOut result (K.output sink.old) (Say (text_of_bytes (head_of_page number) (page_of (fresh M.formatter (now live.now)).ran.pages number)) ∷ []) (K.output sink.new) ⊎ PutsOut result (K.output sink.old) (Say (page_memory_text number) ∷ []) (K.output sink.new) }
    ensures causes { SinkCauses result (K.faults sink.old) (K.faults sink.new) }
{
    let Ok(file) = live.page_file(number) else {
        let line = page_memory_line(alloc, number)?;
        return say(sink, line.as_slice());
    };
    let head = page_head(alloc, number)?;
    match file {
        Some(file) => say_bytes(alloc, head.as_slice(), Some(file.as_slice()), sink),
        None => say_bytes(alloc, head.as_slice(), None, sink),
    }
}

/// Says what the page of a number brought to the transcript.
fn say_piece<M: Machine, K: Sink>(
    alloc: Global,
    number: u64,
    live: &Live<M>,
    sink: &mut K,
) -> Result<(), Trouble>
    ensures puts { PutsOut result (K.output sink.old) (Say (text_of_bytes log_head (piece_of (fresh M.formatter (now live.now)).ran.pieces number)) ∷ []) (K.output sink.new) }
    ensures causes { SinkCauses result (K.faults sink.old) (K.faults sink.new) }
{
    match live.piece(number) {
        Some(piece) => say_bytes(alloc, b"log: ", Some(piece.as_slice()), sink),
        None => say_bytes(alloc, b"log: ", None, sink),
    }
}

/// Carries out a request and answers it.
pub fn answer<M: Machine, K: Sink>(
    alloc: Global,
    request: &Request,
    live: &mut Live<M>,
    tally: &mut Tally,
    sink: &mut K,
    steps: &mut Steps,
) -> Result<(), Trouble>
    requires room { tally.old.edits + 1 < 2 ^ 64 }
    requires places_room { tally.old.places + 1 < 2 ^ 64 }
    ensures answers { Answers M.formatter request.now result (sitting live.old tally.old) (sitting live.new tally.new) (K.output sink.old) (K.output sink.new) steps.old steps.new }
    ensures edits { OnOk result (tally.new.edits ≤ tally.old.edits + 1) }
    ensures places { OnOk result (tally.new.places ≤ tally.old.places + 1) }
    ensures causes { SinkCauses result (K.faults sink.old) (K.faults sink.new) }
{
    match request {
        Request::Command(command) => carry_out(alloc, command, live, tally, sink, steps),
        Request::File(file) => put_contents(alloc, file, live, tally, sink, steps),
        Request::Page(number) => say_page(alloc, *number, live, sink),
        Request::Log => say_bytes(alloc, b"log: ", Some(live.said()), sink),
        Request::LogOf(number) => say_piece(alloc, *number, live, sink),
    }
}
