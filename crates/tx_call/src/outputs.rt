//! What is put out of a document: its DVI file and its transcript.
ghost use Rattle.std.specs.Prelude.{◌∷◌, ◌++◌, [], length};
ghost use Rattle.tx_io.specs.Output.{Say, Save};
ghost use Rattle.tx_checkpoint.specs.Locate.{located};
ghost use Rattle.tx_session.specs.Held.{fresh, rows_of};
ghost use Rattle.tx_session.specs.Standing.{now};
ghost use Rattle.tx_call.specs.Lines.{locate_line as located_line};
ghost use Rattle.tx_call.specs.Outcome.{first_piece};
ghost use Rattle.tx_call.specs.Pieces.{dvi_pieces, saved_pieces};
ghost use Rattle.tx_call.specs.Trouble.{PutsOut, SinkCauses};

use crate::lines::{locate_line, run_line};
use crate::parts::{Part, joined};
use crate::trouble::Trouble;
use std::alloc::Global;
use tx_files::Name;
use tx_io::{Put, Sink};
use tx_machine::Machine;
use tx_script::FilePlace;
use tx_session::Document;

/// Says a text.
pub fn say<K: Sink>(sink: &mut K, text: &[u8]) -> Result<(), Trouble>
    ensures puts { PutsOut result (K.output sink.old) (Say text.now ∷ []) (K.output sink.new) }
    ensures causes { SinkCauses result (K.faults sink.old) (K.faults sink.new) }
{
    match sink.say(text) {
        Put::Done => Ok(()),
        Put::Failed => Err(Trouble::Sink),
        Put::OutOfMemory => Err(Trouble::Memory),
    }
}

/// Saves a file under a name.
pub fn save<K: Sink>(sink: &mut K, name: &[u8], bytes: &[u8]) -> Result<(), Trouble>
    ensures puts { PutsOut result (K.output sink.old) (Save name.now bytes.now ∷ []) (K.output sink.new) }
    ensures causes { SinkCauses result (K.faults sink.old) (K.faults sink.new) }
{
    match sink.save(name, bytes) {
        Put::Done => Ok(()),
        Put::Failed => Err(Trouble::Sink),
        Put::OutOfMemory => Err(Trouble::Memory),
    }
}

/// Saves a file under a name with a suffix behind it, as `a.dvi`.
fn save_as<K: Sink>(
    alloc: Global,
    name: &Name,
    suffix: &[u8],
    bytes: &[u8],
    sink: &mut K,
) -> Result<(), Trouble>
    ensures puts { PutsOut result (K.output sink.old) (Save (name.now ++ suffix.now) bytes.now ∷ []) (K.output sink.new) }
    ensures causes { SinkCauses result (K.faults sink.old) (K.faults sink.new) }
{
    let name = joined(alloc, &[Part::Text(name.as_slice()), Part::Text(suffix)])?;
    save(sink, name.as_slice(), bytes)
}

/// Saves the pages of a document as `NAME.dvi`, if there is one.
fn save_pages<M: Machine, D: Document<M>, K: Sink>(
    alloc: Global,
    name: &Name,
    document: &D,
    sink: &mut K,
) -> Result<(), Trouble>
    ensures puts { PutsOut result (K.output sink.old) (dvi_pieces name.now (fresh M.formatter (now (D.standing document.now))).ran.pages) (K.output sink.new) }
    ensures causes { SinkCauses result (K.faults sink.old) (K.faults sink.new) }
{
    if document.pages() == 0 {
        return Ok(());
    }
    let file = document.dvi()?;
    save_as(alloc, name, b".dvi", file.as_slice(), sink)
}

/// Saves the pages of a document under a name, and its transcript as `NAME.log`, also where it is empty.
pub fn save_document<M: Machine, D: Document<M>, K: Sink>(
    alloc: Global,
    name: &Name,
    document: &D,
    sink: &mut K,
) -> Result<(), Trouble>
    ensures puts { PutsOut result (K.output sink.old) (saved_pieces name.now (fresh M.formatter (now (D.standing document.now))).ran) (K.output sink.new) }
    ensures causes { SinkCauses result (K.faults sink.old) (K.faults sink.new) }
{
    save_pages::<M, D, K>(alloc, name, document, sink)?;
    save_as(alloc, name, b".log", document.said(), sink)
}

/// Says how many pages a document has that was opened, and how its run ended.
pub fn say_run<M: Machine, D: Document<M>, K: Sink>(
    alloc: Global,
    document: &D,
    sink: &mut K,
) -> Result<(), Trouble>
    ensures puts { PutsOut result (K.output sink.old) (first_piece (fresh M.formatter (now (D.standing document.now))).ran ∷ []) (K.output sink.new) }
    ensures causes { SinkCauses result (K.faults sink.old) (K.faults sink.new) }
{
    let line = run_line(alloc, document.pages() as u64, document.end())?;
    say(sink, line.as_slice())
}

/// Says by which page a place of a file is first read; it is the one of this number that is asked for.
pub fn say_located<M: Machine, D: Document<M>, K: Sink>(
    alloc: Global,
    number: u64,
    at: &FilePlace,
    document: &D,
    sink: &mut K,
) -> Result<(), Trouble>
    ensures puts { PutsOut result (K.output sink.old) (Say (located_line number (length (fresh M.formatter (now (D.standing document.now))).ran.pages) (located (rows_of M.formatter (now (D.standing document.now))) at.now.name at.now.place)) ∷ []) (K.output sink.new) }
    ensures causes { SinkCauses result (K.faults sink.old) (K.faults sink.new) }
{
    let found = document.locate(&at.name, at.place);
    let line = locate_line(alloc, number, document.pages() as u64, found)?;
    say(sink, line.as_slice())
}
