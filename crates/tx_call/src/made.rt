//! What is put out of a document that was made.
ghost use Rattle.std.specs.Prelude.{◌∷◌, ◌++◌, []};
ghost use Rattle.tx_io.specs.Output.{Say, Save};
ghost use Rattle.tx_call.specs.Lines.{gen_line};
ghost use Rattle.tx_call.specs.Pieces.{made_files};
ghost use Rattle.tx_call.specs.Trouble.{PutsOut, SinkCauses};

use crate::lines::gen_line;
use crate::outputs::{save, say};
use crate::trouble::Trouble;
use std::alloc::Global;
use tx_bytes::Bytes;
use tx_gen::Made;
use tx_io::Sink;

/// Saves bytes under a name.
fn save_bytes<K: Sink>(sink: &mut K, name: &[u8], bytes: &Bytes) -> Result<(), Trouble>
    ensures puts { PutsOut result (K.output sink.old) (Save name.now bytes.now ∷ []) (K.output sink.new) }
    ensures causes { SinkCauses result (K.faults sink.old) (K.faults sink.new) }
{
    save(sink, name, bytes.as_slice())
}

/// Saves the files of a document.
fn save_made<K: Sink>(made: &Made, sink: &mut K) -> Result<(), Trouble>
    ensures puts { PutsOut result (K.output sink.old) (made_files made.now) (K.output sink.new) }
    ensures causes { SinkCauses result (K.faults sink.old) (K.faults sink.new) }
{
    save_bytes(sink, b"book.tex", &made.book)?;
    save_bytes(sink, b"gen.tfm", &made.font)?;
    save_bytes(sink, b"gen.vtx", &made.script)
}

/// Saves the files of a document of so many pages, and says how large it is.
pub fn put_made<K: Sink>(
    alloc: Global,
    made: &Made,
    pages: u32,
    sink: &mut K,
) -> Result<(), Trouble>
    ensures puts { PutsOut result (K.output sink.old) (made_files made.now ++ Say (gen_line pages) ∷ []) (K.output sink.new) }
    ensures causes { SinkCauses result (K.faults sink.old) (K.faults sink.new) }
{
    let line = gen_line(alloc, u64::from(pages))?;
    save_made(made, sink)?;
    say(sink, line.as_slice())
}
