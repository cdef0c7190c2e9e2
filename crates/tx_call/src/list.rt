//! A DVI file is fetched and read, and what it brings is said.
ghost use Rattle.std.specs.Prelude.{◌≡◌, ℕ, ◌∷◌, [], Some, IfOk};
ghost use Rattle.tx_io.specs.Output.{Say};
ghost use Rattle.tx_call.specs.Listing.{IsListed, ReadsDvi, listed_as, said_lines};
ghost use Rattle.tx_call.specs.Outcome.{listing};
ghost use Rattle.tx_call.specs.Trouble.{Does, EditCauses, PutsOut, SinkCauses, SourceCauses};
ghost use Rattle.tx_call.specs.declared.listed.Listed.TheVariants.{Brings};

use crate::listed::Listed;
use crate::listing::listing_lines;
use crate::outputs::say;
use crate::trouble::{Interruption, Trouble};
use std::alloc::{AllocError, Global};
use tx_bytes::Bytes;
use tx_dvitype::{DviError, DviRule, ReadPage, Reader};
use tx_files::Name;
use tx_io::{Fetched, Sink, Source};

/// Reads the bytes of a file as those of a DVI file.
fn read_dvi(alloc: Global, bytes: &[u8]) -> Result<Listed, AllocError>
    ensures read { IfOk result (λ listed. listed ≡ listed_as (Some bytes.now)) }
    ensures is { IfOk result (λ listed. IsListed (Some bytes.now) listed) }
{
    match Reader::read(alloc, bytes) {
        Ok(pages) => Ok(Listed::Brings(pages)),
        Err(DviError::BadDvi { place, rule }) => Ok(Listed::Stops { place, rule }),
        Err(DviError::OutOfMemory) => Err(AllocError),
    }
}

/// Fetches the file of this name and reads it as a DVI file.
pub fn fetch_dvi<S: Source>(alloc: Global, name: &Name, source: &mut S) -> Result<Listed, Trouble>
    ensures read { IfOk result (λ listed. ReadsDvi (S.holds source.old) name.now listed) }
    ensures causes { SourceCauses result (S.faults source.old) (S.faults source.new) }
    ensures holds { S.holds source.new ≡ S.holds source.old }
{
    match source.fetch(alloc, name.as_slice()) {
        Fetched::Found(bytes) => Ok(read_dvi(alloc, bytes.as_slice())?),
        Fetched::Absent => Ok(Listed::Stops {
            place: 0,
            rule: DviRule::File,
        }),
        Fetched::Failed => Err(Trouble::Source),
        Fetched::OutOfMemory => Err(Trouble::Memory),
    }
}

/// Says a line.
fn say_line<K: Sink>(sink: &mut K, line: &Bytes) -> Result<(), Trouble>
    ensures puts { PutsOut result (K.output sink.old) (Say line.now ∷ []) (K.output sink.new) }
    ensures causes { SinkCauses result (K.faults sink.old) (K.faults sink.new) }
{
    say(sink, line.as_slice())
}

/// Says lines, each by itself.
fn say_lines<K: Sink>(sink: &mut K, lines: &[Bytes]) -> Result<(), Trouble>
    ensures puts { PutsOut result (K.output sink.old) (said_lines lines.now) (K.output sink.new) }
    ensures causes { SinkCauses result (K.faults sink.old) (K.faults sink.new) }
{
    for line in lines {
        say_line(sink, line)?;
    }
    Ok(())
}

/// Says what pages bring, and answers the status.
pub fn say_pages<K: Sink>(
    alloc: Global,
    pages: &[ReadPage],
    sink: &mut K,
) -> Result<u8, Interruption>
    ensures does { (steps : ℕ) → Does result (listing (Brings pages.now)) (K.output sink.old) (K.output sink.new) steps steps }
    ensures status { IfOk result (λ status. status ≡ 0) }
    ensures causes { EditCauses result (K.faults sink.old) (K.faults sink.new) }
{
    let lines = listing_lines(alloc, pages)?;
    say_lines(sink, lines.as_slice())?;
    Ok(0)
}
