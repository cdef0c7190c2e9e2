//! The files that the words list are fetched.
ghost use Rattle.std.specs.Prelude.{◌≡◌, OnOk, IfOk, true};
ghost use Rattle.std.specs.FinMap.{empty};
ghost use Rattle.tx_call.specs.Outcome.{with_listed, ForHeld};
ghost use Rattle.tx_call.specs.Fetching.{Fetches};
ghost use Rattle.tx_call.specs.Trouble.{SourceCauses};
ghost use Rattle.tx_words.specs.Values.{are_distinct};

use crate::trouble::Trouble;
use std::alloc::Global;
use tx_files::{FileSet, Name};
use tx_io::{Fetched, Source};

/// Fetches the file of this name into the set. An absent one stays absent.
fn fetch_into<S: Source>(
    alloc: Global,
    name: &Name,
    files: &mut FileSet,
    source: &mut S,
) -> Result<(), Trouble>
    ensures fetched { OnOk result (Fetches (S.holds source.old) files.old name.now files.new) }
    ensures causes { SourceCauses result (S.faults source.old) (S.faults source.new) }
    ensures holds { S.holds source.new ≡ S.holds source.old }
{
    match source.fetch(alloc, name.as_slice()) {
        Fetched::Found(bytes) => {
            files.put(name.clone()?, bytes)?;
            Ok(())
        }
        Fetched::Absent => Ok(()),
        Fetched::Failed => Err(Trouble::Source),
        Fetched::OutOfMemory => Err(Trouble::Memory),
    }
}

/// The files of these names, fetched in order, each one that there is.
pub fn fetch_files<S: Source>(
    alloc: Global,
    names: &[Name],
    source: &mut S,
) -> Result<FileSet, Trouble>
    requires { are_distinct names.now ≡ true }
    ensures files { IfOk result (λ files. ForHeld (S.holds source.old) (λ held. files ≡ with_listed held empty names.now)) }
    ensures causes { SourceCauses result (S.faults source.old) (S.faults source.new) }
    ensures holds { S.holds source.new ≡ S.holds source.old }
{
    let mut files = FileSet::new(alloc);
    for name in names {
        fetch_into(alloc, name, &mut files, source)?;
    }
    Ok(files)
}
