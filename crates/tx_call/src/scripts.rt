//! The script is fetched and read.
ghost use Rattle.std.specs.Prelude.{◌≡◌, Some, IfOk};
ghost use Rattle.tx_call.specs.Scripts.{IsReading, ReadsFile, Reads};
ghost use Rattle.tx_call.specs.declared.scripted.Scripted.{Scripted};
ghost use Rattle.tx_call.specs.Trouble.{SourceCauses};

use crate::scripted::Scripted;
use crate::trouble::Trouble;
use std::alloc::{AllocError, Global};
use tx_files::Name;
use tx_io::{Fetched, Source};
use tx_script::{Rule, Script, ScriptError, read_script};

/// Reads the bytes of a script's file whole.
fn read_bytes(alloc: Global, bytes: &[u8]) -> Result<Scripted, AllocError>
    ensures reading { IfOk result (λ scripted. IsReading (Some bytes.now) scripted) }
    ensures only { IfOk result (λ scripted. (other : Scripted) → IsReading (Some bytes.now) other → other ≡ scripted) }
{
    match read_script(alloc, bytes) {
        Ok(script) => Ok(Scripted::Plays(script)),
        Err(ScriptError::BadScript { place, rule }) => Ok(Scripted::Refused { place, rule }),
        Err(ScriptError::OutOfMemory) => Err(AllocError),
    }
}

/// Fetches the file of this name and reads it as a script.
fn fetch_named<S: Source>(alloc: Global, name: &Name, source: &mut S) -> Result<Scripted, Trouble>
    ensures read { IfOk result (λ scripted. ReadsFile (S.holds source.old) name.now scripted) }
    ensures causes { SourceCauses result (S.faults source.old) (S.faults source.new) }
    ensures holds { S.holds source.new ≡ S.holds source.old }
{
    match source.fetch(alloc, name.as_slice()) {
        Fetched::Found(bytes) => Ok(read_bytes(alloc, bytes.as_slice())?),
        Fetched::Absent => Ok(Scripted::Refused {
            place: 0,
            rule: Rule::File,
        }),
        Fetched::Failed => Err(Trouble::Source),
        Fetched::OutOfMemory => Err(Trouble::Memory),
    }
}

/// Fetches the script of this name and reads it; where there is no name, there are no commands.
pub fn fetch_script<S: Source>(
    alloc: Global,
    script: &Option<Name>,
    source: &mut S,
) -> Result<Scripted, Trouble>
    ensures read { IfOk result (λ scripted. Reads (S.holds source.old) script.now scripted) }
    ensures causes { SourceCauses result (S.faults source.old) (S.faults source.new) }
    ensures holds { S.holds source.new ≡ S.holds source.old }
{
    match script {
        None => Ok(Scripted::Plays(Script::new(alloc))),
        Some(name) => fetch_named(alloc, name, source),
    }
}
