//! The words of the command line, and the search path of the environment.
ghost use Rattle.std.specs.Prelude.{◌≡◌, ◌≢◌, [], IsErr, IsOkAnd, string_bytes};
ghost use Rattle.std.specs.IoError.{error_kind};

use std::alloc::{AllocError, Global};
use std::env::{self, VarError};
use std::io::{self, ErrorKind};
use std::rt::Env;

fn read_arguments<R: Env + AllocGlobal>(rt: &R) -> io::Result<Vec<String>> {
    Ok(env::args(rt)?.skip(1).collect(rt.alloc())?)
}

/// The words of a command line that couldn't be read: none, as where a word isn't UTF-8, unless memory was wanting.
fn words_after(alloc: Global, error: io::Error) -> Result<Vec<String>, AllocError>
    ensures wanting { error_kind error ≡ ErrorKind.OutOfMemory → IsErr result }
    ensures unreadable { error_kind error ≢ ErrorKind.OutOfMemory → IsOkAnd result (λ words. words.items ≡ []) }
{
    match error.kind() {
        ErrorKind::OutOfMemory => Err(AllocError),
        _ => Ok(Vec::new(alloc)),
    }
}

/// The words behind the program's name. Words that can't be read are no words.
pub fn arguments<R: Env + AllocGlobal>(rt: &R) -> Result<Vec<String>, AllocError> {
    match read_arguments(rt) {
        Ok(words) => Ok(words),
        Err(error) => words_after(rt.alloc(), error),
    }
}

/// Whether no words stand for words that can't be read.
pub fn are_text<R: Env + AllocGlobal>(rt: &R, words: &[String]) -> bool {
    !words.is_empty() || read_arguments(rt).is_ok()
}

/// The search path where none can be read: an empty one, as where there is none or it isn't UTF-8, unless memory was wanting.
fn path_after(alloc: Global, error: VarError) -> Result<String, AllocError>
    ensures wanting { error ≡ VarError.OutOfMemory → IsErr result }
    ensures unreadable { error ≢ VarError.OutOfMemory → IsOkAnd result (λ path. string_bytes path ≡ []) }
{
    match error {
        VarError::OutOfMemory => Err(AllocError),
        VarError::NotPresent | VarError::NotUnicode => Ok(String::new(alloc)),
    }
}

/// The folders behind the current one in which files are looked for, with colons between them: what `VORTEX_PATH` says.
pub fn search_path<R: Env + AllocGlobal>(rt: &R) -> Result<String, AllocError> {
    match env::var(rt, "VORTEX_PATH") {
        Ok(path) => Ok(path),
        Err(error) => path_after(rt.alloc(), error),
    }
}
