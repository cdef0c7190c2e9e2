//! The second look, at what a call did.
use std::alloc::{AllocError, Global};
use std::rt::Files;
use tx_causes::around::Around;
use tx_causes::causes::{
    end_causes, memory_causes, one, refused_dvi, refused_script, unread_cause, unsaved_cause,
    with_notes,
};
use tx_causes::refusals::words_cause;
use tx_causes::run::Run;
use tx_causes::telling::Line;
use tx_io::{DirSink, DirSource, FilesRead};
use tx_words::command::command_line;
use tx_words::given::{Asked, Given};
use tx_words::words::read_words;

fn run_of(given: &Given) -> Run<'_> {
    Run {
        main: &given.main,
        files: given.files.as_slice(),
        script: given.script.as_ref(),
        budget: given.limits.budget,
    }
}

/// Why nothing was run: the words of a run had a script that was refused, those of a list a DVI file that was, and any others
/// are no words of a call.
fn refusal_cause<R: Files>(
    alloc: Global,
    words: &[String],
    said: &[u8],
    around: &Around<'_, R>,
) -> Result<String, AllocError> {
    match read_words(alloc, words)? {
        Asked::Run(given) => return refused_script(alloc, &run_of(&given), said, around),
        Asked::Listing(name) => return refused_dvi(alloc, &name, said),
        _ => {}
    }
    match command_line(alloc)?.try_get_matches_from(words) {
        Ok(matches) => words_cause(alloc, words, Ok(&matches)),
        Err(error) => words_cause(alloc, words, Err(&error)),
    }
}

/// What there is to tell of a run that is all done.
fn done_causes<R: Files>(
    alloc: Global,
    words: &[String],
    is_bad: bool,
    said: &[u8],
    around: &Around<'_, R>,
    read: &FilesRead,
) -> Result<Vec<Line>, AllocError> {
    match read_words(alloc, words)? {
        Asked::Run(given) => end_causes(alloc, &run_of(&given), is_bad, said, around, read),
        _ => Ok(Vec::new(alloc)),
    }
}

/// Why a call ended with this status, in lines, and what else is worth knowing of it.
pub fn causes<R: Files + Print>(
    alloc: Global,
    status: u8,
    words: &[String],
    around: &Around<'_, R>,
    source: &DirSource<'_, R>,
    sink: &DirSink<'_, R>,
    read: &FilesRead,
) -> Result<Vec<Line>, AllocError> {
    match status {
        0 => Ok(with_notes(alloc, Vec::new(alloc), around, sink)),
        1 | 5 => {
            let lines = done_causes(alloc, words, status == 1, sink.said(), around, read)?;
            Ok(with_notes(alloc, lines, around, sink))
        }
        2 => one(alloc, refusal_cause(alloc, words, sink.said(), around)?),
        3 => unread_cause(alloc, source),
        4 => unsaved_cause(alloc, sink),
        _ => memory_causes(alloc, source, sink),
    }
}
