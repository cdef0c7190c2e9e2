//! Cases of sessions over line_machine, worked out by hand: a run takes a turn to open a file, one for each line, one for
//! each page, each space at a line's beginning, each line that leads to another file or back, and one to stop; an edit takes
//! those of the pages that it formats alone.
use crate::documents::{main_name, put, set_of};
use crate::edits::{changes_of, edit_of};
use crate::runs::write_end;
use line_machine::LineMachine;
use std::alloc::{AllocError, Global};
use tx_cases::{first_line, first_word};
use tx_files::Edit;
use tx_machine::{Date, Limits, Steps};
use tx_session::{Refusal, Report, Session};

const DATE: Date = Date {
    year: 2026,
    month: 2,
    day: 28,
    minutes: 1439,
};

const LIMITS: Limits = Limits {
    budget: 100,
    pages: 10,
    keep: 1,
};

/// Writes what there is of the document of the first line, with the name and the text of another file behind `edited`, or with
/// none, and after each edit or batch of the lines behind it: what it is answered, the pages, the transcript, the end, the size
/// of the DVI file, and the turns so far. Behind `replayed` all edits are made at once, those that fit, and it is what there is
/// then.
pub fn write_answer(
    alloc: Global,
    text: &mut String,
    word: &str,
    rest: &str,
    lines: &str,
    steps: &mut Steps,
) -> Result<(), AllocError> {
    let (document, edits) = first_line(lines);
    let mut session = opened(alloc, rest, document, steps)?;
    write_played(alloc, text, &mut session, word, edits, steps)
}

/// A document of its main file's text and, where `more` isn't empty, the name and the text of another file, opened.
fn opened(
    alloc: Global,
    more: &str,
    document: &str,
    steps: &mut Steps,
) -> Result<Session<LineMachine>, AllocError> {
    let main = main_name(alloc)?;
    let mut files = set_of(alloc, "main", document)?;
    let (name, text) = first_word(more);
    put(alloc, &mut files, name, text)?;
    Session::open(alloc, LineMachine, files, main, DATE, LIMITS, steps)
}

fn write_played(
    alloc: Global,
    text: &mut String,
    session: &mut Session<LineMachine>,
    word: &str,
    edits: &str,
    steps: &mut Steps,
) -> Result<(), AllocError> {
    if word == "replayed" {
        let list = edits_of(alloc, edits)?;
        session.replay(list.as_slice(), steps)?;
        return write_all(text, session, steps);
    }
    write_all(text, session, steps)?;
    for line in edits.split('\n') {
        write_edit(alloc, text, session, line, steps)?;
    }
    Ok(())
}

fn write_bytes(text: &mut String, bytes: &[u8]) -> Result<(), AllocError> {
    for byte in bytes {
        text.push(char::from(*byte))?;
    }
    text.push(' ')
}

fn write_pages(text: &mut String, session: &Session<LineMachine>) -> Result<(), AllocError> {
    for page in 0..session.pages() {
        write_bytes(text, session.body(page + 1))?;
    }
    Ok(())
}

/// The size of the DVI file.
fn file_size(session: &Session<LineMachine>) -> Result<usize, AllocError> {
    Ok(session.dvi()?.len())
}

/// The pages, the transcript, the end, the size of the DVI file, and the turns so far.
fn write_all(
    text: &mut String,
    session: &Session<LineMachine>,
    steps: &Steps,
) -> Result<(), AllocError> {
    write_pages(text, session)?;
    write_bytes(text, session.said())?;
    let size = file_size(session)?;
    write_end(text, session.end())?;
    write!(text, " {size} {steps:?}\n")
}

/// What an edit is answered.
fn write_reply(text: &mut String, reply: Result<Report, Refusal>) -> Result<(), AllocError> {
    match reply {
        Ok(
            Report {
                pages,
                resumed,
                formatted,
                reused,
            },
        ) => write!(text, "{pages} = {resumed} + {formatted} + {reused}: "),
        Err(Refusal::Outside { len }) => write!(text, "outside {len}: "),
        Err(Refusal::BatchOutside { index, len }) => {
            write!(text, "change {index} outside {len}: ")
        }
        Err(Refusal::OutOfMemory) => Err(AllocError),
    }
}

/// The edit of a line with its place in `main`, how many bytes it takes out, and what it puts in; or the same behind the name of
/// another file.
fn edit(alloc: Global, line: &str) -> Result<Edit, AllocError> {
    let (word, rest) = first_word(line);
    if word.parse::<u64>().is_ok() {
        return edit_in(alloc, "main", line);
    }
    edit_in(alloc, word, rest)
}

fn edit_in(alloc: Global, name: &str, line: &str) -> Result<Edit, AllocError> {
    let (place, rest) = first_word(line);
    let (removed, put) = first_word(rest);
    let (place, removed) = (place.parse().unwrap_or(0), removed.parse().unwrap_or(0));
    match edit_of(alloc, name, place, removed, put)? {
        Some(e) => Ok(e),
        None => Err(AllocError),
    }
}

/// What the edit of a line is answered, or what `batch` and changes are, between which bars stand; and what there is then.
fn write_edit(
    alloc: Global,
    text: &mut String,
    session: &mut Session<LineMachine>,
    line: &str,
    steps: &mut Steps,
) -> Result<(), AllocError> {
    if let Some(rest) = line.strip_prefix("batch ") {
        let changes = changes_of(alloc, rest)?;
        write_reply(text, session.batch(changes.as_slice(), steps))?;
    } else {
        let e = edit(alloc, line)?;
        write_reply(text, session.edit(&e, steps))?;
    }
    write_all(text, session, steps)
}

fn edits_of(alloc: Global, edits: &str) -> Result<Vec<Edit>, AllocError> {
    let mut list = Vec::new(alloc);
    for line in edits.split('\n') {
        list.push(edit(alloc, line)?)?;
    }
    Ok(list)
}
