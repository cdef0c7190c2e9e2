//! Why a call that served a document ended badly. What was done was answered as it came, so only what ended the call is spoken of.
use crate::causes::one;
use crate::faults::{write_error, write_read_cause, write_unput_cause};
use crate::telling::Line;
use std::alloc::{AllocError, Global};
use std::io::{self, ErrorKind};
use std::rt::Files;
use tx_io::{Cause, DirSink, DirSource};

/// Why all was answered and yet not all went well.
pub fn served_cause(alloc: Global, is_bad: bool) -> Result<String, AllocError> {
    let mut text = String::new(alloc);
    text.push_str(if is_bad {
        "the last run didn't end by \\end, as its line says"
    } else {
        "an edit went past the end of its file, as its line says"
    })?;
    Ok(text)
}

/// Why what comes in couldn't be read.
pub fn input_cause(alloc: Global, error: &io::Error) -> Result<String, AllocError> {
    let mut text = String::new(alloc);
    text.push_str("standard input: ")?;
    write_error(&mut text, error)?;
    Ok(text)
}

/// Why an answer couldn't be said, or a file saved. Nothing is kept of those before it, which were told as they were saved.
pub fn answer_cause<R: Files + Print>(
    alloc: Global,
    sink: &DirSink<'_, R>,
) -> Result<String, AllocError> {
    let mut text = String::new(alloc);
    write_unput_cause(&mut text, sink.cause())?;
    Ok(text)
}

/// Whether an error is want of memory.
fn is_wanting(error: &io::Error) -> bool {
    matches!(error.kind(), ErrorKind::OutOfMemory)
}

/// What was being done where there was no memory left.
fn wanting_cause(alloc: Global, unread: Option<&Cause>) -> Result<String, AllocError> {
    let mut text = String::new(alloc);
    match unread {
        Some(cause) if is_wanting(&cause.error) => write_read_cause(&mut text, unread)?,
        _ => text.push_str(
            "no memory is left for the words, the files, the first run, a request or its answer",
        )?,
    }
    Ok(text)
}

/// The same, and what couldn't be put out for it.
pub fn wanting_causes<R: Files + Print>(
    alloc: Global,
    source: &DirSource<'_, R>,
    sink: &DirSink<'_, R>,
) -> Result<Vec<Line>, AllocError> {
    let mut lines = one(alloc, wanting_cause(alloc, source.cause())?)?;
    if sink.cause().is_some() {
        lines.push(Line::Cause(answer_cause(alloc, sink)?))?;
    }
    Ok(lines)
}
