//! All that there is to tell of a call that ended badly.
use crate::around::{Around, fetched};
use crate::ends::{append_absent_causes, append_help, spot_of, write_end_cause};
use crate::faults::{write_put_cause, write_read_cause};
use crate::listings::write_dvi_cause;
use crate::memory::write_memory_cause;
use crate::notes::append_notes;
use crate::outside::append_outside_causes;
use crate::quotes::append_quote;
use crate::run::{Run, text_of};
use crate::scripts::write_script_cause;
use crate::telling::Line;
use std::alloc::{AllocError, Global};
use std::rt::Files;
use tx_files::Name;
use tx_io::{DirSink, DirSource, FilesRead};

/// A list of one cause.
pub fn one(alloc: Global, cause: String) -> Result<Vec<Line>, AllocError> {
    let mut lines = Vec::new(alloc);
    lines.push(Line::Cause(cause))?;
    Ok(lines)
}

/// Why the script of a run was refused; its bytes are looked at once more.
pub fn refused_script<R: Files>(
    alloc: Global,
    run: &Run<'_>,
    said: &[u8],
    around: &Around<'_, R>,
) -> Result<String, AllocError> {
    let mut text = String::new(alloc);
    write_refused(alloc, &mut text, run, text_of(said), around)?;
    Ok(text)
}

fn write_refused<R: Files>(
    alloc: Global,
    text: &mut String,
    run: &Run<'_>,
    said: &str,
    around: &Around<'_, R>,
) -> Result<(), AllocError> {
    let Some(name) = run.script else {
        return write_script_cause(text, "the script", said, None);
    };
    let shown = text_of(name.as_slice());
    match fetched(alloc, around, name) {
        Some(bytes) => write_script_cause(text, shown, said, Some(bytes.as_slice())),
        None => write_script_cause(text, shown, said, None),
    }
}

/// Why a DVI file was refused.
pub fn refused_dvi(alloc: Global, name: &Name, said: &[u8]) -> Result<String, AllocError> {
    let mut text = String::new(alloc);
    write_dvi_cause(&mut text, text_of(name.as_slice()), text_of(said))?;
    Ok(text)
}

/// Adds the edits that lay outside; the script is looked at once more.
fn append_outside<R: Files>(
    alloc: Global,
    lines: &mut Vec<Line>,
    run: &Run<'_>,
    said: &str,
    around: &Around<'_, R>,
) -> Result<(), AllocError> {
    let Some(name) = run.script else {
        return Ok(());
    };
    match fetched(alloc, around, name) {
        Some(bytes) => append_outside_causes(alloc, lines, said, bytes.as_slice()),
        None => append_outside_causes(alloc, lines, said, b""),
    }
}

/// Why the last run didn't end by \end.
fn end_cause(alloc: Global, run: &Run<'_>, said: &str) -> Result<String, AllocError> {
    let mut text = String::new(alloc);
    write_end_cause(&mut text, run, said)?;
    Ok(text)
}

/// Adds the line at which the last run ended by an error, if there is memory for it, and what would mend it.
fn append_spot<R: Files>(
    alloc: Global,
    lines: &mut Vec<Line>,
    run: &Run<'_>,
    said: &str,
    around: &Around<'_, R>,
    read: &FilesRead,
) -> Result<(), AllocError> {
    let Some((code, name, number)) = spot_of(said) else {
        return Ok(());
    };
    let _ = append_quote(alloc, lines, run, around, name, number);
    append_help(alloc, lines, run, code, read)
}

/// What there is to tell of a run that is all done: the edits that lay outside and, where the last run ended badly, why, and which
/// files it had to do without.
pub fn end_causes<R: Files>(
    alloc: Global,
    run: &Run<'_>,
    is_bad: bool,
    said: &[u8],
    around: &Around<'_, R>,
    read: &FilesRead,
) -> Result<Vec<Line>, AllocError> {
    let mut lines = Vec::new(alloc);
    append_end_causes(alloc, &mut lines, run, is_bad, text_of(said), around, read)?;
    Ok(lines)
}

fn append_end_causes<R: Files>(
    alloc: Global,
    lines: &mut Vec<Line>,
    run: &Run<'_>,
    is_bad: bool,
    said: &str,
    around: &Around<'_, R>,
    read: &FilesRead,
) -> Result<(), AllocError> {
    append_outside(alloc, lines, run, said, around)?;
    if !is_bad {
        return Ok(());
    }
    lines.push(Line::Cause(end_cause(alloc, run, said)?))?;
    append_spot(alloc, lines, run, said, around, read)?;
    append_absent_causes(alloc, lines, run, read)
}

/// These lines, and behind them what else is worth knowing of a call; what there is no memory for isn't told.
pub fn with_notes<R: Files + Print>(
    alloc: Global,
    mut lines: Vec<Line>,
    around: &Around<'_, R>,
    sink: &DirSink<'_, R>,
) -> Vec<Line> {
    let _ = append_notes(
        alloc,
        &mut lines,
        around,
        text_of(sink.said()),
        sink.saved(),
    );
    lines
}

/// Why a file couldn't be read.
pub fn unread_cause<R: Files>(
    alloc: Global,
    source: &DirSource<'_, R>,
) -> Result<Vec<Line>, AllocError> {
    let mut text = String::new(alloc);
    write_read_cause(&mut text, source.cause())?;
    one(alloc, text)
}

/// Why something couldn't be said or saved.
pub fn unsaved_cause<R: Files + Print>(
    alloc: Global,
    sink: &DirSink<'_, R>,
) -> Result<Vec<Line>, AllocError> {
    one(alloc, put_cause(alloc, sink)?)
}

fn put_cause<R: Files + Print>(alloc: Global, sink: &DirSink<'_, R>) -> Result<String, AllocError> {
    let mut text = String::new(alloc);
    write_put_cause(&mut text, sink.cause(), sink.saved())?;
    Ok(text)
}

/// What was being done where there was no memory left.
fn memory_cause<R: Files + Print>(
    alloc: Global,
    source: &DirSource<'_, R>,
    sink: &DirSink<'_, R>,
) -> Result<String, AllocError> {
    let mut text = String::new(alloc);
    write_memory_cause(&mut text, text_of(sink.said()), source.cause())?;
    Ok(text)
}

/// What was being done where there was no memory left, and what couldn't be put out after that.
pub fn memory_causes<R: Files + Print>(
    alloc: Global,
    source: &DirSource<'_, R>,
    sink: &DirSink<'_, R>,
) -> Result<Vec<Line>, AllocError> {
    let mut lines = Vec::new(alloc);
    append_memory_causes(alloc, &mut lines, source, sink)?;
    Ok(lines)
}

fn append_memory_causes<R: Files + Print>(
    alloc: Global,
    lines: &mut Vec<Line>,
    source: &DirSource<'_, R>,
    sink: &DirSink<'_, R>,
) -> Result<(), AllocError> {
    lines.push(Line::Cause(memory_cause(alloc, source, sink)?))?;
    if sink.cause().is_some() {
        lines.push(Line::Cause(put_cause(alloc, sink)?))?;
    }
    Ok(())
}
