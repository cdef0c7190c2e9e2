//! What is worth knowing of a call, however it ended.
use crate::around::{Around, fetched};
use crate::run::text_of;
use crate::telling::Line;
use std::alloc::{AllocError, Global};
use std::rt::Files;
use tx_bytes::Bytes;
use tx_files::{Name, NextLine, line_count, next_line};

/// How many boxes a transcript reports that are set badly, and in which way.
#[derive(Clone, Copy)]
struct BadBoxes {
    overfull: u64,
    underfull: u64,
    loose: u64,
    tight: u64,
}

/// Counts one more where a line begins with a word.
fn count(number: u64, line: &[u8], word: &[u8]) -> u64 {
    if line.starts_with(word) {
        number.saturating_add(1)
    } else {
        number
    }
}

/// The same with what a line of the transcript reports.
fn counted(boxes: BadBoxes, line: &[u8]) -> BadBoxes {
    BadBoxes {
        overfull: count(boxes.overfull, line, b"overfull "),
        underfull: count(boxes.underfull, line, b"underfull "),
        loose: count(boxes.loose, line, b"loose "),
        tight: count(boxes.tight, line, b"tight "),
    }
}

fn bad_boxes(transcript: &[u8]) -> BadBoxes {
    let mut boxes = BadBoxes {
        overfull: 0,
        underfull: 0,
        loose: 0,
        tight: 0,
    };
    let mut from = 0;
    for _ in 0..line_count(transcript) {
        match next_line(transcript, from) {
            NextLine::Line { end, has_lf: _ } => {
                boxes = counted(boxes, &transcript[from as usize..end as usize]);
                from = end;
            }
            NextLine::End => return boxes,
        }
    }
    boxes
}

/// What stands before a number behind this text.
fn before_number(text: &str) -> &'static str {
    if text.is_empty() { "bad boxes: " } else { ", " }
}

/// Writes how many there are of one kind, if any are.
fn write_kind(text: &mut String, number: u64, kind: &str) -> Result<(), AllocError> {
    if number == 0 {
        return Ok(());
    }
    let before = before_number(text.as_str());
    write!(text, "{before}{number} {kind}")
}

/// Writes how many boxes a transcript reports, if it does any.
fn write_boxes(text: &mut String, boxes: BadBoxes, name: &str) -> Result<(), AllocError> {
    write_kind(text, boxes.overfull, "overfull")?;
    write_kind(text, boxes.underfull, "underfull")?;
    write_kind(text, boxes.loose, "loose")?;
    write_kind(text, boxes.tight, "tight")?;
    if text.is_empty() {
        return Ok(());
    }
    write!(text, "; {name} has them")
}

fn boxes_text(alloc: Global, transcript: &[u8], name: &str) -> Result<String, AllocError> {
    let mut text = String::new(alloc);
    write_boxes(&mut text, bad_boxes(transcript), name)?;
    Ok(text)
}

/// Adds how many boxes a transcript reports, if it does any.
fn append_counts(
    alloc: Global,
    lines: &mut Vec<Line>,
    transcript: &[u8],
    name: &str,
) -> Result<(), AllocError> {
    let text = boxes_text(alloc, transcript, name)?;
    if !text.is_empty() {
        lines.push(Line::Cause(text))?;
    }
    Ok(())
}

/// A transcript that was saved, read once more.
fn transcript<R: Files>(alloc: Global, around: &Around<'_, R>, saved: &Bytes) -> Option<Bytes> {
    let name = Name::new(saved.clone().ok()?)?;
    fetched(alloc, around, &name)
}

/// Adds how many boxes the transcript of this name reports that are set badly.
fn append_boxes<R: Files>(
    alloc: Global,
    lines: &mut Vec<Line>,
    around: &Around<'_, R>,
    name: &Bytes,
) -> Result<(), AllocError> {
    match transcript(alloc, around, name) {
        Some(bytes) => append_counts(alloc, lines, bytes.as_slice(), text_of(name.as_slice())),
        None => Ok(()),
    }
}

/// Whether the file before the last one that was saved is the DVI file of this name.
fn is_before_last(saved: &[Bytes], name: &str) -> bool {
    let count = saved.len();
    count > 1 && text_of(saved[count - 2].as_slice()) == name
}

fn is_file<R: Files>(rt: &R, place: &str) -> bool {
    match rt.metadata(place) {
        Ok(found) => found.is_file(),
        Err(_) => false,
    }
}

fn older_text(alloc: Global, dvi: &str) -> Result<String, AllocError> {
    format!(in alloc; "{dvi}: the run has no page, and this file is of an earlier one")
}

/// Adds that a DVI file stands from before, where the last transcript was saved without one, since the run had no page.
fn append_older<R: Files>(
    alloc: Global,
    lines: &mut Vec<Line>,
    rt: &R,
    saved: &[Bytes],
    name: &str,
) -> Result<(), AllocError> {
    let dvi = format!(in alloc; "{name}.dvi")?;
    if is_before_last(saved, dvi.as_str()) || !is_file(rt, dvi.as_str()) {
        return Ok(());
    }
    lines.push(Line::Cause(older_text(alloc, dvi.as_str())?))?;
    Ok(())
}

/// Adds what is worth knowing of the document that was saved last: whether its DVI file is an older one and, where standard error is
/// a terminal, how many boxes are set badly.
fn append_saved<R: Files>(
    alloc: Global,
    lines: &mut Vec<Line>,
    around: &Around<'_, R>,
    saved: &[Bytes],
) -> Result<(), AllocError> {
    let Some(last) = saved.last() else {
        return Ok(());
    };
    let Some(name) = text_of(last.as_slice()).strip_suffix(".log") else {
        return Ok(());
    };
    append_older(alloc, lines, around.rt, saved, name)?;
    if around.is_terminal {
        return append_boxes(alloc, lines, around, last);
    }
    Ok(())
}

/// Adds what is worth knowing of a call, by what was said and by the names of what was saved.
pub fn append_notes<R: Files>(
    alloc: Global,
    lines: &mut Vec<Line>,
    around: &Around<'_, R>,
    said: &str,
    saved: &[Bytes],
) -> Result<(), AllocError> {
    // (as many pages as a run makes where it isn't told otherwise)
    if said.starts_with("gen: 1000 pages") {
        let text = String::from_str(
            alloc,
            "book.tex: a run of it ends by the limit of 1000 pages; --pages 1001 raises that",
        )?;
        lines.push(Line::Cause(text))?;
    }
    append_saved(alloc, lines, around, saved)
}
