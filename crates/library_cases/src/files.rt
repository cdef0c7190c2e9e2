//! Cases of tx_files.
use crate::edits::changes_of;
use std::alloc::{AllocError, Global};
use std::slice;
use tx_bytes::Bytes;
use tx_cases::{bytes_of, first_word, write_bytes};
use tx_files::{
    BatchRefusal, Change, Edit, FileSet, Name, NextLine, Refusal, Seen, Sight, line_count,
    next_line, untouched,
};

/// Files, and what was seen of some.
#[derive(Drop)]
struct Desk {
    files: FileSet,
    seen: Seen,
}

/// `line FROM TEXT`, the line that begins there; `lines TEXT`, how many there are.
pub fn write_answer(
    alloc: Global,
    text: &mut String,
    word: &str,
    rest: &str,
) -> Result<(), AllocError> {
    match word {
        "line" => write_line(alloc, text, rest),
        "lines" => {
            let bytes = bytes_of(alloc, rest)?;
            write!(text, "{}", line_count(bytes.as_slice()))
        }
        _ => text.push_str("malformed"),
    }
}

fn write_line(alloc: Global, text: &mut String, rest: &str) -> Result<(), AllocError> {
    let (from, line) = first_word(rest);
    let Ok(from) = from.parse::<u64>() else {
        return text.push_str("malformed");
    };
    let bytes = bytes_of(alloc, line)?;
    match next_line(bytes.as_slice(), from) {
        NextLine::Line { end, has_lf: true } => write!(text, "to {end}"),
        NextLine::Line { end, has_lf: false } => write!(text, "to {end}, without line feed"),
        NextLine::End => text.push_str("end"),
    }
}

fn name_of(alloc: Global, text: &str) -> Result<Option<Name>, AllocError> {
    Ok(Name::new(bytes_of(alloc, text)?))
}

/// What becomes of files by lines of
///
/// - `put NAME TEXT`, which puts a file in; `show NAME`, its bytes;
/// - `edit NAME PLACE REMOVED TEXT`, which is made; `try NAME PLACE REMOVED TEXT`, which is made, shown and taken back;
/// - `sees NAME SIGHT`, which notes that so much of it was seen: `opened`, `absent`, `end`, `whole`, or where a line ended;
/// - `batch CHANGES`, between which bars stand, `NAME PLACE REMOVED TEXT` or, where the file is taken away, `NAME`;
/// - `leaves NAME PLACE`, whether an edit there leaves what was seen; `loses NAME`, whether it does to take the file away;
/// - `asked NAME`, whether it was asked for by its name.
pub fn write_play(alloc: Global, text: &mut String, lines: &str) -> Result<(), AllocError> {
    let mut desk = Desk {
        files: FileSet::new(alloc),
        seen: Seen::new(alloc),
    };
    write_steps(alloc, text, &mut desk, lines)
}

fn write_steps(
    alloc: Global,
    text: &mut String,
    desk: &mut Desk,
    lines: &str,
) -> Result<(), AllocError> {
    for line in lines.split('\n') {
        write_step(alloc, text, desk, line)?;
        text.push('\n')?;
    }
    Ok(())
}

fn write_step(
    alloc: Global,
    text: &mut String,
    desk: &mut Desk,
    line: &str,
) -> Result<(), AllocError> {
    let (word, rest) = first_word(line);
    if word == "batch" {
        return write_batch(alloc, text, &mut desk.files, rest);
    }
    let (name, rest) = first_word(rest);
    match name_of(alloc, name)? {
        Some(name) => write_act(alloc, text, desk, word, &name, rest),
        None => text.push_str("malformed"),
    }
}

fn write_act(
    alloc: Global,
    text: &mut String,
    desk: &mut Desk,
    word: &str,
    name: &Name,
    rest: &str,
) -> Result<(), AllocError> {
    match word {
        "put" => write_put(alloc, text, &mut desk.files, name, rest),
        "show" => write_file(text, desk.files.get(name.as_slice())),
        "edit" => write_edit(alloc, text, &mut desk.files, name, rest),
        "try" => write_try(alloc, text, &mut desk.files, name, rest),
        "sees" => write_noted(alloc, text, &mut desk.seen, name, rest),
        "leaves" => write_leaves(alloc, text, &desk.seen, name, rest),
        "loses" => write_left(text, &desk.seen, &Change::Remove(name.clone()?)),
        "asked" => write_asked(text, &desk.seen, name),
        _ => text.push_str("malformed"),
    }
}

fn write_put(
    alloc: Global,
    text: &mut String,
    files: &mut FileSet,
    name: &Name,
    rest: &str,
) -> Result<(), AllocError> {
    let bytes = bytes_of(alloc, rest)?;
    files.put(name.clone()?, bytes)?;
    text.push_str("put")
}

fn write_file(text: &mut String, file: Option<&Bytes>) -> Result<(), AllocError> {
    match file {
        Some(bytes) => write_bytes(text, bytes.as_slice()),
        None => text.push_str("absent"),
    }
}

/// The edit of this file that a text says.
fn edit_of(alloc: Global, name: &Name, rest: &str) -> Result<Option<Edit>, AllocError> {
    let (place, rest) = first_word(rest);
    let (removed, put) = first_word(rest);
    match (place.parse::<u64>(), removed.parse::<u64>()) {
        (Ok(place), Ok(removed)) => Ok(Some(edit_at(alloc, name, place, removed, put)?)),
        _ => Ok(None),
    }
}

fn edit_at(
    alloc: Global,
    name: &Name,
    place: u64,
    removed: u64,
    put: &str,
) -> Result<Edit, AllocError> {
    let put = bytes_of(alloc, put)?;
    let name = name.clone()?;
    Ok(Edit {
        name,
        place,
        removed,
        put,
    })
}

fn write_edit(
    alloc: Global,
    text: &mut String,
    files: &mut FileSet,
    name: &Name,
    rest: &str,
) -> Result<(), AllocError> {
    match edit_of(alloc, name, rest)? {
        Some(e) => write_made(text, files.apply(&e)),
        None => text.push_str("malformed"),
    }
}

fn write_made(text: &mut String, answer: Result<(), Refusal>) -> Result<(), AllocError> {
    match answer {
        Ok(()) => text.push_str("made"),
        Err(refusal) => write_refusal(text, refusal),
    }
}

fn write_refusal(text: &mut String, refusal: Refusal) -> Result<(), AllocError> {
    match refusal {
        Refusal::Outside { len } => write!(text, "outside {len}"),
        Refusal::OutOfMemory => Err(AllocError),
    }
}

fn write_batch(
    alloc: Global,
    text: &mut String,
    files: &mut FileSet,
    rest: &str,
) -> Result<(), AllocError> {
    let changes = changes_of(alloc, rest)?;
    match files.apply_all(changes.as_slice()) {
        Ok(()) => text.push_str("made"),
        Err(BatchRefusal::Outside { index, len }) => {
            write!(text, "change {index} outside {len}")
        }
        Err(BatchRefusal::OutOfMemory) => Err(AllocError),
    }
}

fn write_try(
    alloc: Global,
    text: &mut String,
    files: &mut FileSet,
    name: &Name,
    rest: &str,
) -> Result<(), AllocError> {
    match edit_of(alloc, name, rest)? {
        Some(e) => write_tried(text, files, &e),
        None => text.push_str("malformed"),
    }
}

fn write_tried(text: &mut String, files: &mut FileSet, e: &Edit) -> Result<(), AllocError> {
    match files.change(e) {
        Ok(undo) => {
            let written = write_bytes(text, files.bytes_of(e.name.as_slice()));
            files.restore(&e.name, undo);
            written
        }
        Err(refusal) => write_refusal(text, refusal),
    }
}

fn write_noted(
    alloc: Global,
    text: &mut String,
    seen: &mut Seen,
    name: &Name,
    rest: &str,
) -> Result<(), AllocError> {
    let sight = match rest {
        "opened" => Sight::Opened,
        "absent" => Sight::Absent,
        "end" => Sight::End,
        "whole" => Sight::Whole,
        _ => Sight::Line(rest.parse().unwrap_or(0)),
    };
    seen.note(alloc, name.as_slice(), sight)?;
    text.push_str("seen")
}

fn write_leaves(
    alloc: Global,
    text: &mut String,
    seen: &Seen,
    name: &Name,
    rest: &str,
) -> Result<(), AllocError> {
    match rest.parse::<u64>() {
        Ok(place) => {
            let e = edit_at(alloc, name, place, 0, "")?;
            write_left(text, seen, &Change::Edit(e))
        }
        Err(_) => text.push_str("malformed"),
    }
}

fn write_left(text: &mut String, seen: &Seen, change: &Change) -> Result<(), AllocError> {
    text.push_str(if untouched(seen, slice::from_ref(change)) {
        "left"
    } else {
        "touched"
    })
}

fn write_asked(text: &mut String, seen: &Seen, name: &Name) -> Result<(), AllocError> {
    match seen.get(name.as_slice()) {
        Some(reads) if reads.asked => text.push_str("by its name"),
        Some(_) => text.push_str("not by its name"),
        None => text.push_str("not seen"),
    }
}
