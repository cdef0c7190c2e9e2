//! Cases of tx_checkpoint.
use crate::edits::edit_of;
use std::alloc::{AllocError, Global};
use std::slice;
use tx_bytes::Bytes;
use tx_cases::integers;
use tx_checkpoint::{Last, Row, Rows};
use tx_files::{Change, Seen, Sight};
use tx_machine::{End, Opens};

/// `resume PLACE LAST ROW ..`: writes the row at which formatting resumes after an edit at this place of a file, and whether
/// everything stands, where the rows read the file up to these places, and what comes after them up to LAST.
pub fn write_answer(alloc: Global, text: &mut String, rest: &str) -> Result<(), AllocError> {
    let numbers = integers(alloc, rest)?;
    match numbers.as_slice() {
        [place, last, ends @ ..] if 0 <= *place && 0 <= *last => {
            write_place(alloc, text, *place as u64, *last as u64, ends)
        }
        _ => text.push_str("malformed"),
    }
}

fn write_place(
    alloc: Global,
    text: &mut String,
    place: u64,
    last: u64,
    ends: &[i64],
) -> Result<(), AllocError> {
    let seen = seen_upto(alloc, last)?;
    let mut rows = no_rows(alloc, seen);
    write_filled(alloc, text, &mut rows, place, ends)
}

fn write_filled(
    alloc: Global,
    text: &mut String,
    rows: &mut Rows<u32>,
    place: u64,
    ends: &[i64],
) -> Result<(), AllocError> {
    for end in ends {
        rows.rows.push(row_upto(alloc, end.unsigned_abs())?)?;
    }
    match edit_of(alloc, "a.tex", place, 0, "")? {
        Some(e) => write_resumed(text, rows, &Change::Edit(e)),
        None => text.push_str("malformed"),
    }
}

fn write_resumed(text: &mut String, rows: &Rows<u32>, change: &Change) -> Result<(), AllocError> {
    let changes = slice::from_ref(change);
    let row = rows.resume_at(changes);
    write!(text, "{row}")?;
    if rows.stands(row, changes) {
        text.push_str(", all stands")?;
    }
    Ok(())
}

/// What was read of `a.tex` up to this place.
fn seen_upto(alloc: Global, place: u64) -> Result<Seen, AllocError> {
    let mut seen = Seen::new(alloc);
    seen.note(alloc, b"a.tex", Sight::Line(place))?;
    Ok(seen)
}

fn row_upto(alloc: Global, place: u64) -> Result<Row<u32>, AllocError> {
    let seen = seen_upto(alloc, place)?;
    Ok(Row {
        turns: 1,
        seen,
        opens: Opens::new(alloc),
        state: 0,
    })
}

/// No rows, and what comes after them, of which this was seen.
fn no_rows(alloc: Global, seen: Seen) -> Rows<u32> {
    Rows {
        pages: Vec::new(alloc),
        pieces: Vec::new(alloc),
        rows: Vec::new(alloc),
        last: Last {
            piece: Bytes::new(alloc),
            turns: 1,
            seen,
            opens: Opens::new(alloc),
            end: End::End,
        },
    }
}
