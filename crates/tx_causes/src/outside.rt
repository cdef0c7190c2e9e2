//! Which edits went past the end of their file, and how long that was.
use crate::run::text_of;
use crate::telling::Line;
use std::alloc::{AllocError, Global};
use std::slice;
use tx_files::{Change, Edit};
use tx_script::{Command, Script, read_script};

/// An edit that lay outside, as its line says: its number, which of its changes it was if it is a batch, and how long the file is.
#[derive(Clone, Copy)]
struct Outside<'a> {
    number: u64,
    index: Option<u64>,
    len: &'a str,
}

/// How long the file is, as the end of a line says.
fn len_of(behind: &str) -> Option<&str> {
    behind
        .strip_prefix("outside, file has ")?
        .strip_suffix(" bytes")
}

fn read_outside(line: &str) -> Option<Outside<'_>> {
    let (number, behind) = line.strip_prefix("edit ")?.split_once(": ")?;
    let number = number.parse().ok()?;
    match behind.strip_prefix("change ") {
        None => Some(Outside {
            number,
            index: None,
            len: len_of(behind)?,
        }),
        Some(rest) => {
            let (index, behind) = rest.split_once(" ")?;
            Some(Outside {
                number,
                index: Some(index.parse().ok()?),
                len: len_of(behind)?,
            })
        }
    }
}

/// The changes of a command; None where it makes none.
pub fn changes_in(command: &Command) -> Option<&[Change]> {
    match command {
        Command::Change(change) => Some(slice::from_ref(change)),
        Command::Batch(changes) => Some(changes.as_slice()),
        Command::Save(_) | Command::Locate(_) => None,
    }
}

/// The changes of the edit of this number among the commands of a script, counted from 1.
fn changes_of(commands: &[Command], number: u64) -> Option<&[Change]> {
    let mut left = number;
    for command in commands {
        if let Some(changes) = changes_in(command) {
            left = left.checked_sub(1)?;
            if left == 0 {
                return Some(changes);
            }
        }
    }
    None
}

/// What lay outside.
fn edit_of<'a>(commands: &'a [Command], it: Outside<'_>) -> Option<&'a Edit> {
    let at = it.index.unwrap_or(1).checked_sub(1)?;
    match changes_of(commands, it.number)?.get(at as usize)? {
        Change::Edit(edit) => Some(edit),
        Change::Remove(_) => None,
    }
}

/// Writes what it was, as a line begins.
fn write_named(text: &mut String, number: u64, index: Option<u64>) -> Result<(), AllocError> {
    match index {
        None => write!(text, "edit {number}: it"),
        Some(index) => write!(text, "edit {number}: its change {index}"),
    }
}

/// Writes which bytes of its file, which has so many, an edit takes.
fn write_bytes(text: &mut String, edit: &Edit, len: &str) -> Result<(), AllocError> {
    let (name, place) = (text_of(edit.name.as_slice()), edit.place);
    let end = place.saturating_add(edit.removed);
    write!(
        text,
        " takes bytes {place} to {end} of {name}, which has {len}"
    )
}

fn write_line(text: &mut String, edit: Option<&Edit>, it: Outside<'_>) -> Result<(), AllocError> {
    write_named(text, it.number, it.index)?;
    match edit {
        Some(edit) => write_bytes(text, edit, it.len),
        None => write!(
            text,
            " goes past the end of its file, which has {} bytes",
            it.len
        ),
    }
}

fn line_of(alloc: Global, edit: Option<&Edit>, it: Outside<'_>) -> Result<String, AllocError> {
    let mut text = String::new(alloc);
    write_line(&mut text, edit, it)?;
    Ok(text)
}

fn append_lines(
    alloc: Global,
    lines: &mut Vec<Line>,
    said: &str,
    commands: &[Command],
) -> Result<(), AllocError> {
    for line in said.lines() {
        if let Some(it) = read_outside(line) {
            lines.push(Line::Cause(line_of(alloc, edit_of(commands, it), it)?))?;
        }
    }
    Ok(())
}

/// Adds a line for each edit that lay outside its file, by what was said and by the script's bytes.
pub fn append_outside_causes(
    alloc: Global,
    lines: &mut Vec<Line>,
    said: &str,
    bytes: &[u8],
) -> Result<(), AllocError> {
    let script = read_script(alloc, bytes).unwrap_or(Script::new(alloc));
    append_lines(alloc, lines, said, script.as_slice())
}
