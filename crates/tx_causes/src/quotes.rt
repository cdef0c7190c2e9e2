//! The line of a file at which a run ended by an error.
use crate::around::{Around, fetched};
use crate::outside::changes_in;
use crate::run::Run;
use crate::telling::Line;
use std::alloc::{AllocError, Global};
use std::rt::Files;
use std::str;
use tx_bytes::Bytes;
use tx_files::{BatchRefusal, FileSet, Name, NextLine, next_line};
use tx_script::{Command, Script, read_script};

/// How many characters of a line are shown.
const WIDTH: usize = 72;

/// What stands for a character of a file.
fn printed(c: char) -> char {
    if c == '\t' { ' ' } else { c }
}

fn write_text(text: &mut String, line: &str) -> Result<(), AllocError> {
    let mut left = WIDTH;
    for c in line.chars() {
        if left == 0 {
            return text.push_str(" ..");
        }
        left -= 1;
        text.push(printed(c))?;
    }
    Ok(())
}

/// The same of a line that isn't UTF-8.
fn write_bytes(text: &mut String, line: &[u8]) -> Result<(), AllocError> {
    let mut left = WIDTH;
    for byte in line {
        if left == 0 {
            return text.push_str(" ..");
        }
        left -= 1;
        text.push(if *byte < 128 {
            printed(char::from(*byte))
        } else {
            '?'
        })?;
    }
    Ok(())
}

/// Writes as much of a line as is shown of it.
fn write_line(text: &mut String, line: &[u8]) -> Result<(), AllocError> {
    match str::from_utf8(line) {
        Ok(line) => write_text(text, line),
        Err(_) => write_bytes(text, line),
    }
}

/// The line that begins at a place, without the blanks at its end; an empty one where none does.
fn line_at(bytes: &[u8], from: u64) -> &[u8] {
    match next_line(bytes, from) {
        NextLine::Line { end, has_lf: _ } => {
            let line = &bytes[from as usize..end as usize];
            line.trim_ascii_end()
        }
        NextLine::End => &[],
    }
}

/// Where a line begins, by its number, counted from 1; the end of the bytes where they have no such line.
fn line_place(bytes: &[u8], number: u64) -> u64 {
    let mut from = 0;
    for _ in 1..number {
        match next_line(bytes, from) {
            NextLine::Line { end, has_lf: _ } => from = end,
            NextLine::End => return from,
        }
    }
    from
}

/// Writes a line of a file behind its number, and nothing where it is blank.
fn write_quote(text: &mut String, bytes: &[u8], number: u64) -> Result<(), AllocError> {
    let line = line_at(bytes, line_place(bytes, number));
    if line.is_empty() {
        return Ok(());
    }
    write!(text, "{number:>5} | ")?;
    write_line(text, line)
}

fn quote(alloc: Global, bytes: &[u8], number: u64) -> Result<String, AllocError> {
    let mut text = String::new(alloc);
    write_quote(&mut text, bytes, number)?;
    Ok(text)
}

/// Adds a line of a file, unless it is blank.
fn append_line(
    alloc: Global,
    lines: &mut Vec<Line>,
    bytes: &[u8],
    number: u64,
) -> Result<(), AllocError> {
    let text = quote(alloc, bytes, number)?;
    if !text.is_empty() {
        lines.push(Line::Below(text))?;
    }
    Ok(())
}

fn put(files: &mut FileSet, name: &Name, bytes: Option<Bytes>) -> Result<(), AllocError> {
    match bytes {
        Some(bytes) => files.put(name.clone()?, bytes),
        None => Ok(()),
    }
}

/// Makes the changes of these commands, but those that were refused in the run too. The answer is that the files are known.
fn make_changes(files: &mut FileSet, commands: &[Command]) -> Result<bool, AllocError> {
    for command in commands {
        if let Some(changes) = changes_in(command) {
            if let Err(BatchRefusal::OutOfMemory) = files.apply_all(changes) {
                return Err(AllocError);
            }
        }
    }
    Ok(true)
}

/// Makes the changes of a script, and answers whether it could be read again.
fn make_script(
    alloc: Global,
    files: &mut FileSet,
    bytes: Option<Bytes>,
) -> Result<bool, AllocError> {
    let Some(bytes) = bytes else {
        return Ok(false);
    };
    let script = read_script(alloc, bytes.as_slice()).unwrap_or(Script::new(alloc));
    make_changes(files, script.as_slice())
}

/// Puts in the files of a run, as its script has left them, and answers whether they are all known.
fn put_files<R: Files>(
    alloc: Global,
    files: &mut FileSet,
    run: &Run<'_>,
    around: &Around<'_, R>,
) -> Result<bool, AllocError> {
    for name in run.files {
        put(files, name, fetched(alloc, around, name))?;
    }
    match run.script {
        Some(script) => make_script(alloc, files, fetched(alloc, around, script)),
        None => Ok(true),
    }
}

/// Adds this line of a file, if the files are known.
fn append_known(
    alloc: Global,
    lines: &mut Vec<Line>,
    files: &FileSet,
    are_known: Result<bool, AllocError>,
    name: &str,
    number: &str,
) -> Result<(), AllocError> {
    if !are_known? {
        return Ok(());
    }
    let number = number.parse().unwrap_or(0);
    append_line(alloc, lines, files.bytes_of(name.as_bytes()), number)
}

/// Adds this line of a file as the run's script has left it, unless the line is blank or the script can't be read again.
pub fn append_quote<R: Files>(
    alloc: Global,
    lines: &mut Vec<Line>,
    run: &Run<'_>,
    around: &Around<'_, R>,
    name: &str,
    number: &str,
) -> Result<(), AllocError> {
    let mut files = FileSet::new(alloc);
    let are_known = put_files(alloc, &mut files, run, around);
    append_known(alloc, lines, &files, are_known, name, number)
}
