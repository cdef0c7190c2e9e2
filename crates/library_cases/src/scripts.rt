//! Cases of tx_script.
use std::alloc::{AllocError, Global};
use tx_cases::{bytes_of, first_word, write_bytes};
use tx_files::Change;
use tx_script::{Command, ScriptError, read_script};

/// `script TEXT`, its commands or where and by which rule it is refused; `front LENGTH TEXT`, the same of so many bytes.
pub fn write_answer(
    alloc: Global,
    text: &mut String,
    word: &str,
    rest: &str,
) -> Result<(), AllocError> {
    if word == "script" {
        return write_script(alloc, text, bytes_of(alloc, rest)?.as_slice());
    }
    let (length, given) = first_word(rest);
    let bytes = bytes_of(alloc, given)?;
    let length = length.parse::<usize>().unwrap_or(0);
    write_script(
        alloc,
        text,
        bytes.as_slice().get(..length).unwrap_or(b"too long"),
    )
}

fn write_script(alloc: Global, text: &mut String, bytes: &[u8]) -> Result<(), AllocError> {
    match read_script(alloc, bytes) {
        Ok(script) => write_commands(text, script.as_slice()),
        Err(ScriptError::BadScript { place, rule }) => {
            write!(text, "at {place}, rule {}", rule.number())
        }
        Err(ScriptError::OutOfMemory) => Err(AllocError),
    }
}

/// Writes commands, with a bar behind each.
fn write_commands(text: &mut String, commands: &[Command]) -> Result<(), AllocError> {
    for command in commands {
        write_command(text, command)?;
        text.push('|')?;
    }
    Ok(())
}

fn write_command(text: &mut String, command: &Command) -> Result<(), AllocError> {
    match command {
        Command::Save(name) => {
            text.push_str("save ")?;
            write_bytes(text, name.as_slice())
        }
        Command::Locate(at) => {
            write!(text, "locate {} ", at.place)?;
            write_bytes(text, at.name.as_slice())
        }
        Command::Change(change) => write_change(text, change),
        Command::Batch(changes) => {
            write!(text, "batch {}:", changes.len())?;
            write_changes(text, changes.as_slice())
        }
    }
}

/// Writes changes, with a space before each.
fn write_changes(text: &mut String, changes: &[Change]) -> Result<(), AllocError> {
    for change in changes {
        text.push(' ')?;
        write_change(text, change)?;
    }
    Ok(())
}

fn write_change(text: &mut String, change: &Change) -> Result<(), AllocError> {
    match change {
        Change::Remove(name) => {
            text.push_str("remove ")?;
            write_bytes(text, name.as_slice())
        }
        Change::Edit(e) => {
            text.push_str("edit ")?;
            write_bytes(text, e.name.as_slice())?;
            write!(text, " at {} for {} put:", e.place, e.removed)?;
            write_bytes(text, e.put.as_slice())
        }
    }
}
