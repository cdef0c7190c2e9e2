//! What was being done where no memory was left.
use crate::faults::write_read_cause;
use std::alloc::AllocError;
use tx_io::Cause;

/// Writes what was being done where there was no memory left, by what had been said until then.
pub fn write_memory_cause(
    text: &mut String,
    said: &str,
    unread: Option<&Cause>,
) -> Result<(), AllocError> {
    match said.lines().last() {
        Some(last) => write_behind(text, last),
        None if unread.is_some() => write_read_cause(text, unread),
        None => text.push_str(
            "no memory is left for the words, the files, the first run or the list",
        ),
    }
}

fn write_behind(text: &mut String, last: &str) -> Result<(), AllocError> {
    match last.strip_suffix(": memory") {
        Some(edit) => write!(text, "no memory is left at {edit}; all is as before it"),
        None => write!(text, "no memory is left for what comes behind '{last}'"),
    }
}
