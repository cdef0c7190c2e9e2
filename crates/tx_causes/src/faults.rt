//! What went wrong where a file was read or saved.
use std::alloc::AllocError;
use std::io::{self, ErrorKind};
use std::str;
use tx_bytes::Bytes;
use tx_io::Cause;

/// A name as text.
fn name_text(name: &Bytes) -> &str {
    str::from_utf8(name.as_slice()).unwrap_or("a file whose name isn't text")
}

/// What a fault of reading or saving means, where there are words for it.
fn kind_text(kind: ErrorKind) -> Option<&'static str> {
    match kind {
        ErrorKind::PermissionDenied => Some("permission denied"),
        ErrorKind::NotADirectory => Some("a part of its path is no folder"),
        ErrorKind::IsADirectory => Some("it is a folder"),
        ErrorKind::ReadOnlyFilesystem => Some("the file system can only be read"),
        ErrorKind::StorageFull => Some("no space is left on the device"),
        ErrorKind::QuotaExceeded => Some("the quota is used up"),
        ErrorKind::FileTooLarge => Some("it is too large, a file has at most 67108864 bytes"),
        ErrorKind::InvalidFilename => Some("its name is too long"),
        ErrorKind::FilesystemLoop => Some("its links lead in a circle"),
        ErrorKind::ExecutableFileBusy => Some("it is a program that runs"),
        ErrorKind::BrokenPipe => Some("nobody reads it any more"),
        ErrorKind::OutOfMemory => Some("no memory is left"),
        _ => None,
    }
}

/// Writes an error of the system in words.
pub fn write_error(text: &mut String, error: &io::Error) -> Result<(), AllocError> {
    match kind_text(error.kind()) {
        Some(words) => text.push_str(words),
        None => write!(text, "{error}"),
    }
}

/// The same of a save, which finds nothing only where the folder isn't there.
fn write_save_error(text: &mut String, error: &io::Error) -> Result<(), AllocError> {
    match error.kind() {
        ErrorKind::NotFound => text.push_str("its folder isn't there"),
        _ => write_error(text, error),
    }
}

/// Writes a name, as what is told of a file begins.
fn write_name(text: &mut String, name: &Bytes) -> Result<(), AllocError> {
    text.push_str(name_text(name))?;
    text.push_str(": ")
}

/// Writes why the file of this name couldn't be read.
fn write_unread(text: &mut String, name: &Bytes, error: &io::Error) -> Result<(), AllocError> {
    write_name(text, name)?;
    write_error(text, error)
}

/// Writes why a file couldn't be read.
pub fn write_read_cause(text: &mut String, cause: Option<&Cause>) -> Result<(), AllocError> {
    if let Some(cause) = cause {
        if let Some(name) = &cause.name {
            return write_unread(text, name, &cause.error);
        }
    }
    text.push_str("a file couldn't be read")
}

/// Writes what was saved: each file where they are few, else how many and the last one.
fn write_saved(text: &mut String, saved: &[Bytes]) -> Result<(), AllocError> {
    match saved {
        [] => text.push_str("nothing was saved before"),
        [one] => write!(text, "saved before: {}", name_text(one)),
        [one, two] => write!(
            text,
            "saved before: {} and {}",
            name_text(one),
            name_text(two)
        ),
        [.., last] => {
            let count = saved.len();
            write!(
                text,
                "saved before: {count} files, {} the last of them",
                name_text(last)
            )
        }
    }
}

/// Writes why a file couldn't be saved, or standard output written.
fn write_fault(
    text: &mut String,
    name: &Option<Bytes>,
    error: &io::Error,
) -> Result<(), AllocError> {
    match name {
        Some(name) => {
            write_name(text, name)?;
            write_save_error(text, error)
        }
        None => {
            text.push_str("standard output: ")?;
            write_error(text, error)
        }
    }
}

/// Writes why something couldn't be put out.
pub fn write_unput_cause(text: &mut String, cause: Option<&Cause>) -> Result<(), AllocError> {
    match cause {
        Some(Cause { name, error }) => write_fault(text, name, error),
        None => text.push_str("something couldn't be put out"),
    }
}

/// The same, and what was saved before.
pub fn write_put_cause(
    text: &mut String,
    cause: Option<&Cause>,
    saved: &[Bytes],
) -> Result<(), AllocError> {
    write_unput_cause(text, cause)?;
    text.push_str("; ")?;
    write_saved(text, saved)
}
