//! A file is saved beside its place, and then put there.
use crate::files_read::FilesRead;
use crate::names::path_of;
use std::alloc::Global;
use std::fs::{self, File, OpenFile, OpenOptions, Permissions};
use std::io::{self, ErrorKind, Write};
use std::rt::Files;

/// How many files beside a place may be left over from calls that were killed.
const MOST_LEFT: u32 = 1000;

/// A path beside another one, in the same folder.
fn beside(alloc: Global, path: &str, number: u32) -> io::Result<String> {
    Ok(match path.rsplit_once('/') {
        Some((folder, _)) => format!(in alloc; "{folder}/.vortex-{number}")?,
        None => format!(in alloc; ".vortex-{number}")?,
    })
}

/// A new file beside a place, with its path.
fn create_beside<R: Files>(rt: &R, alloc: Global, path: &str) -> io::Result<(String, R::File)> {
    for number in 0..MOST_LEFT {
        let beside = beside(alloc, path, number)?;
        match File::create_new(rt, beside.as_str()) {
            Ok(file) => return Ok((beside, file)),
            Err(error) => {
                if error.kind() != ErrorKind::AlreadyExists {
                    return Err(error);
                }
            }
        }
    }
    Err(io::Error::from(ErrorKind::AlreadyExists))
}

/// Writes a file whole, and gives it the permissions of the one whose place it takes.
fn fill<F: Write + OpenFile + Drop>(
    mut file: F,
    bytes: &[u8],
    permissions: Option<Permissions>,
) -> io::Result<()> {
    file.write_all(bytes)?;
    match permissions {
        Some(permissions) => file.set_permissions(permissions),
        None => Ok(()),
    }
}

/// Writes a file beside its place and renames it. Whoever reads the place sees the old file or the new one, and after
/// an error the old one stands.
fn replace<R: Files>(
    rt: &R,
    alloc: Global,
    path: &str,
    bytes: &[u8],
    permissions: Option<Permissions>,
) -> io::Result<()> {
    let (beside, file) = create_beside(rt, alloc, path)?;
    let done = match fill(file, bytes, permissions) {
        Ok(()) => fs::rename(rt, beside.as_str(), path),
        Err(error) => Err(error),
    };
    if done.is_err() {
        // the error that is told is the first one
        let _ = fs::remove_file(rt, beside.as_str());
    }
    done
}

fn is_link<R: Files>(rt: &R, path: &str) -> bool {
    match rt.symlink_metadata(path) {
        Ok(found) => found.is_symlink(),
        Err(_) => false,
    }
}

/// Saves where there is no file yet.
fn save_new<R: Files>(rt: &R, alloc: Global, path: &str, bytes: &[u8]) -> io::Result<()> {
    if is_link(rt, path) {
        return Err(io::Error::new(ErrorKind::Other, "it is a link that leads nowhere"));
    }
    replace(rt, alloc, path, bytes, None)
}

/// Saves in the place of a file. A link stays, and the file to which it leads is replaced.
fn save_over<R: Files>(
    rt: &R,
    alloc: Global,
    path: &str,
    bytes: &[u8],
    permissions: Permissions,
) -> io::Result<()> {
    if !is_link(rt, path) {
        return replace(rt, alloc, path, bytes, Some(permissions));
    }
    let place = rt.canonicalize(alloc, path)?.into_string();
    replace(rt, alloc, place.as_str(), bytes, Some(permissions))
}

/// Saves in the place of what is open there for writing: never over a file that was read, and into a device or a pipe
/// straight, since that is no file to be replaced.
fn save_into<R: Files>(
    rt: &R,
    alloc: Global,
    read: &FilesRead,
    path: &str,
    mut old: R::File,
    bytes: &[u8],
) -> io::Result<()> {
    let found = old.metadata()?;
    if read.holds(rt, &found) {
        return Err(io::Error::new(ErrorKind::Other, "it is a file that this call has read"));
    }
    if found.is_file() {
        save_over(rt, alloc, path, bytes, found.permissions())
    } else {
        old.write_all(bytes)
    }
}

/// Saves these bytes as the file of this name, in the current folder.
pub(crate) fn save_file<R: Files>(
    rt: &R,
    alloc: Global,
    read: &FilesRead,
    name: &[u8],
    bytes: &[u8],
) -> io::Result<()> {
    let path = path_of(name)?;
    match OpenOptions::new().write(true).open(rt, path) {
        Ok(old) => save_into(rt, alloc, read, path, old, bytes),
        Err(error) => match error.kind() {
            ErrorKind::NotFound => save_new(rt, alloc, path, bytes),
            _ => Err(error),
        },
    }
}
