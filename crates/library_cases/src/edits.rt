//! Edits, and lists of changes.
use std::alloc::{AllocError, Global};
use tx_bytes::Bytes;
use tx_cases::{bytes_of, first_word};
use tx_files::{Change, Edit, Name};

/// An edit, if its file has a name.
pub fn edit_of(
    alloc: Global,
    name: &str,
    place: u64,
    removed: u64,
    put: &str,
) -> Result<Option<Edit>, AllocError> {
    let put = bytes_of(alloc, put)?;
    match Name::new(Bytes::from_slice(alloc, name.as_bytes())?) {
        Some(name) => Ok(Some(Edit {
            name,
            place,
            removed,
            put,
        })),
        None => Ok(None),
    }
}

/// The change that a text says, `NAME PLACE REMOVED TEXT`, an edit, or `NAME`, which takes the file away; if it has a name.
fn change_of(alloc: Global, text: &str) -> Result<Option<Change>, AllocError> {
    let (name, rest) = first_word(text);
    if rest.is_empty() {
        return match Name::new(bytes_of(alloc, name)?) {
            Some(name) => Ok(Some(Change::Remove(name))),
            None => Ok(None),
        };
    }
    let (place, rest) = first_word(rest);
    let (removed, put) = first_word(rest);
    let (place, removed) = (place.parse().unwrap_or(0), removed.parse().unwrap_or(0));
    match edit_of(alloc, name, place, removed, put)? {
        Some(e) => Ok(Some(Change::Edit(e))),
        None => Ok(None),
    }
}

/// The changes that a text says, between which bars stand.
pub fn changes_of(alloc: Global, text: &str) -> Result<Vec<Change>, AllocError> {
    let mut changes = Vec::new(alloc);
    for part in text.split('|') {
        if let Some(change) = change_of(alloc, part)? {
            changes.push(change)?;
        }
    }
    Ok(changes)
}
