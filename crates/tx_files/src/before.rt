use crate::edit::Undo;
use crate::file_set::FileSet;
use crate::name::Name;

/// How a list of changes that was made is taken back.
#[derive(Drop)]
pub enum Before {
    /// It was one edit, of the file of this name.
    One { name: Name, undo: Undo },
    /// These are the files as they were.
    All(FileSet),
}
