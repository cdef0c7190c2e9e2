//! What a script asks for.
use tx_files::{Change, Name};
use tx_list::Items;

/// A place of a file: so many bytes behind its beginning.
#[derive(Drop)]
pub struct FilePlace {
    /// The file's name.
    pub name: Name,
    pub place: u64,
}

/// What a script asks for.
#[derive(Drop)]
pub enum Command {
    /// This change is to be made: it is a list of one change.
    Change(Change),
    /// These changes are to be made together.
    Batch(Items<Change>),
    /// What there is at this point is to be saved under this name.
    Save(Name),
    /// It is to be told by which page this place is first read.
    Locate(FilePlace),
}

/// A list of commands, in their order. Contracts see the list.
pub type Script = Items<Command>;
