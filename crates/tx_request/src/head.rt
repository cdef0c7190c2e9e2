//! The line with which a request begins, or a change of a batch.
use tx_files::Name;
use tx_script::FilePlace;
use tx_script::element::CommandWord;

/// An edit without the bytes that it puts in.
#[derive(Drop)]
pub struct EditLine {
    pub name: Name,
    pub place: u64,
    pub removed: u64,
    /// How many bytes it puts in.
    pub size: u64,
}

/// The line of a change.
#[derive(Drop)]
pub enum ChangeLine {
    Edit(EditLine),
    Remove(Name),
}

/// The line with which a request begins.
#[derive(Drop)]
pub enum Head {
    Change(ChangeLine),
    /// A batch of so many changes.
    Batch(u64),
    Save(Name),
    Locate(FilePlace),
    /// The contents of a file, so many bytes.
    File { size: u64, name: Name },
    Page(u64),
    Log,
    LogOf(u64),
}

/// The word that begins a request.
#[derive(Clone, Copy)]
pub enum RequestWord {
    Command(CommandWord),
    File,
    Page,
    Log,
    LogOf,
}
