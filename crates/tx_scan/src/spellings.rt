//! Scans that keep the characters of a name.

use tx_list::Items;

/// The name of a control sequence that is being spelled out, behind \csname.
#[derive(Drop)]
pub struct ControlNameScan {
    /// The characters that are read.
    pub(crate) letters: Items<u8>,
}

/// The name of a file that is being scanned.
#[derive(Drop)]
pub struct FileNameScan {
    /// The characters that are read.
    pub(crate) letters: Items<u8>,
}
