//! What a file is read as that is to be a DVI file.
use tx_dvitype::{DviRule, ReadPage};
use tx_list::Items;

/// What is read of a file that is to be a DVI file.
#[derive(Drop)]
pub enum Listed {
    /// These pages.
    Brings(Items<ReadPage>),
    /// Nothing: it is no DVI file, or absent. So many of its bytes begin one, and what would have to come there is of this
    /// rule.
    Stops { place: u64, rule: DviRule },
}
