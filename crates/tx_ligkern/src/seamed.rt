//! A word with its seams.
ghost use Rattle.std.specs.Prelude.{◌≡◌};

use crate::item::Items;
use crate::seam::Seams;

/// What a word becomes, and seams of it.
#[derive(Drop)]
pub struct Seamed {
    pub items: Items,
    pub seams: Seams,
}

impl Seamed {
    /// What the word becomes, alone.
    pub fn into_items(self) -> Items
        ensures { result ≡ self.items }
    {
        let Seamed { items, seams: _ } = self;
        items
    }
}
