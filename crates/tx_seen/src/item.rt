//! What a scan takes.
ghost use Rattle.std.specs.Prelude.{◌≡◌};
ghost use Rattle.tx_seen.specs.Magnified.{magnification_of};

use crate::fed::Value;
use crate::seen::Seen;
use std::alloc::AllocError;
use tx_list::Kept;

/// What a scan takes: tokens with what they mean, and the values that it asked for.
#[derive(Drop)]
pub enum Item {
    Took(Seen),
    Gave(Value),
}

impl Item {
    /// The magnification, where this is it.
    pub fn magnification(&self) -> Option<u16>
        ensures { result ≡ magnification_of self.now }
    {
        match self {
            Item::Gave(Value::Magnification(magnification)) => Some(*magnification),
            Item::Gave(Value::Int(_) | Value::Dimen(_) | Value::Glue(_) | Value::Muglue(_)) => None,
            Item::Gave(Value::Flag(_) | Value::Absent | Value::OutOfRange) => None,
            Item::Took(_) => None,
        }
    }
}

/// A clone is the same item. Its only error is that no more owners of a name can be counted.
impl Clone for Item {
    ghost use Rattle.std.specs.Prelude.{◌≡◌};

    ghost is_clone = { λ source copy. copy ≡ source };

    fn clone(&self) -> Result<Self, AllocError> {
        match self {
            Item::Took(seen) => Ok(Item::Took(seen.clone()?)),
            Item::Gave(value) => Ok(Item::Gave(*value)),
        }
    }
}

impl Kept for Item {
    fn share(&self) -> Result<Self, AllocError> {
        self.clone()
    }

    fn same(&self, other: &Self) -> bool {
        match (self, other) {
            (Item::Took(one), Item::Took(other)) => one.same(other),
            (Item::Gave(one), Item::Gave(other)) => one.same(other),
            _ => false,
        }
    }
}
