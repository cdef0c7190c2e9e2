//! Clones of an assignment that is being scanned and of what it makes.
ghost use Rattle.std.specs.Prelude.{◌≡◌};

use crate::scan::AssignScan;
use crate::types::Change;
use std::alloc::AllocError;

/// A clone is the same change. Its only error is that no more owners of what it holds can be counted.
impl Clone for Change {
    ghost is_clone = { λ source copy. copy ≡ source };

    fn clone(&self) -> Result<Self, AllocError> {
        match self {
            Change::Set(entry) => Ok(Change::Set(entry.clone()?)),
            Change::Compute(operation, number) => Ok(Change::Compute(*operation, *number)),
            Change::Add(glue) => Ok(Change::Add(*glue)),
            Change::Copy(place) => Ok(Change::Copy(place.clone()?)),
            Change::Text => Ok(Change::Text),
        }
    }
}

/// A clone is at the same stage with the same parts. Its only error is want of memory.
impl Clone for AssignScan {
    ghost is_clone = { λ source copy. copy ≡ source };

    fn clone(&self) -> Result<Self, AllocError> {
        Ok(AssignScan {
            stage: self.stage,
            place: self.place.clone()?,
            integer: self.integer.clone()?,
            size: self.size.clone()?,
            glue: self.glue.clone()?,
            // (last, so that nothing drops one)
            change: self.change.clone()?,
        })
    }
}
