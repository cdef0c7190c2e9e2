//! Clones of scans. Each is the same as its source; its only error is want of memory.
ghost use Rattle.std.specs.Prelude.{◌≡◌};

use crate::loading::LoadScan;
use crate::scans::{AmountScan, ShapeScan};
use std::alloc::AllocError;

impl Clone for AmountScan {
    ghost is_clone = { λ source copy. copy ≡ source };

    fn clone(&self) -> Result<Self, AllocError> {
        Ok(AmountScan {
            amount: self.amount,
            integer: self.integer.clone()?,
            size: self.size.clone()?,
        })
    }
}

impl Clone for ShapeScan {
    ghost is_clone = { λ source copy. copy ≡ source };

    fn clone(&self) -> Result<Self, AllocError> {
        Ok(ShapeScan {
            stage: self.stage,
            amount: self.amount.clone()?,
            glue: self.glue.clone()?,
        })
    }
}

impl Clone for LoadScan {
    ghost is_clone = { λ source copy. copy ≡ source };

    fn clone(&self) -> Result<Self, AllocError> {
        Ok(LoadScan {
            stage: self.stage,
            place: self.place.clone()?,
            file: self.file.clone()?,
            name: self.name.clone()?,
            size: self.size.clone()?,
            number: self.number.clone()?,
        })
    }
}
