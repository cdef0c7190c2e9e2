//! Clones of scans. Each is the same as its source; its only error is want of memory.
ghost use Rattle.std.specs.Prelude.{◌≡◌};

use crate::scans::{DimenScan, GlueScan, IntScan, QuantityScan};
use std::alloc::AllocError;

impl Clone for IntScan {
    ghost is_clone = { λ source copy. copy ≡ source };

    fn clone(&self) -> Result<Self, AllocError> {
        Ok(IntScan {
            outers: self.outers.clone()?,
            negative: self.negative,
            stage: self.stage,
            behind: self.behind,
        })
    }
}

impl Clone for QuantityScan {
    ghost is_clone = { λ source copy. copy ≡ source };

    fn clone(&self) -> Result<Self, AllocError> {
        Ok(QuantityScan {
            stage: self.stage,
            number: self.number.clone()?,
        })
    }
}

impl Clone for DimenScan {
    ghost is_clone = { λ source copy. copy ≡ source };

    fn clone(&self) -> Result<Self, AllocError> {
        let behind = match &self.behind {
            Some(token) => Some(token.clone()?),
            None => None,
        };
        Ok(DimenScan {
            units: self.units,
            negative: self.negative,
            stage: self.stage,
            digits: self.digits.clone()?,
            magnified: self.magnified,
            number: self.number.clone()?,
            quantity: self.quantity.clone()?,
            behind,
        })
    }
}

impl Clone for GlueScan {
    ghost is_clone = { λ source copy. copy ≡ source };

    fn clone(&self) -> Result<Self, AllocError> {
        Ok(GlueScan {
            mu: self.mu,
            stage: self.stage,
            size: self.size.clone()?,
            glue: self.glue,
        })
    }
}
