//! A clone of the scan of a rule is the same as its source; its only error is want of memory.
ghost use Rattle.std.specs.Prelude.{◌≡◌};

use crate::scans::RuleScan;
use std::alloc::AllocError;

impl Clone for RuleScan {
    ghost is_clone = { λ source copy. copy ≡ source };

    fn clone(&self) -> Result<Self, AllocError> {
        Ok(RuleScan {
            rule: self.rule,
            part: self.part,
            size: self.size.clone()?,
        })
    }
}
