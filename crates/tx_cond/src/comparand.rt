//! Numbers and sizes that relations stand between, token by token and value by value.
ghost use Rattle.std.specs.Prelude.{◌≡◌, IfOk};
ghost use Rattle.tx_scan.specs.Dimensions.{lengths};
ghost use Rattle.tx_scan.specs.Mapped.{mapped};
ghost use Rattle.tx_scan.specs.Supplied.{NeedsFewer, NeedsNoMore};
ghost use Rattle.tx_cond.specs.ComparandRests.{IsFed, IsGiven, begun, more_needed};

use crate::test::{Comparand, ComparandScan};
use std::alloc::{AllocError, Global};
use tx_scan::{DimenScan, IntScan, Measure};
use tx_seen::{Fed, Seen, Value};

/// The sp of a dimension.
fn in_points(fed: Fed<Measure>) -> Fed<i64>
    ensures { result ≡ mapped (λ measure. measure.size) fed }
{
    match fed {
        Fed::More(want) => Fed::More(want),
        Fed::Need(kind) => Fed::Need(kind),
        Fed::Done(measure, back) => Fed::Done(measure.size, back),
        Fed::Wrong(error) => Fed::Wrong(error),
    }
}

impl ComparandScan {
    /// The scan of a number of which nothing is read. It takes no memory.
    pub(crate) fn new(alloc: Global) -> ComparandScan
        ensures { result ≡ begun Comparand.Number }
    {
        ComparandScan {
            comparand: Comparand::Number,
            number: IntScan::new(alloc),
            size: DimenScan::new(alloc, false, false),
        }
    }

    /// Forgets what was read, in the memory that it has, for one of these.
    pub(crate) fn restart(&mut self, comparand: Comparand)
        ensures { self.new ≡ begun comparand }
    {
        self.comparand = comparand;
        self.number.restart();
        self.size.restart(false, false);
    }

    /// Takes one token. Its only error is want of memory.
    pub(crate) fn feed(&mut self, token: &Seen) -> Result<Fed<i64>, AllocError>
        ensures fed { IfOk result (IsFed self.old token.now self.new) }
        ensures needed { IfOk result (NeedsNoMore (more_needed self.old) (more_needed self.new)) }
    {
        match self.comparand {
            Comparand::Number => self.number.feed(token),
            Comparand::Size => Ok(in_points(self.size.feed(token)?)),
        }
    }

    /// Takes the value that it needs. Its only error is want of memory.
    pub(crate) fn give(&mut self, value: &Value) -> Result<Fed<i64>, AllocError>
        ensures given { IfOk result (IsGiven self.old value.now self.new) }
        ensures fewer { IfOk result (NeedsFewer (more_needed self.old) (more_needed self.new)) }
    {
        match self.comparand {
            Comparand::Number => Ok(self.number.give(value)),
            Comparand::Size => Ok(in_points(self.size.give(value)?)),
        }
    }
}

/// A clone has read the same. Its only error is want of memory.
impl Clone for ComparandScan {
    ghost is_clone = { λ source copy. copy ≡ source };

    fn clone(&self) -> Result<Self, AllocError> {
        Ok(ComparandScan {
            comparand: self.comparand,
            number: self.number.clone()?,
            size: self.size.clone()?,
        })
    }
}
