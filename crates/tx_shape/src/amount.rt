//! Numbers and sizes, with what follows them.
ghost use Rattle.std.specs.Prelude.{◌≡◌, IfOk};
ghost use Rattle.tx_scan.specs.Rests.{IsGivenBy};
ghost use Rattle.tx_scan.specs.Supplied.{NeedsNoMore};
ghost use Rattle.tx_shape.specs.AmountRests.{IsAmountFed, LeavesFewer, amount_held, amount_needed, amount_rest, begun_amount};

use crate::next::{parametered, penalized, registered, set, sized};
use crate::scans::{Amount, AmountScan, Next};
use std::alloc::{AllocError, Global};
use tx_scan::{DimenScan, IntScan};
use tx_seen::{Fed, Seen, Value};

impl AmountScan {
    /// The scan of a penalty of which nothing is read. It takes no memory.
    pub(crate) fn new(alloc: Global) -> AmountScan
        ensures { result ≡ begun_amount Amount.Penalty }
    {
        AmountScan {
            amount: Amount::Penalty,
            integer: IntScan::new(alloc),
            size: DimenScan::new(alloc, false, false),
        }
    }

    /// Begins a number or a size, in the memory that the scan has.
    pub(crate) fn begin(&mut self, amount: Amount)
        ensures { self.new ≡ begun_amount amount }
    {
        self.amount = amount;
        self.integer.restart();
        self.size.restart(false, false);
    }

    /// Takes one token, at first and after More. Its only error is want of memory.
    pub(crate) fn feed(&mut self, token: &Seen) -> Result<Fed<Next>, AllocError>
        ensures fed { IfOk result (IsAmountFed self.old token.now self.new) }
        ensures needs { IfOk result (NeedsNoMore (amount_needed self.old) (amount_needed self.new)) }
    {
        match self.amount {
            Amount::Penalty => Ok(penalized(self.integer.feed(token)?)),
            Amount::Register(registering) => Ok(registered(registering, self.integer.feed(token)?)),
            Amount::Size(sizing) => Ok(sized(sizing, self.size.feed(token)?)),
            Amount::Number(setting) => Ok(set(setting, self.integer.feed(token)?)),
            Amount::FontDimen => Ok(parametered(self.integer.feed(token)?)),
        }
    }

    /// Takes the value that it needs. Its only error is want of memory.
    pub(crate) fn give(&mut self, value: &Value) -> Result<Fed<Next>, AllocError>
        ensures given { IfOk result (IsGivenBy amount_rest amount_held self.old value.now self.new) }
        ensures needs { IfOk result (LeavesFewer (amount_needed self.old) (amount_needed self.new)) }
    {
        match self.amount {
            Amount::Penalty => Ok(penalized(self.integer.give(value))),
            Amount::Register(registering) => Ok(registered(registering, self.integer.give(value))),
            Amount::Size(sizing) => Ok(sized(sizing, self.size.give(value)?)),
            Amount::Number(setting) => Ok(set(setting, self.integer.give(value))),
            Amount::FontDimen => Ok(parametered(self.integer.give(value))),
        }
    }
}
