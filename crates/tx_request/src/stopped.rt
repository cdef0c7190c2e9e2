//! Why no request was read.
ghost use Rattle.std.specs.Prelude.{◌≡◌};
ghost use Rattle.tx_request.specs.declared.stopped.Stopped.TheVariants as stops;

use std::alloc::AllocError;
use tx_script::Rule;

/// Why no request was read.
#[derive(Clone, Copy)]
pub(crate) enum Stopped {
    /// The bytes begin none, by this rule; whether the LF behind them was read already.
    Refused { rule: Rule, passed: bool },
    /// What comes in couldn't be read.
    Failed,
    /// There was no memory left.
    OutOfMemory,
}

impl From<AllocError> for Stopped {
    ghost from_gives = { λ _ e. e ≡ stops.OutOfMemory };

    fn from(_: AllocError) -> Stopped {
        Stopped::OutOfMemory
    }
}
