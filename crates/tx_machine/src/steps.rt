//! The count of turns.
ghost use Rattle.std.specs.Prelude.{◌≡◌};
ghost use Rattle.tx_machine.specs.Steps.{raised};

use std::marker::Model;

/// How many turns were taken. It can't be cloned or copied, is made at 0 by `CountsTurns` alone, and only `tick` raises
/// it, so no library has a second count.
#[derive(Debug, Drop)]
pub struct Steps {
    count: u64,
}

impl Model for Steps {
    ghost use Rattle.std.specs.Prelude.{ℕ};

    ghost Value = { ℕ };

    ghost view = { λ s. s.count };
}

impl Steps {
    /// Counts one turn; at 2^64 - 1 the count stands still.
    pub fn tick(&mut self)
        ensures { self.new ≡ raised self.old 1 }
    {
        self.count = self.count.saturating_add(1);
    }
}

/// What makes a count of turns. The runtime that `main` and tests are given is the only one.
pub trait CountsTurns {
    /// A count of no turns.
    fn steps(&self) -> Steps
        ensures { result ≡ 0 };
}

impl CountsTurns for HostRuntime {
    fn steps(&self) -> Steps {
        Steps { count: 0 }
    }
}
