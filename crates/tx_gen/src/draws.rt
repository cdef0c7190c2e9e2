//! Numbers that are drawn, one after the other: the same seed draws the same ones.
ghost use Rattle.std.specs.Prelude.{◌≡◌, ◌<◌};
ghost use Rattle.tx_gen.specs.Draws.{next, drawn};

use std::marker::Model;

const MULTIPLIER: u64 = 6_364_136_223_846_793_005;

const INCREMENT: u64 = 1_442_695_040_888_963_407;

/// The state after a state.
fn next(state: u64) -> u64
    ensures { result ≡ next state }
{
    MULTIPLIER.wrapping_mul(state).wrapping_add(INCREMENT)
}

/// The state of a linear congruential generator. Contracts see it as a number.
#[derive(Drop)]
pub struct Draws {
    state: u64,
}

impl Model for Draws {
    ghost use Rattle.std.specs.Prelude.{ℕ};

    ghost Value = { ℕ };

    ghost view = { λ d. d.state };
}

impl Draws {
    /// The draws of a seed, before the first one.
    pub fn new(seed: u32) -> Draws
        ensures { result ≡ seed }
    {
        Draws {
            state: u64::from(seed),
        }
    }

    /// One of the numbers below `count`.
    pub fn draw(&mut self, count: u64) -> u64
        requires { 0 < count }
        ensures drawn { result ≡ drawn count self.old }
        ensures state { self.new ≡ next self.old }
        ensures below { result < count }
    {
        self.state = next(self.state);
        (self.state >> 33) % count
    }
}
