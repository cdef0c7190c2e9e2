//! The space factor.
ghost use Rattle.std.specs.Prelude.{◌≡◌, ◌≤◌};
ghost use Rattle.tx_nest.specs.Factors as spec;

use std::marker::Model;

/// The plain space factor, at which a space stretches and shrinks as its glue says.
const PLAIN: u16 = 1000;

/// The greatest space factor.
const GREATEST: i32 = 32767;

/// A space factor, 1 to 32767 (TeX: The Program, section 212). Contracts see the number.
#[derive(Clone, Copy, PartialEq, Eq)]
pub struct SpaceFactor {
    factor: u16,
}

impl Model for SpaceFactor {
    ghost use Rattle.std.specs.Prelude.{ℕ};
    ghost use Rattle.tx_nest.specs.Factors.{IsFactor};
    ghost use Rattle.tx_nest.specs.FactorFields.{factor_in, field_of};

    ghost Value = { ℕ };

    ghost view = { factor_in };

    ghost invariant = { λ f. IsFactor f.factor };

    ghost inverse = { field_of };
}

impl SpaceFactor {
    /// This space factor.
    pub fn new(factor: u16) -> SpaceFactor
        requires least { 1 ≤ factor }
        requires most { factor ≤ 32767 }
        ensures { result ≡ factor }
    {
        SpaceFactor { factor }
    }

    /// That of a new list, and behind a box or a rule (TeX: The Program, sections 1056, 1076 and 1083).
    pub fn plain() -> SpaceFactor
        ensures { result ≡ spec.plain_factor }
    {
        SpaceFactor::new(PLAIN)
    }

    /// The space factor of this number; None exactly where it is none.
    pub fn try_new(number: i32) -> Option<SpaceFactor>
        ensures { result ≡ spec.factor_of number }
    {
        if 1 <= number && number <= GREATEST {
            Some(SpaceFactor::new(number as u16))
        } else {
            None
        }
    }

    /// Its number.
    pub fn get(self) -> u16
        ensures value { result ≡ self }
        ensures least { 1 ≤ result }
        ensures most { result ≤ 32767 }
    {
        self.factor
    }
}
