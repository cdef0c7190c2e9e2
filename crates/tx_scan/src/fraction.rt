//! The digits of a decimal fraction (TeX: The Program, section 452).
ghost use Rattle.std.specs.Prelude.{◌≡◌, ◌+◌, ◌<◌, ◌≤◌, ◌∷◌, ◌++◌, [], take, OnOk};
ghost use Rattle.tx_num.specs.Decimals.{fraction_of};

use std::alloc::{AllocError, Global};
use std::marker::Model;
use tx_num::decimals;

/// Digits past these have no effect.
const COUNTED_DIGITS: usize = 17;

/// Digits behind a decimal point, as text. No more of them are kept than count, so they take little memory however many
/// there are.
#[derive(Drop)]
pub struct Digits {
    text: Vec<u8>,
}

impl Model for Digits {
    ghost use Rattle.std.specs.Prelude.{List, ℕ};
    ghost use Rattle.std.specs.Str.Parse.{AllDigits};

    ghost Value = { List ℕ };

    ghost view = { λ d. d.text.items };

    ghost invariant = { λ d. AllDigits 10 d.text.items };
}

impl Digits {
    /// No digits, which take no memory.
    pub fn new(alloc: Global) -> Digits
        ensures { result ≡ [] }
    {
        Digits {
            text: Vec::new(alloc),
        }
    }

    /// Forgets the digits, in the memory that they have.
    pub fn clear(&mut self)
        ensures { self.new ≡ [] }
    {
        self.text.clear();
    }

    /// Puts a digit behind the others, if it counts. Its only error is want of memory.
    pub fn push(&mut self, digit: u8) -> Result<(), AllocError>
        requires { digit < 10 }
        ensures { OnOk result (take 17 self.new ≡ take 17 (self.old ++ (48 + digit) ∷ [])) }
    {
        if self.text.len() < COUNTED_DIGITS {
            self.text.push(b'0' + digit)?;
        }
        Ok(())
    }

    /// The fraction that the digits stand for, in 65536ths.
    pub fn value(&self) -> u32
        ensures value { result ≡ fraction_of self.now }
        ensures bound { result ≤ 65536 }
    {
        decimals(self.text.as_slice())
    }
}

/// A clone has the same digits. Its only error is want of memory.
impl Clone for Digits {
    ghost is_clone = { λ source copy. copy ≡ source };

    fn clone(&self) -> Result<Self, AllocError> {
        Ok(Digits {
            text: self.text.clone()?,
        })
    }
}
