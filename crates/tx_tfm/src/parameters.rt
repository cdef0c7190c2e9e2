//! The parameters of a font, which \fontdimen reads and changes.
ghost use Rattle.std.specs.Prelude.{◌≡◌, ◌↔◌, ◌<◌, ◌≤◌, ◌^◌, [], length, unsigned_abs, IsTrue, IfOk, OnOk};
ghost use Rattle.tx_tfm.specs.Parameters as spec;

use super::font::Font;
use std::alloc::{AllocError, Global};
use std::marker::Model;
use tx_list::{Kept, same_items};

/// The parameters of a font as they are now, from 1 on; those past the last one are 0. Contracts see their list.
#[derive(Drop)]
pub struct Parameters {
    values: Vec<i32>,
}

impl Model for Parameters {
    ghost use Rattle.std.specs.Prelude.{List, ℤ};

    ghost Value = { List ℤ };

    ghost view = { λ p. p.values.items };
}

impl Parameters {
    /// None; takes no memory.
    pub fn new(alloc: Global) -> Parameters
        ensures { result ≡ [] }
    {
        Parameters {
            values: Vec::new(alloc),
        }
    }

    /// Those that a font's file has. Its only error is want of memory.
    pub fn of_file(alloc: Global, font: &Font) -> Result<Parameters, AllocError>
        ensures { IfOk result (λ parameters. parameters ≡ spec.first_parameters font.now font.now.file.lengths.parameters) }
    {
        Ok(Parameters {
            values: values_of(alloc, font)?,
        })
    }

    /// Parameter `n`, from 1 on.
    pub fn get(&self, n: u16) -> i64
        requires { 1 ≤ n }
        ensures value { result ≡ spec.parameter_at self.now n }
        ensures bound { unsigned_abs result ≤ 2 ^ 31 }
    {
        match self.values.get(usize::from(n) - 1) {
            Some(value) => i64::from(*value),
            None => 0,
        }
    }

    /// How many there are.
    pub fn len(&self) -> usize
        ensures { result ≡ length self.now }
    {
        self.values.len()
    }

    /// Gives parameter `n` a value; those between it and the last one are 0 from now on. Nothing changes where `n` is 0. After want
    /// of memory, its only error, they may only be dropped.
    pub fn set(&mut self, n: u16, value: i32) -> Result<(), AllocError>
        ensures { OnOk result (self.new ≡ spec.with_value n value self.old) }
    {
        set_value(&mut self.values, usize::from(n), value)
    }
}

/// The parameters that a font's file has. Its only error is want of memory.
fn values_of(alloc: Global, font: &Font) -> Result<Vec<i32>, AllocError>
    ensures { IfOk result (λ values. values.items ≡ spec.first_parameters font.now font.now.file.lengths.parameters) }
{
    let count = font.file_parameters();
    let mut values = Vec::new(alloc);
    let mut n: u16 = 0;
    while n < count {
        n += 1;
        values.push(font.parameter(n) as i32)?;
    }
    Ok(values)
}

/// Puts numbers that are 0 behind others until there are so many.
#[tactic(auto, using(crate::proofs::Listed::listed_steps))]
fn lengthen(values: &mut Vec<i32>, count: usize) -> Result<(), AllocError>
    ensures { OnOk result (values.new.items ≡ spec.lengthened count values.old.items) }
{
    let mut missing = count.saturating_sub(values.len());
    while missing > 0 {
        missing -= 1;
        values.push(0)?;
    }
    Ok(())
}

/// Gives number `n`, from 1 on, a value; those between it and the last one are 0 from now on. Nothing changes where `n` is 0.
#[tactic(auto, using(crate::proofs::Listed::listed_steps))]
fn set_value(values: &mut Vec<i32>, n: usize, value: i32) -> Result<(), AllocError>
    ensures { OnOk result (values.new.items ≡ spec.with_value n value values.old.items) }
{
    lengthen(values, n)?;
    if n > 0 {
        values[n - 1] = value;
    }
    Ok(())
}

impl Kept for Parameters {
    fn share(&self) -> Result<Self, AllocError> {
        Ok(Parameters {
            values: Vec::from_slice(*self.values.allocator(), self.values.as_slice())?,
        })
    }

    fn same(&self, other: &Self) -> bool {
        same_items(self.values.as_slice(), other.values.as_slice())
    }
}
