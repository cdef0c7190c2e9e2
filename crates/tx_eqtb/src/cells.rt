//! Values by number.
ghost use Rattle.std.specs.Prelude.{◌≡◌, ◌↔◌, slice_get, slice_set, IsTrue, IfOk, OnOk};
ghost use Rattle.std.specs.Option.{option_copied};

use crate::boxes::BoxRegister;
use std::alloc::{AllocError, Global};
use std::marker::Model;
use std::rc::Rc;
use tx_list::{Items, Kept, same_items};
use tx_num::Glue;
use tx_seen::Meaning;
use tx_toklist::TokList;

/// A value of which many are copied at once.
pub trait Cell: Kept {
    /// Second values, equal to these. Its only error is want of memory.
    fn twins(alloc: Global, values: &[Self]) -> Result<Vec<Self>, AllocError>
        ensures { IfOk result (λ twins. twins.items ≡ values.now) };
}

/// Integers are copied all in one.
impl Cell for i32 {
    fn twins(alloc: Global, values: &[i32]) -> Result<Vec<i32>, AllocError> {
        Vec::from_slice(alloc, values)
    }
}

/// So is glue.
impl Cell for Glue {
    fn twins(alloc: Global, values: &[Glue]) -> Result<Vec<Glue>, AllocError> {
        Vec::from_slice(alloc, values)
    }
}

/// Meanings are shared one by one.
impl Cell for Meaning {
    fn twins(alloc: Global, values: &[Meaning]) -> Result<Vec<Meaning>, AllocError> {
        shared(alloc, values)
    }
}

/// So are lists of tokens.
impl Cell for TokList {
    fn twins(alloc: Global, values: &[TokList]) -> Result<Vec<TokList>, AllocError> {
        shared(alloc, values)
    }
}

/// And boxes.
impl Cell for BoxRegister {
    fn twins(alloc: Global, values: &[BoxRegister]) -> Result<Vec<BoxRegister>, AllocError> {
        shared(alloc, values)
    }
}

/// As many values as there are registers, codes or parameters of a kind. Contracts see their list. Shared lists take one
/// block of memory between them until one of them changes.
#[derive(Drop)]
pub struct Cells<T> {
    values: Rc<Values<T>>,
}

/// The values themselves, which `Cells` may share.
#[derive(Drop)]
struct Values<T> {
    by_number: Vec<T>,
}

impl<T> Model for Cells<T> {
    ghost use Rattle.std.specs.Prelude.{List};

    ghost Value = { List T };

    ghost view = { λ c. c.values.value.by_number.items };
}

impl<T: Cell> Clone for Values<T> {
    ghost is_clone = { λ source copy. copy.by_number.items ≡ source.by_number.items };

    fn clone(&self) -> Result<Self, AllocError> {
        let alloc = *self.by_number.allocator();
        Ok(Values {
            by_number: T::twins(alloc, self.by_number.as_slice())?,
        })
    }
}

impl<T: Cell> Cells<T> {
    /// These values. Its only error is want of memory.
    pub fn from_vec(values: Vec<T>) -> Result<Cells<T>, AllocError>
        ensures { IfOk result (λ cells. cells ≡ values.items) }
    {
        let alloc = *values.allocator();
        Ok(Cells {
            values: Rc::new(alloc, Values { by_number: values })?,
        })
    }

    /// The value of a number, lent; None where there is none.
    pub fn get(&self, number: usize) -> Option<&T>
        ensures { option_copied result ≡ slice_get self.now number }
    {
        self.values.by_number.get(number)
    }

    /// Puts another value in the place of the one of a number, if there is one; lists that share the values keep theirs.
    /// After want of memory, its only error, the list may only be dropped.
    pub fn set(&mut self, number: usize, value: T) -> Result<(), AllocError>
        ensures { OnOk result (self.new ≡ slice_set self.old number value) }
    {
        set_in(&mut self.values, number, value)
    }

    /// Where its memory comes from.
    pub fn allocator(&self) -> Global {
        *self.values.by_number.allocator()
    }

    /// Whether both hold the same values.
    pub fn same(&self, other: &Cells<T>) -> bool
        ensures { IsTrue result ↔ (self.now ≡ other.now) }
    {
        same_items(
            self.values.by_number.as_slice(),
            other.values.by_number.as_slice(),
        )
    }

    /// A second list of equal values, which it shares. Its only error is that no more owners can be counted.
    pub fn share(&self) -> Result<Cells<T>, AllocError>
        ensures { IfOk result (λ twin. twin ≡ self.now) }
    {
        Ok(Cells {
            values: self.values.clone()?,
        })
    }
}

/// Changes one of the values that may be shared; only this owner sees the change.
fn set_in<T: Cell>(values: &mut Rc<Values<T>>, number: usize, value: T) -> Result<(), AllocError>
    ensures { OnOk result (values.new.value.by_number.items ≡ slice_set values.old.value.by_number.items number value) }
{
    let own = Rc::make_mut(values)?;
    if number < own.by_number.len() {
        own.by_number[number] = value;
    }
    Ok(())
}

/// Second values, equal to these, made one by one. Its only error is want of memory.
fn shared<T: Kept>(alloc: Global, values: &[T]) -> Result<Vec<T>, AllocError>
    ensures { IfOk result (λ twins. twins.items ≡ values.now) }
{
    Ok(Items::from_slice(alloc, values)?.into_vec())
}
