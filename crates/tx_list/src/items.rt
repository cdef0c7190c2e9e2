//! The list.
ghost use Rattle.std.specs.Prelude.{◌≡◌, ◌↔◌, ◌∷◌, ◌++◌, ◌<◌, ◌-◌, [], length, slice_index_or, slice_set, take, IsTrue, IfOk, OnOk, OnErr, MatchOption};
ghost use Rattle.std.specs.Borrow.{sem};

use crate::kept::Kept;
use std::alloc::{AllocError, Global};
use std::marker::Model;

/// Values in their order. Contracts see an `Items` as the list of them.
#[derive(Drop)]
pub struct Items<T> {
    values: Vec<T>,
}

impl<T> Model for Items<T> {
    ghost use Rattle.std.specs.Prelude.{List};

    ghost Value = { List T };

    ghost view = { λ i. i.values.items };
}

impl<T> Items<T> {
    ghost use Rattle.tx_list.specs.Lending.{LendsItem};

    /// No values; takes no memory.
    pub fn new(alloc: Global) -> Items<T>
        ensures { result ≡ [] }
    {
        Items {
            values: Vec::new(alloc),
        }
    }

    /// These values; takes no memory.
    pub fn from_vec(values: Vec<T>) -> Items<T>
        ensures { result ≡ values.items }
    {
        Items { values }
    }

    /// Gives the values back; takes no memory.
    pub fn into_vec(self) -> Vec<T>
        ensures { result.items ≡ self }
    {
        let Items { values } = self;
        values
    }

    /// The values, lent.
    pub fn as_slice(&self) -> &[T]
        ensures { result.now ≡ self.now }
    {
        self.values.as_slice()
    }

    /// The value at this place, counted from 0, lent to be changed.
    #[inline(always)]
    pub fn item_mut(&mut self, place: usize) -> &mut T
        requires { place < length self.old }
        ensures* writes_back { sem 𝓛 (LendsItem T.row self.entry place result) }
        ensures value { result.now ≡ slice_index_or self.old place result.now }
    {
        &mut self.values[place]
    }

    /// How many there are.
    pub fn len(&self) -> usize
        ensures { result ≡ length self.now }
    {
        self.values.len()
    }

    /// Whether there is none.
    pub fn is_empty(&self) -> bool
        ensures { IsTrue result ↔ (self.now ≡ []) }
    {
        self.values.is_empty()
    }

    /// Takes the last value, if there is one.
    pub fn pop(&mut self) -> Option<T>
        ensures { MatchOption result ((self.old ≡ []) × (self.new ≡ [])) (λ value. self.old ≡ self.new ++ value ∷ []) }
    {
        self.values.pop()
    }
}

impl<T: Drop> Items<T> {
    /// One value. Its only error is want of memory.
    pub fn one(alloc: Global, value: T) -> Result<Items<T>, AllocError>
        ensures { IfOk result (λ items. items ≡ value ∷ []) }
    {
        let mut items = Items::new(alloc);
        items.push(value)?;
        Ok(items)
    }

    /// Puts a value behind the others. After want of memory nothing has changed.
    #[inline(always)]
    pub fn push(&mut self, value: T) -> Result<(), AllocError>
        ensures ok { OnOk result (self.new ≡ self.old ++ value ∷ []) }
        ensures err { OnErr result (self.new ≡ self.old) }
    {
        self.values.push(value)?;
        Ok(())
    }

    /// Moves the values of another list behind the others. After want of memory nothing has changed.
    pub fn append(&mut self, others: &mut Items<T>) -> Result<(), AllocError>
        ensures ok { OnOk result ((self.new ≡ self.old ++ others.old) × (others.new ≡ [])) }
        ensures err { OnErr result ((self.new ≡ self.old) × (others.new ≡ others.old)) }
    {
        self.values.append(&mut others.values)
    }

    /// Keeps the first values, so many of them, in the memory that the list has.
    pub fn truncate(&mut self, count: usize)
        ensures { self.new ≡ take count self.old }
    {
        self.values.truncate(count);
    }

    /// Keeps none, in the memory that the list has.
    pub fn clear(&mut self)
        ensures { self.new ≡ [] }
    {
        self.values.clear();
    }
}

impl<T: Drop> Items<Items<T>> {
    /// Puts a value at the end of the last list. After want of memory nothing has changed.
    pub fn push_to_last(&mut self, value: T) -> Result<(), AllocError>
        requires { 0 < length self.old }
        ensures ok { OnOk result (self.new ≡ slice_set self.old (length self.old - 1) (slice_index_or self.old (length self.old - 1) [] ++ value ∷ [])) }
        ensures err { OnErr result (self.new ≡ self.old) }
    {
        let last = self.values.len() - 1;
        self.values[last].push(value)
    }
}

impl<T: Kept> Items<T> {
    /// Whether both have the same values.
    pub fn same(&self, other: &Items<T>) -> bool
        ensures { IsTrue result ↔ (self.now ≡ other.now) }
    {
        same_items(self.as_slice(), other.as_slice())
    }

    /// A list of values equal to these. Its only error is want of memory.
    pub fn from_slice(alloc: Global, values: &[T]) -> Result<Items<T>, AllocError>
        ensures { IfOk result (λ items. items ≡ values.now) }
    {
        let mut twins = Vec::with_capacity(alloc, values.len())?;
        for value in values {
            twins.push(value.share()?)?;
        }
        Ok(Items { values: twins })
    }

    /// A second list of equal values. Its only error is want of memory.
    pub fn share(&self) -> Result<Items<T>, AllocError>
        ensures { IfOk result (λ twin. twin ≡ self.now) }
    {
        Items::from_slice(*self.values.allocator(), self.as_slice())
    }
}

impl<T: Kept> Kept for Items<T> {
    fn share(&self) -> Result<Self, AllocError> {
        Items::share(self)
    }

    fn same(&self, other: &Self) -> bool {
        Items::same(self, other)
    }
}

/// A clone has equal values. Its only error is want of memory.
impl<T: Kept> Clone for Items<T> {
    ghost is_clone = { λ source copy. copy ≡ source };

    fn clone(&self) -> Result<Self, AllocError> {
        Items::share(self)
    }
}

/// Whether both lists have the same values.
pub fn same_items<T: Kept>(some: &[T], others: &[T]) -> bool
    ensures { IsTrue result ↔ (some.now ≡ others.now) }
{
    if some.len() != others.len() {
        return false;
    }
    for k in 0..some.len() {
        if !some[k].same(&others[k]) {
            return false;
        }
    }
    true
}
