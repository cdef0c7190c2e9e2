//! The stack.
ghost use Rattle.std.specs.Prelude.{◌≡◌, ◌↔◌, ◌∷◌, ◌<◌, [], drop, length, option_copied, reverse, slice_get, slice_index_or, IsTrue, IfOk, OnOk, OnErr, MatchOption};
ghost use Rattle.std.specs.Borrow.{sem};

use crate::items::Items;
use crate::kept::Kept;
use std::alloc::{AllocError, Global};
use std::marker::Model;

/// Values of which the newest is taken first. Contracts see a `Stack` as the list of them, the newest first.
#[derive(Drop)]
pub struct Stack<T> {
    oldest_first: Items<T>,
}

impl<T> Model for Stack<T> {
    ghost use Rattle.std.specs.Prelude.{List, reverse};

    ghost Value = { List T };

    ghost view = { λ s. reverse s.oldest_first };
}

impl<T> Stack<T> {
    ghost use Rattle.tx_list.specs.Lending.{LendsFirst};

    /// No values; takes no memory.
    pub fn new(alloc: Global) -> Stack<T>
        ensures { result ≡ [] }
    {
        Stack {
            oldest_first: Items::new(alloc),
        }
    }

    /// How many there are.
    pub fn len(&self) -> usize
        ensures { result ≡ length self.now }
    {
        self.oldest_first.len()
    }

    /// Whether there is none.
    pub fn is_empty(&self) -> bool
        ensures { IsTrue result ↔ (self.now ≡ []) }
    {
        self.oldest_first.is_empty()
    }

    /// The values, lent, the oldest first.
    pub fn as_slice(&self) -> &[T]
        ensures { reverse result.now ≡ self.now }
    {
        self.oldest_first.as_slice()
    }

    /// The newest value, lent to be changed.
    #[inline(always)]
    pub fn first_mut(&mut self) -> &mut T
        requires { 0 < length self.old }
        ensures* writes_back { sem 𝓛 (LendsFirst T.row self.entry result) }
        ensures value { result.now ≡ slice_index_or self.old 0 result.now }
    {
        let last = self.oldest_first.len() - 1;
        self.oldest_first.item_mut(last)
    }

    /// The newest value, lent, if there is one.
    #[inline(always)]
    pub fn first(&self) -> Option<&T>
        ensures { option_copied result ≡ slice_get self.now 0 }
    {
        self.oldest_first.as_slice().last()
    }

    /// Takes the newest value, if there is one.
    pub fn pop(&mut self) -> Option<T>
        ensures { MatchOption result ((self.old ≡ []) × (self.new ≡ [])) (λ value. self.old ≡ value ∷ self.new) }
    {
        self.oldest_first.pop()
    }
}

impl<T: Drop> Stack<T> {
    /// Puts a value on the others. After want of memory nothing has changed.
    pub fn push(&mut self, value: T) -> Result<(), AllocError>
        ensures ok { OnOk result (self.new ≡ value ∷ self.old) }
        ensures err { OnErr result (self.new ≡ self.old) }
    {
        self.oldest_first.push(value)
    }

    /// Drops the newest value, if there is one.
    pub fn drop_first(&mut self)
        ensures { self.new ≡ drop 1 self.old }
    {
        self.oldest_first.pop();
    }
}

impl<T: Kept> Stack<T> {
    /// Whether both have the same values.
    pub fn same(&self, other: &Stack<T>) -> bool
        ensures { IsTrue result ↔ (self.now ≡ other.now) }
    {
        self.oldest_first.same(&other.oldest_first)
    }

    /// A second stack of equal values. Its only error is want of memory.
    pub fn share(&self) -> Result<Stack<T>, AllocError>
        ensures { IfOk result (λ twin. twin ≡ self.now) }
    {
        Ok(Stack {
            oldest_first: self.oldest_first.share()?,
        })
    }
}

impl<T: Kept> Kept for Stack<T> {
    fn share(&self) -> Result<Self, AllocError> {
        Stack::share(self)
    }

    fn same(&self, other: &Self) -> bool {
        Stack::same(self, other)
    }
}

/// A clone has equal values. Its only error is want of memory.
impl<T: Kept> Clone for Stack<T> {
    ghost is_clone = { λ source copy. copy ≡ source };

    fn clone(&self) -> Result<Self, AllocError> {
        Stack::share(self)
    }
}
