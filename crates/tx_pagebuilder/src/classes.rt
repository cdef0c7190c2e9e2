//! The classes of insertions on a page.
ghost use Rattle.std.specs.Prelude.{◌≡◌, ◌↔◌, [], IsTrue, IfOk, OnOk};
ghost use Rattle.tx_pagebuilder.specs.Inserts as spec;

use crate::class::Class;
use std::alloc::{AllocError, Global};
use std::marker::Model;
use tx_list::{Items, same_items};

/// The classes on a page. Contracts see the list of them.
#[derive(Drop)]
pub struct Classes {
    items: Vec<Class>,
}

impl Model for Classes {
    ghost use Rattle.std.specs.Prelude.{List};
    ghost use Rattle.tx_pagebuilder.specs.declared.class.Class.{Class};

    ghost Value = { List Class };

    ghost view = { λ c. c.items.items };
}

impl Classes {
    /// No classes; takes no memory.
    pub fn new(alloc: Global) -> Classes
        ensures { result ≡ [] }
    {
        Classes {
            items: Vec::new(alloc),
        }
    }

    /// The classes, lent.
    pub fn as_slice(&self) -> &[Class]
        ensures { result.now ≡ self.now }
    {
        self.items.as_slice()
    }

    /// Sets what a class now is, behind the others where it is new. Its only error is want of memory.
    pub fn set(&mut self, class: Class) -> Result<(), AllocError>
        ensures { OnOk result (self.new ≡ spec.with_class class self.old) }
    {
        let place = place_of(class.number, &self.items);
        if place < self.items.len() {
            self.items[place] = class;
        } else {
            self.items.push(class)?;
        }
        Ok(())
    }

    /// Whether both are the same classes.
    pub fn same(&self, other: &Classes) -> bool
        ensures { IsTrue result ↔ (self.now ≡ other.now) }
    {
        same_items(self.as_slice(), other.as_slice())
    }

    /// The same classes once more. Its only error is want of memory.
    pub fn share(&self) -> Result<Classes, AllocError>
        ensures { IfOk result (λ twin. twin ≡ self.now) }
    {
        let twins = Items::from_slice(*self.items.allocator(), self.as_slice())?;
        Ok(Classes {
            items: twins.into_vec(),
        })
    }
}

/// Where a class stands among others, their count where it doesn't.
fn place_of(number: u8, classes: &[Class]) -> usize
    ensures { result ≡ spec.place_of number classes.now }
{
    for place in 0..classes.len() {
        if classes[place].number == number {
            return place;
        }
    }
    classes.len()
}

/// The class of a number, None where it isn't among these.
pub(crate) fn class_of(number: u8, classes: &[Class]) -> Option<Class>
    ensures { result ≡ spec.class_of number classes.now }
{
    classes.get(place_of(number, classes)).copied()
}
