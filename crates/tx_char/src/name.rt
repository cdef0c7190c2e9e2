//! The names of control sequences.
ghost use Rattle.std.specs.Prelude.{◌≡◌, ◌↔◌, IsTrue, IfOk};
ghost use Rattle.tx_char.specs.Letters as spec;

use crate::letters::mixed;
use crate::short::Letters;
use std::alloc::{AllocError, Global};
use std::marker::Model;
use std::rc::Rc;
use tx_bytes::Bytes;
use tx_list::Kept;

/// The name of a control sequence, without its escape character; it may be empty. Contracts see the list of its bytes.
/// Clones share them; a short name stands in one piece of memory. Beside them stands the number that they are mixed to, so that a
/// table that finds the name by it needn't read them each time, and most other names are told from it at a glance.
#[derive(Drop)]
pub struct ControlName {
    spelled: Rc<Spelled>,
}

/// The bytes of a name and their number, which `ControlName` shares.
#[derive(Drop)]
struct Spelled {
    number: usize,
    letters: Letters,
}

impl Model for ControlName {
    ghost use Rattle.std.specs.Prelude.{◌≡◌, List, ℕ};
    ghost use Rattle.tx_char.specs.Letters.{letters_of, mixed};

    ghost Value = { List ℕ };

    ghost view = { λ n. letters_of n.spelled.value.letters };

    ghost invariant = { λ n. n.spelled.value.number ≡ mixed 0 (letters_of n.spelled.value.letters) };
}

impl ControlName {
    /// The name of these bytes. Its only error is want of memory.
    pub fn new(alloc: Global, bytes: Bytes) -> Result<ControlName, AllocError>
        ensures { IfOk result (λ name. name ≡ bytes) }
    {
        let number = mixed(bytes.as_slice());
        let letters = Letters::new(bytes);
        Ok(ControlName {
            spelled: Rc::new(alloc, Spelled { number, letters })?,
        })
    }

    /// The name with a copy of these bytes. Its only error is want of memory.
    pub fn from_slice(alloc: Global, bytes: &[u8]) -> Result<ControlName, AllocError>
        ensures { IfOk result (λ name. name ≡ bytes.now) }
    {
        let number = mixed(bytes);
        let letters = Letters::from_slice(alloc, bytes)?;
        Ok(ControlName {
            spelled: Rc::new(alloc, Spelled { number, letters })?,
        })
    }

    /// The bytes of the name, lent.
    pub fn as_slice(&self) -> &[u8]
        ensures { result.now ≡ self.now }
    {
        self.spelled.letters.as_slice()
    }

    /// The number that the bytes of the name are mixed to.
    #[inline(always)]
    pub fn number(&self) -> usize
        ensures { result ≡ spec.mixed 0 self.now }
    {
        self.spelled.number
    }

    /// Whether both have the same bytes.
    pub fn same(&self, other: &ControlName) -> bool
        ensures { IsTrue result ↔ (self.now ≡ other.now) }
    {
        self.number() == other.number() && self.spelled.letters.same(&other.spelled.letters)
    }
}

/// A clone shares the bytes. Its only error is that no more owners can be counted.
impl Clone for ControlName {
    ghost is_clone = { λ source copy. copy ≡ source };

    fn clone(&self) -> Result<Self, AllocError> {
        Ok(ControlName {
            spelled: self.spelled.clone()?,
        })
    }
}

impl Kept for ControlName {
    fn share(&self) -> Result<Self, AllocError> {
        self.clone()
    }

    fn same(&self, other: &Self) -> bool {
        ControlName::same(self, other)
    }
}
