//! The names that are there already, and those that reading makes.
ghost use Rattle.std.specs.Prelude.{◌≡◌, IfOk, IfSome};
ghost use Rattle.std.specs.Option.{option_copied};

use std::alloc::{AllocError, Global};
use tx_char::ControlName;

/// Names that are there already, as a table of meanings has them: one that is read again takes no memory of its own.
pub trait KnownNames {
    /// The name of these letters, lent, if it is one of them.
    fn find(&self, letters: &[u8]) -> Option<&ControlName>
        ensures same { IfSome (option_copied result) (λ name. name ≡ letters.now) };
}

/// No name is known, so each that is read takes memory of its own.
#[derive(Clone, Copy)]
pub struct NoNames;

impl KnownNames for NoNames {
    fn find(&self, _letters: &[u8]) -> Option<&ControlName> {
        None
    }
}

/// The name of these letters: the known one, of which one more owner is answered, or else a new one. Its only error is want of
/// memory.
pub(crate) fn name_of<K: KnownNames>(
    alloc: Global,
    known: &K,
    letters: &[u8],
) -> Result<ControlName, AllocError>
    ensures { IfOk result (λ name. name ≡ letters.now) }
{
    match known.find(letters) {
        Some(name) => name.clone(),
        None => ControlName::from_slice(alloc, letters),
    }
}
