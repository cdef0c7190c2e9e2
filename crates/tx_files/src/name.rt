//! Names of files.
ghost use Rattle.std.specs.Prelude.{◌≡◌, ◌↔◌, IsTrue, IsSome, IfSome, IfOk};
ghost use Rattle.std.specs.List.{list_all};
ghost use Rattle.tx_files.specs.Names.{is_name, is_visible};

use std::alloc::AllocError;
use std::marker::Model;
use tx_bytes::Bytes;

fn are_visible(bytes: &[u8]) -> bool
    ensures { result ≡ list_all is_visible bytes.now }
{
    bytes.iter().all(|c| 33 <= *c && *c <= 126)
}

/// Whether these bytes are a name: 1 to 255 bytes, each 33 to 126.
pub fn is_name(bytes: &[u8]) -> bool
    ensures { result ≡ is_name bytes.now }
{
    1 <= bytes.len() && bytes.len() <= 255 && are_visible(bytes)
}

/// The name of a file: 1 to 255 printable characters of ASCII, none of them a space.
#[derive(Drop)]
pub struct Name {
    bytes: Bytes,
}

impl Model for Name {
    ghost use Rattle.std.specs.Prelude.{ℕ, List, IsTrue};
    ghost use Rattle.tx_files.specs.Names.{is_name};

    ghost Value = { List ℕ };

    ghost view = { λ n. n.bytes };

    ghost invariant = { λ n. IsTrue (is_name n.bytes) };
}

impl Name {
    /// The bytes as a name, exactly where they are one.
    pub fn new(bytes: Bytes) -> Option<Name>
        ensures is_one { IsSome result ↔ IsTrue (is_name bytes) }
        ensures value { IfSome result (λ name. name ≡ bytes) }
    {
        if is_name(bytes.as_slice()) {
            Some(Name { bytes })
        } else {
            None
        }
    }

    /// The name's bytes, lent.
    pub fn as_slice(&self) -> &[u8]
        ensures bytes { result.now ≡ self.now }
        ensures named { IsTrue (is_name self.now) }
    {
        self.bytes.as_slice()
    }

    /// The name's bytes; takes no memory.
    pub fn into_bytes(self) -> Bytes
        ensures { result ≡ self }
    {
        let Name { bytes } = self;
        bytes
    }
}

/// A clone is the same name. Its only error is want of memory.
impl Clone for Name {
    ghost is_clone = { λ source copy. copy ≡ source };

    fn clone(&self) -> Result<Self, AllocError> {
        Ok(Name {
            bytes: self.bytes.clone()?,
        })
    }
}
