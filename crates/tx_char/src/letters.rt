//! The bytes of a name, and the number that they are mixed to.
ghost use Rattle.std.specs.Int.{to_le_bytes, w64};
ghost use Rattle.std.specs.Prelude.{◌≡◌, ◌≤◌, ◌↔◌, drop, length, take, IfOk, IsTrue};
ghost use Rattle.tx_char.specs.Letters.{short_letters, letters_of};
ghost use Rattle.tx_char.specs.Letters as spec;

use crate::short::{Letters, SHORT, Short};
use std::alloc::{AllocError, Global};
use tx_bytes::Bytes;

/// Bytes are mixed to a number below this one.
const NUMBERS: usize = 4_294_967_296;

/// The number that the bytes of a name are mixed to.
pub fn mixed(bytes: &[u8]) -> usize
    ensures { result ≡ spec.mixed 0 bytes.now }
{
    let mut number: usize = 0;
    for byte in bytes {
        number = (number * 31 + *byte as usize) % NUMBERS;
    }
    number
}

/// These bytes, if there are few.
fn in_place(bytes: &[u8]) -> Short
    requires { length bytes.now ≤ 14 }
    ensures { short_letters result ≡ bytes.now }
{
    let mut kept = [0; 14];
    kept[..bytes.len()].copy_from_slice(bytes);
    Short {
        count: bytes.len() as u8,
        bytes: kept,
    }
}

/// Eight bytes of a short name, from this place on, as one number.
fn word(bytes: &[u8; 14], place: usize) -> u64
    requires { place ≤ 6 }
    ensures { to_le_bytes w64 result ≡ take 8 (drop place bytes.now) }
{
    u64::from_le_bytes([
        bytes[place],
        bytes[place + 1],
        bytes[place + 2],
        bytes[place + 3],
        bytes[place + 4],
        bytes[place + 5],
        bytes[place + 6],
        bytes[place + 7],
    ])
}

impl Short {
    /// The bytes that count, lent.
    fn as_slice(&self) -> &[u8]
        ensures { result.now ≡ short_letters self.now }
    {
        &self.bytes[..self.count as usize]
    }

    /// Whether both are as long, and stand in the same bytes. Two words, which overlap, cover all 14: that is quicker than a walk
    /// over those that count.
    fn stands_alike(&self, other: &Short) -> bool
        ensures { IsTrue result → short_letters self.now ≡ short_letters other.now }
    {
        if self.count != other.count {
            return false;
        }
        let (front, other_front) = (word(&self.bytes, 0), word(&other.bytes, 0));
        let (back, other_back) = (word(&self.bytes, 6), word(&other.bytes, 6));
        front == other_front && back == other_back
    }

    /// Whether both are the same bytes.
    fn same(&self, other: &Short) -> bool
        ensures { IsTrue result ↔ (short_letters self.now ≡ short_letters other.now) }
    {
        self.stands_alike(other) || self.as_slice() == other.as_slice()
    }
}

impl Letters {
    /// Whether both are the same bytes.
    pub(crate) fn same(&self, other: &Letters) -> bool
        ensures { IsTrue result ↔ (letters_of self.now ≡ letters_of other.now) }
    {
        match (self, other) {
            (Letters::Short(short), Letters::Short(other_short)) => short.same(other_short),
            (Letters::Short(short), Letters::Long(bytes)) => short.as_slice() == bytes.as_slice(),
            (Letters::Long(bytes), other) => bytes.as_slice() == other.as_slice(),
        }
    }

    /// These bytes; takes no memory.
    pub(crate) fn new(bytes: Bytes) -> Letters
        ensures { letters_of result ≡ bytes }
    {
        if bytes.len() <= SHORT {
            Letters::Short(in_place(bytes.as_slice()))
        } else {
            Letters::Long(bytes)
        }
    }

    /// A copy of these bytes. The only error is want of memory.
    pub(crate) fn from_slice(alloc: Global, bytes: &[u8]) -> Result<Letters, AllocError>
        ensures { IfOk result (λ letters. letters_of letters ≡ bytes.now) }
    {
        if bytes.len() <= SHORT {
            Ok(Letters::Short(in_place(bytes)))
        } else {
            Ok(Letters::Long(Bytes::from_slice(alloc, bytes)?))
        }
    }

    /// The bytes, lent.
    pub(crate) fn as_slice(&self) -> &[u8]
        ensures { result.now ≡ letters_of self.now }
    {
        match self {
            Letters::Short(short) => short.as_slice(),
            Letters::Long(bytes) => bytes.as_slice(),
        }
    }
}
