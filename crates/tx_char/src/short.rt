//! Where the bytes of a name lie.
ghost use Rattle.std.specs.Prelude.{◌≤◌};

use tx_bytes::Bytes;

/// So many bytes stand in place: few names have more.
pub(crate) const SHORT: usize = 14;

/// The bytes of a short name, and how many of them count.
#[derive(Clone, Copy)]
pub(crate) struct Short {
    pub(crate) count: u8,
    pub(crate) bytes: [u8; 14],
    ghost within: { count ≤ 14 },
}

/// The bytes of a name: in place, or on their own.
#[derive(Drop)]
pub(crate) enum Letters {
    Short(Short),
    Long(Bytes),
}
