//! A formula's box that fits its line.
use tx_pack::Packed;

/// The box of a display's formula as it fits the line, and how much the number's box takes beside it, in sp: 0 where that doesn't
/// stand there.
#[derive(Drop)]
pub(crate) struct Fitted {
    pub made: Packed,
    pub beside: i32,
}
