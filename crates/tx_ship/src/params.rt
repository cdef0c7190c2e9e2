//! What shipping takes from TeX's parameters and registers.
use tx_bytes::Bytes;

/// The parameters of a \shipout.
#[derive(Drop)]
pub struct ShipParams {
    /// The numbers of the fonts that earlier pages define, as the DVI file has them: 0 is that of the font loaded first.
    pub defined: Bytes,
    /// \count0 to \count9.
    pub counts: [i32; 10],
    /// \hoffset and \voffset, in sp.
    pub hoffset: i64,
    pub voffset: i64,
    /// \mag, 1 to 32768.
    pub mag: i64,
    /// \year, \month, \day and \time (minutes since midnight), which a document may set to anything.
    pub year: i32,
    pub month: i32,
    pub day: i32,
    pub time: i32,
}
