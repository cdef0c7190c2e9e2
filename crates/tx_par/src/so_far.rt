//! What is set so far.
use tx_bytes::Bytes;
use tx_nest::ModeList;

/// The lines so far in the vertical list, the place of the last one there, how bad this is, and the transcript's lines of them.
#[derive(Drop)]
pub(crate) struct SoFar {
    pub list: ModeList,
    pub last: usize,
    pub badness: i64,
    pub report: Bytes,
}
