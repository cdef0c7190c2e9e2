//! What a box is packed to, and what packing gives.
ghost use Rattle.std.specs.Prelude.{◌≡◌};
ghost use Rattle.tx_pack.specs.declared.types.PackError.TheVariants.{OutOfMemory};

use std::alloc::AllocError;
use thiserror::Error;
use tx_bytes::Bytes;
use tx_node::BoxNode;

/// What a list is packed to: its natural size, so many sp, or so many more than that.
#[derive(Clone, Copy)]
pub enum Goal {
    Natural,
    To(i64),
    Spread(i64),
}

/// The parameters of packing: \hbadness or \vbadness, \hfuzz or \vfuzz in sp, and \overfullrule in sp.
#[derive(Clone, Copy)]
pub struct PackParams {
    pub badness: i64,
    pub fuzz: i64,
    pub overfull_rule: i64,
}

/// The box, how bad it is, and the transcript's line of it, if it has one.
#[derive(Drop)]
pub struct Packed {
    pub node: BoxNode,
    pub badness: i64,
    pub report: Bytes,
}

/// How high and how deep a list is, in sp.
#[derive(Clone, Copy)]
pub struct Extent {
    pub height: i32,
    pub depth: i32,
}

/// Why a list can't be packed.
#[derive(Clone, Copy, Debug, Error)]
pub enum PackError {
    #[error("a sum of sizes leaves the range of dimensions")]
    SizeOutOfRange,
    #[error("a box would nest more than 500 deep")]
    TooDeep,
    #[error("out of memory")]
    OutOfMemory,
}

impl From<AllocError> for PackError {
    ghost from_gives = { λ _ e. e ≡ OutOfMemory };

    fn from(_: AllocError) -> Self {
        PackError::OutOfMemory
    }
}
