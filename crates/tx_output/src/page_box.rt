//! The box of a page that was fired.
ghost use Rattle.std.specs.Prelude.{◌≡◌, ◌≢◌, ◌&&◌, IfOk, IfErr, Ok, Err};
ghost use Rattle.tx_output.specs.declared.error.OutputError.TheVariants.{OutOfMemory};
ghost use Rattle.tx_output.specs.Outputs as spec;

use crate::error::OutputError;
use std::alloc::Global;
use tx_bytes::Bytes;
use tx_node::Nodes;
use tx_num::{GREATEST_DIMENSION, fits};
use tx_pack::{Goal, PackError, PackParams, Packed, vpack};

impl From<PackError> for OutputError {
    ghost from_gives = { λ e r. r ≡ spec.of_packing e };

    fn from(error: PackError) -> Self {
        match error {
            PackError::SizeOutOfRange => OutputError::SizeOutOfRange,
            PackError::TooDeep => OutputError::TooDeep,
            PackError::OutOfMemory => OutputError::OutOfMemory,
        }
    }
}

/// Whether two sizes are dimensions.
fn both_fit(goal: i64, maxdepth: i64) -> bool
    ensures { result ≡ (spec.is_dimension goal && spec.is_dimension maxdepth) }
{
    fits(goal) && fits(maxdepth)
}

/// A list in a box of a height, at most so deep, both in sp, of which nothing is told. `SizeOutOfRange` where the height or the
/// greatest depth is no dimension, or the list can't be packed; else `TooDeep` where boxes would nest too deep.
#[tactic(auto, unfolding(crate::specs::Outputs::page_box))]
pub(crate) fn page_box(
    alloc: Global,
    list: Nodes,
    goal: i64,
    maxdepth: i64,
) -> Result<Packed, OutputError>
    ensures ok { IfOk result (λ made. spec.page_box list goal maxdepth ≡ Ok made) }
    ensures error { IfErr result (λ e. e ≢ OutOfMemory → spec.page_box list goal maxdepth ≡ Err e) }
{
    if !both_fit(goal, maxdepth) {
        return Err(OutputError::SizeOutOfRange);
    }
    let silent = PackParams {
        badness: 10_000,
        fuzz: GREATEST_DIMENSION,
        overfull_rule: 0,
    };
    let Packed { node, badness, .. } = vpack(alloc, list, Goal::To(goal), maxdepth, &silent)?;
    Ok(Packed {
        node,
        badness,
        report: Bytes::new(alloc),
    })
}
