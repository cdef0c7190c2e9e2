//! The number of an equation.
ghost use Rattle.std.specs.Prelude.{◌≡◌, ◌≢◌, IfOk, IfErr, Ok, Err};
ghost use Rattle.tx_display.specs.declared.error.DisplayError.TheVariants.{OutOfMemory};
ghost use Rattle.tx_display.specs.Displays as spec;

use crate::error::DisplayError;
use crate::types::EquationNumber;
use std::alloc::Global;
use tx_node::Nodes;
use tx_num::fits;
use tx_pack::{Goal, PackParams, Packed, hpack};
use tx_prim::NumberSide;

/// The number of an equation, on this side: the list of its formula in a box of its natural size. The errors are those of packing,
/// and `SizeOutOfRange` where \overfullrule is no dimension.
#[tactic(auto, unfolding(crate::specs::Displays::number_of))]
pub fn number_of(
    alloc: Global,
    side: NumberSide,
    params: &PackParams,
    list: Nodes,
) -> Result<EquationNumber, DisplayError>
    ensures number { IfOk result (λ number. spec.number_of side params.now list ≡ Ok number) }
    ensures error { IfErr result (λ e. e ≢ OutOfMemory → spec.number_of side params.now list ≡ Err e) }
{
    if !fits(params.overfull_rule) {
        return Err(DisplayError::SizeOutOfRange);
    }
    let Packed { node, .. } = hpack(alloc, list, Goal::Natural, params)?;
    Ok(EquationNumber { side, packed: node })
}
