//! A display in the vertical list.
ghost use Rattle.std.specs.Prelude.{◌≡◌, ◌≢◌, ◌≤◌, ◌^◌, unsigned_abs, IfOk, IfErr, Ok, Err};
ghost use Rattle.tx_num.specs.Glue.{IsDimension};
ghost use Rattle.tx_display.specs.declared.error.DisplayError.TheVariants.{OutOfMemory};
ghost use Rattle.tx_display.specs.Displays as spec;

use crate::appending::append_arranged;
use crate::arranged::{Arranged, Stand};
use crate::arranging::{arrange, stand_of};
use crate::error::DisplayError;
use crate::fitted::Fitted;
use crate::fitting::{fit, is_left, number_width};
use crate::types::{DisplayParams, EquationNumber, Told};
use std::alloc::Global;
use tx_bytes::Bytes;
use tx_nest::ModeList;
use tx_node::Nodes;
use tx_num::fits;
use tx_pack::Packed;

/// The lines of a display stand at the end of a list, with what left the formula's box, of which this is told.
#[tactic(auto, unfolding(crate::specs::Displays::set_out))]
fn set_out(
    alloc: Global,
    list: &mut ModeList,
    params: &DisplayParams,
    arranged: Arranged,
    behind: Nodes,
    report: Bytes,
) -> Result<Told, DisplayError>
    ensures told { IfOk result (λ told. spec.set_out params.now behind report list.old arranged ≡ Ok (record { list = list.new; badness = told.badness; report = told.report })) }
    ensures error { IfErr result (λ e. e ≢ OutOfMemory → spec.set_out params.now behind report list.old arranged ≡ Err e) }
{
    let badness = arranged.badness;
    append_arranged(alloc, list, params, arranged, behind)?;
    Ok(Told { badness, report })
}

/// The same of a formula that stands so, and its number, if it has one.
#[tactic(auto, unfolding(crate::specs::Displays::stood))]
fn place_stand(
    alloc: Global,
    list: &mut ModeList,
    params: &DisplayParams,
    number: Option<EquationNumber>,
    stand: Stand,
    behind: Nodes,
    report: Bytes,
) -> Result<Told, DisplayError>
    requires rule { IsDimension params.now.packing.overfull_rule }
    requires left { unsigned_abs stand.left ≤ 2 ^ 34 }
    ensures told { IfOk result (λ told. spec.stood params.now number stand behind report list.old ≡ Ok (record { list = list.new; badness = told.badness; report = told.report })) }
    ensures error { IfErr result (λ e. e ≢ OutOfMemory → spec.stood params.now number stand behind report list.old ≡ Err e) }
{
    let arranged = arrange(alloc, params, number, stand)?;
    set_out(alloc, list, params, arranged, behind, report)
}

/// The same of a formula's box that fits its line.
#[tactic(auto, unfolding(crate::specs::Displays::placed))]
fn place(
    alloc: Global,
    list: &mut ModeList,
    params: &DisplayParams,
    number: Option<EquationNumber>,
    fitted: Fitted,
    behind: Nodes,
) -> Result<Told, DisplayError>
    requires rule { IsDimension params.now.packing.overfull_rule }
    ensures told { IfOk result (λ told. spec.placed params.now number behind list.old fitted ≡ Ok (record { list = list.new; badness = told.badness; report = told.report })) }
    ensures error { IfErr result (λ e. e ≢ OutOfMemory → spec.placed params.now number behind list.old fitted ≡ Err e) }
{
    let Fitted { made, beside } = fitted;
    let Packed {
        node,
        badness,
        report,
    } = made;
    let at_left = is_left(&number);
    let stood = stand_of(params, at_left, beside, node, badness);
    place_stand(alloc, list, params, number, stood, behind, report)
}

/// The same of the formula's list, where \overfullrule is a dimension.
#[tactic(auto, unfolding(crate::specs::Displays::displaying))]
fn display(
    alloc: Global,
    list: &mut ModeList,
    params: &DisplayParams,
    number: Option<EquationNumber>,
    own: Nodes,
    behind: Nodes,
) -> Result<Told, DisplayError>
    requires rule { IsDimension params.now.packing.overfull_rule }
    requires quad { unsigned_abs params.now.quad ≤ 2 ^ 31 }
    ensures told { IfOk result (λ told. spec.displaying params.now number own behind list.old ≡ Ok (record { list = list.new; badness = told.badness; report = told.report })) }
    ensures error { IfErr result (λ e. e ≢ OutOfMemory → spec.displaying params.now number own behind list.old ≡ Err e) }
{
    let beside = number_width(&number);
    let fitted = fit(alloc, params, beside, own)?;
    place(alloc, list, params, number, fitted, behind)
}

/// A display at the end of a vertical list (TeX: The Program, sections 1199 to 1205): what stands in the formula's box, which is
/// packed so that it fits the line, the number of the equation, if it has one, what left the box, and glue and penalties. The answer is
/// how bad the box is that was packed last, and what is told of the formula's box.
///
/// `SizeOutOfRange` exactly where a size of a box, the kern between the formula and its number, the shift of a line or the leading
/// before it is no dimension, or \overfullrule is none; `TooDeep` exactly where boxes would nest more than 500 deep. After an error the
/// list may only be dropped.
#[tactic(auto, unfolding(crate::specs::Displays::displayed))]
pub fn append_display(
    alloc: Global,
    list: &mut ModeList,
    params: &DisplayParams,
    number: Option<EquationNumber>,
    own: Nodes,
    behind: Nodes,
) -> Result<Told, DisplayError>
    requires quad { unsigned_abs params.now.quad ≤ 2 ^ 31 }
    ensures told { IfOk result (λ told. spec.displayed params.now number own behind list.old ≡ Ok (record { list = list.new; badness = told.badness; report = told.report })) }
    ensures error { IfErr result (λ e. e ≢ OutOfMemory → spec.displayed params.now number own behind list.old ≡ Err e) }
{
    if fits(params.packing.overfull_rule) {
        display(alloc, list, params, number, own, behind)
    } else {
        Err(DisplayError::SizeOutOfRange)
    }
}
