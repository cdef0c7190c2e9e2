//! What stands in the vertical list of a display: glue and penalties, and its lines with their leading.
ghost use Rattle.std.specs.Prelude.{◌≡◌, ◌≢◌, IfErr, OnOk, Ok, Err};
ghost use Rattle.tx_display.specs.declared.error.DisplayError.TheVariants.{OutOfMemory};
ghost use Rattle.tx_display.specs.Appending as spec;

use crate::arranged::Arranged;
use crate::error::DisplayError;
use crate::sizes::{minus, plus, stored};
use crate::types::DisplayParams;
use std::alloc::{AllocError, Global};
use tx_nest::{LeadingParams, ModeList, append_box, append_item, append_items};
use tx_node::{BoxNode, Node, Nodes, Plain};
use tx_num::Glue;

/// A penalty between the lines of a display at which no page is broken.
const NO_BREAK: i32 = 10_000;

/// Puts a penalty at the end of a list. Its only error is want of memory.
fn put_penalty(list: &mut ModeList, penalty: i32) -> Result<(), AllocError>
    ensures { OnOk result (list.new ≡ spec.with_penalty list.old penalty) }
{
    append_item(list, Node::Plain(Plain::Penalty(penalty)))
}

/// Puts glue at the end of a list. Its only error is want of memory.
fn put_glue(list: &mut ModeList, glue: Glue) -> Result<(), AllocError>
    ensures { OnOk result (list.new ≡ spec.with_glue list.old glue) }
{
    append_item(list, Node::Plain(Plain::Glue(glue)))
}

/// Puts a box that is shifted by so many sp, which has to be a dimension, at the end of a list, behind its leading. After an error the
/// list may only be dropped, here and in all that follows.
#[tactic(auto, unfolding(crate::specs::Appending::box_put))]
fn put_box(
    alloc: Global,
    list: &mut ModeList,
    leading: &LeadingParams,
    shift: i64,
    packed: BoxNode,
) -> Result<(), DisplayError>
    ensures put { OnOk result (spec.box_put leading.now list.old shift packed ≡ Ok list.new) }
    ensures error { IfErr result (λ e. e ≢ OutOfMemory → spec.box_put leading.now list.old shift packed ≡ Err e) }
{
    let by = stored(shift)?;
    append_box(alloc, list, leading, by, packed)?;
    Ok(())
}

/// Puts the number above the formula.
#[tactic(auto, unfolding(crate::specs::Appending::number_above))]
fn put_number_above(
    alloc: Global,
    list: &mut ModeList,
    params: &DisplayParams,
    number: BoxNode,
) -> Result<(), DisplayError>
    ensures put { OnOk result (spec.number_above params.now list.old number ≡ Ok list.new) }
    ensures error { IfErr result (λ e. e ≢ OutOfMemory → spec.number_above params.now list.old number ≡ Err e) }
{
    put_box(
        alloc,
        list,
        &params.leading,
        i64::from(params.place.indent),
        number,
    )?;
    put_penalty(list, NO_BREAK)?;
    Ok(())
}

/// The glue above the formula.
fn above_glue(params: &DisplayParams, close: bool) -> Glue
    ensures { result ≡ spec.above_glue params.now close }
{
    if close {
        params.above_skip
    } else {
        params.above_short_skip
    }
}

/// Puts the number above the formula, or glue, if none stands there.
#[tactic(auto, unfolding(crate::specs::Appending::above_by))]
fn put_number_or_glue(
    alloc: Global,
    list: &mut ModeList,
    params: &DisplayParams,
    close: bool,
    number: Option<BoxNode>,
) -> Result<(), DisplayError>
    ensures put { OnOk result (spec.above_by params.now close number list.old ≡ Ok list.new) }
    ensures error { IfErr result (λ e. e ≢ OutOfMemory → spec.above_by params.now close number list.old ≡ Err e) }
{
    match number {
        Some(number) => put_number_above(alloc, list, params, number),
        None => {
            put_glue(list, above_glue(params, close))?;
            Ok(())
        }
    }
}

/// Puts what stands above the formula: \predisplaypenalty, and a number or glue.
#[tactic(auto, unfolding(crate::specs::Appending::above))]
fn put_above(
    alloc: Global,
    list: &mut ModeList,
    params: &DisplayParams,
    close: bool,
    number: Option<BoxNode>,
) -> Result<(), DisplayError>
    ensures put { OnOk result (spec.above params.now close number list.old ≡ Ok list.new) }
    ensures error { IfErr result (λ e. e ≢ OutOfMemory → spec.above params.now close number list.old ≡ Err e) }
{
    put_penalty(list, params.pre_penalty)?;
    put_number_or_glue(alloc, list, params, close, number)
}

/// Where the number below the formula stands, in sp.
#[tactic(auto, unfolding(crate::specs::Appending::shift_below))]
fn shift_below(params: &DisplayParams, number: &BoxNode) -> i64
    ensures { result ≡ spec.shift_below params.now number.now }
{
    let edge = plus(
        i64::from(params.place.indent),
        i64::from(params.place.width),
    );
    minus(edge, i64::from(number.width()))
}

/// Puts the number below the formula.
#[tactic(auto, unfolding(crate::specs::Appending::number_below))]
fn put_number_below(
    alloc: Global,
    list: &mut ModeList,
    params: &DisplayParams,
    number: BoxNode,
) -> Result<(), DisplayError>
    ensures put { OnOk result (spec.number_below params.now number list.old ≡ Ok list.new) }
    ensures error { IfErr result (λ e. e ≢ OutOfMemory → spec.number_below params.now number list.old ≡ Err e) }
{
    put_penalty(list, NO_BREAK)?;
    let shift = shift_below(params, &number);
    put_box(alloc, list, &params.leading, shift, number)
}

/// Puts what stands below the formula, if a number does.
#[tactic(auto, unfolding(crate::specs::Appending::below))]
fn put_below(
    alloc: Global,
    list: &mut ModeList,
    params: &DisplayParams,
    number: Option<BoxNode>,
) -> Result<(), DisplayError>
    ensures put { OnOk result (spec.below params.now number list.old ≡ Ok list.new) }
    ensures error { IfErr result (λ e. e ≢ OutOfMemory → spec.below params.now number list.old ≡ Err e) }
{
    match number {
        Some(number) => put_number_below(alloc, list, params, number),
        None => Ok(()),
    }
}

/// Puts the line of the formula, and what stands below it.
#[tactic(auto, unfolding(crate::specs::Appending::line_and_below))]
fn put_line_and_below(
    alloc: Global,
    list: &mut ModeList,
    params: &DisplayParams,
    shift: i64,
    line: BoxNode,
    number: Option<BoxNode>,
) -> Result<(), DisplayError>
    ensures put { OnOk result (spec.line_and_below params.now shift line number list.old ≡ Ok list.new) }
    ensures error { IfErr result (λ e. e ≢ OutOfMemory → spec.line_and_below params.now shift line number list.old ≡ Err e) }
{
    put_box(alloc, list, &params.leading, shift, line)?;
    put_below(alloc, list, params, number)
}

/// The glue below it.
fn below_glue(params: &DisplayParams, close: bool) -> Glue
    ensures { result ≡ spec.below_glue params.now close }
{
    if close {
        params.below_skip
    } else {
        params.below_short_skip
    }
}

/// Puts the last glue, unless a number stands below. Its only error is want of memory.
fn put_last_glue(
    list: &mut ModeList,
    params: &DisplayParams,
    close: bool,
    numbered: bool,
) -> Result<(), AllocError>
    ensures { OnOk result (list.new ≡ spec.closed_if params.now close numbered list.old) }
{
    if numbered {
        Ok(())
    } else {
        put_glue(list, below_glue(params, close))
    }
}

/// Puts what left the formula's box, \postdisplaypenalty and the last glue. Its only error is want of memory.
#[tactic(auto, unfolding(crate::specs::Appending::closed))]
fn put_end(
    list: &mut ModeList,
    params: &DisplayParams,
    close: bool,
    numbered: bool,
    behind: Nodes,
) -> Result<(), AllocError>
    ensures { OnOk result (list.new ≡ spec.closed params.now close numbered behind list.old) }
{
    append_items(list, behind)?;
    put_penalty(list, params.post_penalty)?;
    put_last_glue(list, params, close, numbered)?;
    Ok(())
}

/// Puts all but what stands above the formula.
#[tactic(auto, unfolding(crate::specs::Appending::from_line))]
fn put_from_line(
    alloc: Global,
    list: &mut ModeList,
    params: &DisplayParams,
    close: bool,
    shift: i64,
    line: BoxNode,
    number: Option<BoxNode>,
    behind: Nodes,
) -> Result<(), DisplayError>
    ensures put { OnOk result (spec.from_line params.now close shift line number behind list.old ≡ Ok list.new) }
    ensures error { IfErr result (λ e. e ≢ OutOfMemory → spec.from_line params.now close shift line number behind list.old ≡ Err e) }
{
    let numbered = number.is_some();
    put_line_and_below(alloc, list, params, shift, line, number)?;
    put_end(list, params, close, numbered, behind)?;
    Ok(())
}

/// Puts the lines of a display at the end of a list, with glue and penalties, and with what left the formula's box. `SizeOutOfRange`
/// exactly where the shift of a line, or the leading before it, is no dimension. After an error the list may only be dropped.
#[tactic(auto, unfolding(crate::specs::Appending::appended))]
pub(crate) fn append_arranged(
    alloc: Global,
    list: &mut ModeList,
    params: &DisplayParams,
    arranged: Arranged,
    behind: Nodes,
) -> Result<(), DisplayError>
    ensures put { OnOk result (spec.appended params.now arranged behind list.old ≡ Ok list.new) }
    ensures error { IfErr result (λ e. e ≢ OutOfMemory → spec.appended params.now arranged behind list.old ≡ Err e) }
{
    let Arranged {
        above,
        line,
        shift,
        below,
        close,
        ..
    } = arranged;
    put_above(alloc, list, params, close, above)?;
    put_from_line(alloc, list, params, close, shift, line, below, behind)
}
