//! A line in the vertical list.
ghost use Rattle.std.specs.Prelude.{◌≡◌, ◌≢◌, ◌<◌, length, IfOk, IfErr, OnOk, Ok, Err};
ghost use Rattle.tx_num.specs.Glue.{IsDimension};
ghost use Rattle.tx_linebreak.specs.Lines.{line_width};
ghost use Rattle.tx_nest.specs.declared.leading.NestError.TheVariants as leading;
ghost use Rattle.tx_pack.specs.declared.types.PackError.TheVariants as packing;
ghost use Rattle.tx_par.specs.declared.error.ParError.TheVariants.{OutOfMemory};
ghost use Rattle.tx_par.specs.Setting as spec;

use crate::error::ParError;
use crate::line::Line;
use crate::params::ParParams;
use crate::penalty::part;
use crate::so_far::SoFar;
use std::alloc::Global;
use tx_linebreak::LineShape;
use tx_nest::{NestError, append_box, append_items};
use tx_node::Nodes;
use tx_num::Range;
use tx_pack::{Goal, PackError, PackParams, Packed, hpack};

impl From<PackError> for ParError {
    ghost from_gives = { λ e r. r ≡ spec.of_packing e };

    fn from(error: PackError) -> Self {
        match error {
            PackError::SizeOutOfRange => ParError::SizeOutOfRange,
            PackError::TooDeep => ParError::TooDeep,
            PackError::OutOfMemory => ParError::OutOfMemory,
        }
    }
}

impl From<NestError> for ParError {
    ghost from_gives = { λ e r. r ≡ spec.of_leading e };

    fn from(error: NestError) -> Self {
        match error {
            NestError::SizeOutOfRange => ParError::SizeOutOfRange,
            NestError::OutOfMemory => ParError::OutOfMemory,
        }
    }
}

/// The shape of a line, by the number of lines before it.
fn shape_of(shape: &[LineShape], lines: usize) -> LineShape
    requires { 0 < length shape.now }
    ensures width { result.width ≡ line_width shape.now lines }
    ensures indent { result.indent ≡ spec.line_indent shape.now lines }
{
    let last = shape.len() - 1;
    shape[lines.min(last)]
}

/// The box of a line, whose width and indent, in sp, have to be dimensions.
fn line_box(
    alloc: Global,
    params: &PackParams,
    indent: i64,
    width: i64,
    own: Nodes,
) -> Result<Packed, PackError>
    requires rule { IsDimension params.now.overfull_rule }
    ensures packed { IfOk result (λ made. spec.line_box params.now indent width own ≡ Ok made) }
    ensures dimension { IfOk result (λ made. IsDimension indent) }
    ensures error { IfErr result (λ e. e ≢ packing.OutOfMemory → spec.line_box params.now indent width own ≡ Err e) }
{
    if !Range::Dimen.holds(indent) || !Range::Dimen.holds(width) {
        return Err(PackError::SizeOutOfRange);
    }
    hpack(alloc, own, Goal::To(width), params)
}

/// Puts a line's box, shifted by its indent in sp, and what follows it, at the end of the list.
fn put_box(
    alloc: Global,
    so_far: &mut SoFar,
    params: &ParParams,
    indent: i64,
    packed: Packed,
    behind: Nodes,
) -> Result<(), ParError>
    requires { IsDimension indent }
    ensures put { OnOk result (spec.placed params.now so_far.old indent behind (Ok packed) ≡ Ok so_far.new) }
    ensures error { IfErr result (λ e. e ≢ OutOfMemory → spec.placed params.now so_far.old indent behind (Ok packed) ≡ Err e) }
    ensures cause { IfErr result spec.IsOfLines }
{
    let Packed {
        node,
        badness,
        report,
    } = packed;
    append_box(
        alloc,
        &mut so_far.list,
        &params.leading,
        indent as i32,
        node,
    )?;
    so_far.last = so_far.list.nodes.len().saturating_sub(1);
    append_items(&mut so_far.list, behind)?;
    so_far.badness = badness;
    so_far.report.append(report.as_slice())?;
    Ok(())
}

/// Puts a line at the end of the list, with what follows it.
fn put(
    alloc: Global,
    so_far: &mut SoFar,
    params: &ParParams,
    indent: i64,
    width: i64,
    line: Line,
) -> Result<(), ParError>
    requires rule { IsDimension params.now.packing.overfull_rule }
    ensures put { OnOk result (spec.placed params.now so_far.old indent line.behind (spec.line_box params.now.packing indent width line.own) ≡ Ok so_far.new) }
    ensures error { IfErr result (λ e. e ≢ OutOfMemory → spec.placed params.now so_far.old indent line.behind (spec.line_box params.now.packing indent width line.own) ≡ Err e) }
    ensures cause { IfErr result spec.IsOfLines }
{
    let Line { own, behind } = line;
    let packed = line_box(alloc, &params.packing, indent, width, own)?;
    put_box(alloc, so_far, params, indent, packed, behind)
}

/// Puts a line at the end of the list, with what follows it and the penalty before the next line, if there is one. After an error
/// the list may only be dropped.
#[tactic(auto, unfolding(crate::specs::Setting::with_line))]
pub(crate) fn put_line(
    alloc: Global,
    so_far: &mut SoFar,
    params: &ParParams,
    shape: &[LineShape],
    lines: usize,
    count: usize,
    broken: bool,
    line: Line,
) -> Result<(), ParError>
    requires shaped { 0 < length shape.now }
    requires rule { IsDimension params.now.packing.overfull_rule }
    ensures put { OnOk result (spec.with_line params.now shape.now lines count broken line so_far.old ≡ Ok so_far.new) }
    ensures error { IfErr result (λ e. e ≢ OutOfMemory → spec.with_line params.now shape.now lines count broken line so_far.old ≡ Err e) }
    ensures cause { IfErr result spec.IsOfLines }
{
    let shape = shape_of(shape, lines);
    put(alloc, so_far, params, shape.indent, shape.width, line)?;
    part(so_far, params, lines, count, broken)
}
