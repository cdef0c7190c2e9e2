//! The shapes of a paragraph's lines.
ghost use Rattle.std.specs.Prelude.{◌≡◌, ◌≤◌, ◌<◌, length, IfOk};
ghost use Rattle.tx_paragraph.specs.Shapes as spec;

use std::alloc::{AllocError, Global};
use tx_eqtb::Eqtb;
use tx_linebreak::{LineShape, Shape};
use tx_list::Items;
use tx_node::Nodes;
use tx_prim::{DimensionParameter, IntegerParameter};

/// A line that is so wide and doesn't hang.
fn plain_line(size: i32) -> LineShape
    ensures { result ≡ spec.plain_line size }
{
    LineShape {
        indent: 0,
        width: i64::from(size),
    }
}

/// A line that hangs by \hangindent, where the others are so wide.
fn hanging_line(size: i32, hang: i32) -> LineShape
    ensures { result ≡ spec.hanging_line size hang }
{
    LineShape {
        indent: if hang > 0 { i64::from(hang) } else { 0 },
        width: i64::from(size) - i64::from(hang.unsigned_abs()),
    }
}

/// How many lines \hangafter still counts behind so many that have passed.
fn first_lines(after: i32, passed: u32, list: &Nodes) -> usize
    ensures { result ≡ spec.first_lines after passed list.now }
{
    (after.unsigned_abs().saturating_sub(passed) as usize).min(list.len().saturating_add(2))
}

/// So many lines of one shape, then the shape of all further ones. Its only error is want of memory.
fn lines_then(
    alloc: Global,
    count: usize,
    first: LineShape,
    further: LineShape,
) -> Result<Shape, AllocError>
    ensures { IfOk result (λ shape. shape ≡ spec.lines_then count first further) }
{
    let mut lines = vec![in alloc; first; count]?;
    lines.push(further)?;
    Ok(Items::from_vec(lines))
}

/// The shapes of the lines of a list where some hang.
fn hanging(
    alloc: Global,
    size: i32,
    hang: i32,
    after: i32,
    passed: u32,
    list: &Nodes,
) -> Result<Shape, AllocError>
    ensures { IfOk result (λ shape. shape ≡ spec.hanging size hang after passed list.now) }
{
    let plain = plain_line(size);
    let hanging = hanging_line(size, hang);
    let count = first_lines(after, passed, list);
    if after >= 0 {
        lines_then(alloc, count, plain, hanging)
    } else {
        lines_then(alloc, count, hanging, plain)
    }
}

/// The lines that \parshape tells by their sizes. Its only error is want of memory.
fn told_lines(alloc: Global, sizes: &[i32]) -> Result<Vec<LineShape>, AllocError>
    ensures { IfOk result (λ lines. lines.items ≡ spec.told_lines sizes.now) }
{
    let mut lines = Vec::new(alloc);
    let mut rest = sizes;
    while let [indent, width, more @ ..] = rest {
        lines.push(LineShape {
            indent: i64::from(*indent),
            width: i64::from(*width),
        })?;
        rest = more;
    }
    Ok(lines)
}

/// Those behind so many that have passed. Its only error is want of memory.
fn lines_behind(alloc: Global, passed: u32, lines: &[LineShape]) -> Result<Shape, AllocError>
    requires { 0 < length lines.now }
    ensures shape { IfOk result (λ shape. shape ≡ spec.lines_behind passed lines.now) }
    ensures shaped { IfOk result (λ shape. 0 < length shape) }
{
    let first = (passed as usize).min(lines.len() - 1);
    Ok(Items::from_vec(Vec::from_slice(alloc, &lines[first..])?))
}

/// The shapes of the lines of a list behind so many that have passed, where \parshape tells none. Its only error is want of memory.
fn hung_lines(alloc: Global, table: &Eqtb, passed: u32, list: &Nodes) -> Result<Shape, AllocError>
    ensures shape { IfOk result (λ shape. shape ≡ spec.hung_lines table.now.table passed list.now) }
    ensures shaped { IfOk result (λ shape. 0 < length shape) }
{
    let line = table.dimension(DimensionParameter::Hsize);
    let hang = table.dimension(DimensionParameter::Hangindent);
    if hang == 0 {
        return Items::one(alloc, plain_line(line));
    }
    let after = table.integer(IntegerParameter::Hangafter);
    hanging(alloc, line, hang, after, passed, list)
}

/// Whether line `line` of a paragraph, counted from 1, hangs by \hangafter, if any does.
fn is_hung(after: i32, line: usize) -> bool
    ensures { result ≡ spec.is_hung after line }
{
    if after >= 0 {
        (after.unsigned_abs() as usize) < line
    } else {
        line <= after.unsigned_abs() as usize
    }
}

/// That line, where \parshape tells none.
fn hung_line(table: &Eqtb, line: usize) -> LineShape
    ensures { result ≡ spec.hung_line table.now.table line }
{
    let size = table.dimension(DimensionParameter::Hsize);
    let hang = table.dimension(DimensionParameter::Hangindent);
    if hang == 0 {
        return plain_line(size);
    }
    if is_hung(table.integer(IntegerParameter::Hangafter), line) {
        hanging_line(size, hang)
    } else {
        plain_line(size)
    }
}

/// That line of the ones that \parshape tells, the last of which stands for all further ones.
fn told_line(lines: &[LineShape], line: usize, other: LineShape) -> LineShape
    ensures { result ≡ spec.told_line lines.now line other }
{
    let place = line.saturating_sub(1).min(lines.len().saturating_sub(1));
    match lines.get(place) {
        Some(told) => *told,
        None => other,
    }
}

/// The shape of line `line` of a paragraph, counted from 1. Its only error is want of memory.
pub(crate) fn line_at(alloc: Global, table: &Eqtb, line: usize) -> Result<LineShape, AllocError>
    ensures { IfOk result (λ shape. shape ≡ spec.line_at table.now.table line) }
{
    let told = told_lines(alloc, table.par_shape())?;
    Ok(told_line(told.as_slice(), line, hung_line(table, line)))
}

/// The shapes of the lines of a list behind so many lines that have passed, of which there is at least one. Its only error is want
/// of memory.
pub(crate) fn shape_of(
    alloc: Global,
    table: &Eqtb,
    passed: u32,
    list: &Nodes,
) -> Result<Shape, AllocError>
    ensures shape { IfOk result (λ shape. shape ≡ spec.shape_of table.now.table passed list.now) }
    ensures shaped { IfOk result (λ shape. 0 < length shape) }
{
    let told = told_lines(alloc, table.par_shape())?;
    if told.len() == 0 {
        hung_lines(alloc, table, passed, list)
    } else {
        lines_behind(alloc, passed, told.as_slice())
    }
}
