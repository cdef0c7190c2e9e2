//! The cells of a row, each in a box of the width of its columns (TeX: The Program, sections 808 to 811).
ghost use Rattle.std.specs.Prelude.{◌≡◌, ◌≢◌, ◌≤◌, ◌^◌, [], take, drop, unsigned_abs, IfOk, IfErr, Ok, Err, OnOk};
ghost use Rattle.tx_num.specs.Glue.{IsDimension};
ghost use Rattle.tx_num.specs.Limits.{fits};
ghost use Rattle.tx_align.specs.declared.error.AlignError.TheVariants.{OutOfMemory};
ghost use Rattle.tx_align.specs.RowBoxes as spec;

use crate::cell::{Cell, SetCell};
use crate::error::AlignError;
use crate::prototype::PlacedColumn;
use std::alloc::Global;
use tx_list::Items;
use tx_node::{BoxNode, Nodes};
use tx_num::GREATEST_DIMENSION;
use tx_pack::{Goal, PackParams, Packed, hpack};

/// Where a column begins in a row, in sp.
fn left_edge(column: &PlacedColumn) -> i128
    ensures value { result ≡ spec.left_edge column.now }
    ensures small { unsigned_abs result ≤ 2 ^ 64 }
{
    i128::from(column.sized.begins) + i128::from(column.shift)
}

/// Where it ends.
fn right_edge(column: &PlacedColumn) -> i128
    ensures value { result ≡ spec.right_edge column.now }
    ensures small { unsigned_abs result ≤ 2 ^ 65 }
{
    left_edge(column) + i128::from(column.sized.width)
}

/// How wide a cell of these columns becomes, in sp.
fn spread(columns: &[PlacedColumn]) -> i128
    ensures { result ≡ spec.spread columns.now }
{
    let Some(first) = columns.first() else {
        return 0;
    };
    let Some(last) = columns.last() else {
        return 0;
    };
    right_edge(last) - left_edge(first)
}

/// Whether a size is a dimension.
fn fits_wide(size: i128) -> bool
    ensures { result ≡ fits size }
{
    size.unsigned_abs() < 1 << 30
}

/// A dimension, in 64 bits.
fn narrow(size: i128) -> i64
    requires { IsDimension size }
    ensures { result ≡ size }
{
    size as i64
}

/// A list in a box of this width, in sp, of which nothing is told.
#[tactic(auto, unfolding(crate::specs::RowBoxes::box_to))]
fn box_to(alloc: Global, width: i128, list: Nodes) -> Result<BoxNode, AlignError>
    ensures ok { IfOk result (λ node. spec.box_to width list ≡ Ok node) }
    ensures error { IfErr result (λ e. e ≢ OutOfMemory → spec.box_to width list ≡ Err e) }
{
    if !fits_wide(width) {
        return Err(AlignError::SizeOutOfRange);
    }
    let silent = PackParams {
        badness: 10_000,
        fuzz: GREATEST_DIMENSION,
        overfull_rule: 0,
    };
    let Packed { node, .. } = hpack(alloc, list, Goal::To(narrow(width)), &silent)?;
    Ok(node)
}

/// A cell of these columns in its box.
fn cell_set(alloc: Global, columns: &[PlacedColumn], cell: Cell) -> Result<SetCell, AlignError>
    ensures ok { IfOk result (λ made. spec.cell_in cell.span (spec.box_to (spec.spread columns.now) cell.list) ≡ Ok made) }
    ensures error { IfErr result (λ e. e ≢ OutOfMemory → spec.cell_in cell.span (spec.box_to (spec.spread columns.now) cell.list) ≡ Err e) }
{
    let Cell { span, list } = cell;
    let node = box_to(alloc, spread(columns), list)?;
    Ok(SetCell { span, node })
}

/// The first columns, so many, and those behind them.
#[tactic(auto, using(crate::proofs::Lists::taken, crate::proofs::Lists::dropped))]
pub(crate) fn divided(columns: &[PlacedColumn], span: u32) -> (&[PlacedColumn], &[PlacedColumn])
    ensures own { result.0.now ≡ take span columns.now }
    ensures others { result.1.now ≡ drop span columns.now }
{
    columns.split_at((span as usize).min(columns.len()))
}

/// Puts a cell of these columns, in its box, behind those that are set.
fn set_cell(
    alloc: Global,
    columns: &[PlacedColumn],
    done: &mut Items<SetCell>,
    cell: Cell,
) -> Result<(), AlignError>
    ensures ok { OnOk result (spec.cells_behind done.old Ok (spec.cell_in cell.span (spec.box_to (spec.spread columns.now) cell.list)) ≡ Ok done.new) }
    ensures error { IfErr result (λ e. e ≢ OutOfMemory → spec.cell_in cell.span (spec.box_to (spec.spread columns.now) cell.list) ≡ Err e) }
{
    done.push(cell_set(alloc, columns, cell)?)?;
    Ok(())
}

/// The cells of a row in their boxes, by the columns of the alignment.
#[tactic(auto, using(crate::proofs::Behind::cells_next))]
pub(crate) fn cells_set(
    alloc: Global,
    columns: &[PlacedColumn],
    cells: Items<Cell>,
) -> Result<Items<SetCell>, AlignError>
    ensures ok { IfOk result (λ done. spec.cells_set columns.now [] cells ≡ Ok done) }
    ensures error { IfErr result (λ e. e ≢ OutOfMemory → spec.cells_set columns.now [] cells ≡ Err e) }
{
    let mut done = Items::new(alloc);
    let mut next = columns;
    for cell in cells.into_vec() {
        let (own, others) = divided(next, cell.span);
        set_cell(alloc, own, &mut done, cell)?;
        next = others;
    }
    Ok(done)
}
