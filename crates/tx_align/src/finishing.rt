//! How an alignment ends (TeX: The Program, section 800).
ghost use Rattle.std.specs.Prelude.{◌≡◌, ◌≢◌, IfOk, IfErr, Ok, Err, OnOk};
ghost use Rattle.tx_num.specs.Glue.{IsDimension};
ghost use Rattle.tx_pack.specs.Packing.{IsGoal};
ghost use Rattle.tx_align.specs.declared.error.AlignError.TheVariants.{OutOfMemory};
ghost use Rattle.tx_align.specs.Aligned as spec;
ghost use Rattle.tx_align.specs.Entries.{met_in as met_in_rows};
ghost use Rattle.tx_align.specs.Prototypes.{IsPrototype, made_by};
ghost use Rattle.tx_align.specs.RowBoxes.{row_box};
ghost use Rattle.tx_align.specs.Widths.{sized_by};

use crate::aligned::{Aligned, Laid};
use crate::between::put_between;
use crate::cell::Cell;
use crate::error::AlignError;
use crate::meeting::met_in;
use crate::placing::made;
use crate::preamble::Preamble;
use crate::prototype::{Made, Prototype};
use crate::row_boxes::row_box;
use crate::row_item::RowItem;
use crate::sized::Sizing;
use crate::widths::sized;
use std::alloc::{AllocError, Global};
use std::mem;
use tx_list::Items;
use tx_node::{Node, Nodes};
use tx_pack::{Goal, PackParams};

/// Nothing stands in the list yet; takes no memory.
fn nothing_laid(alloc: Global) -> Laid
    ensures { result ≡ spec.nothing_laid }
{
    Laid {
        nodes: Nodes::new(alloc),
        cells: Items::new(alloc),
    }
}

/// Lays the row whose cells wait for its end.
fn lay_row(alloc: Global, prototype: &Prototype, laid: &mut Laid) -> Result<(), AlignError>
    requires { IsPrototype prototype.now }
    ensures ok { OnOk result (spec.with_row laid.old (row_box prototype.now laid.old.cells) ≡ Ok laid.new) }
    ensures error { IfErr result (λ e. e ≢ OutOfMemory → spec.with_row laid.old (row_box prototype.now laid.old.cells) ≡ Err e) }
{
    let cells = mem::replace(&mut laid.cells, Items::new(alloc));
    let made = row_box(alloc, prototype, cells)?;
    laid.nodes.push(Node::from_box(alloc, 0, made)?)?;
    Ok(())
}

/// Lets a cell wait for the end of its row. Its only error is want of memory.
fn lay_cell(laid: &mut Laid, span: u32, list: Nodes) -> Result<(), AllocError>
    ensures { OnOk result (laid.new ≡ spec.with_cell laid.old span list) }
{
    laid.cells.push(Cell { span, list })
}

/// Lays what stands between rows. Its only error is want of memory.
fn lay_between(
    alloc: Global,
    prototype: &Prototype,
    laid: &mut Laid,
    list: Nodes,
) -> Result<(), AllocError>
    ensures { OnOk result (laid.new ≡ spec.with_between prototype.now laid.old list) }
{
    put_between(alloc, &prototype.head, &mut laid.nodes, list.as_slice())
}

/// Lays one more item.
fn lay(
    alloc: Global,
    prototype: &Prototype,
    laid: &mut Laid,
    item: RowItem,
) -> Result<(), AlignError>
    requires { IsPrototype prototype.now }
    ensures ok { OnOk result (spec.laid_behind prototype.now laid.old item ≡ Ok laid.new) }
    ensures error { IfErr result (λ e. e ≢ OutOfMemory → spec.laid_behind prototype.now laid.old item ≡ Err e) }
{
    match item {
        RowItem::Cell { span, list } => Ok(lay_cell(laid, span, list)?),
        RowItem::RowEnd => lay_row(alloc, prototype, laid),
        RowItem::NoAlign(list) => Ok(lay_between(alloc, prototype, laid, list)?),
    }
}

/// Lays all items.
fn laid_out(alloc: Global, prototype: &Prototype, rows: Items<RowItem>) -> Result<Laid, AlignError>
    requires { IsPrototype prototype.now }
    ensures ok { IfOk result (λ laid. spec.laid_from prototype.now spec.nothing_laid rows ≡ Ok laid) }
    ensures error { IfErr result (λ e. e ≢ OutOfMemory → spec.laid_from prototype.now spec.nothing_laid rows ≡ Err e) }
{
    let mut laid = nothing_laid(alloc);
    for item in rows.into_vec() {
        lay(alloc, prototype, &mut laid, item)?;
    }
    Ok(laid)
}

/// The columns of rows with their widths.
fn sized_in(alloc: Global, preamble: &Preamble, rows: &[RowItem]) -> Result<Sizing, AlignError>
    ensures ok { IfOk result (λ sizing. sized_by preamble.now (met_in_rows rows.now) ≡ Ok sizing) }
    ensures error { IfErr result (λ e. e ≢ OutOfMemory → sized_by preamble.now (met_in_rows rows.now) ≡ Err e) }
{
    let met = met_in(alloc, rows)?;
    sized(alloc, preamble, met.entries.as_slice())
}

/// The preamble's box for rows, packed to a goal.
fn made_in(
    alloc: Global,
    preamble: &Preamble,
    rows: &[RowItem],
    goal: Goal,
    params: &PackParams,
) -> Result<Made, AlignError>
    requires goal { IsGoal goal }
    requires rule { IsDimension params.now.overfull_rule }
    ensures ok { IfOk result (λ made. made_by preamble.now goal params.now (sized_by preamble.now (met_in_rows rows.now)) ≡ Ok made) }
    ensures is { IfOk result (λ made. IsPrototype made.prototype) }
    ensures error { IfErr result (λ e. e ≢ OutOfMemory → made_by preamble.now goal params.now (sized_by preamble.now (met_in_rows rows.now)) ≡ Err e) }
{
    let sizing = sized_in(alloc, preamble, rows)?;
    made(alloc, preamble, goal, params, sizing.columns.as_slice())
}

/// Rows set by the preamble's box.
fn told(alloc: Global, made: Made, rows: Items<RowItem>) -> Result<Aligned, AlignError>
    requires { IsPrototype made.prototype }
    ensures ok { IfOk result (λ aligned. spec.aligned_by rows (Ok made) ≡ Ok aligned) }
    ensures error { IfErr result (λ e. e ≢ OutOfMemory → spec.aligned_by rows (Ok made) ≡ Err e) }
{
    let Made {
        prototype,
        badness,
        report,
    } = made;
    let Laid { nodes, cells: _ } = laid_out(alloc, &prototype, rows)?;
    Ok(Aligned {
        nodes,
        badness,
        report,
    })
}

/// What becomes of rows none of which is open.
pub(crate) fn aligned(
    alloc: Global,
    preamble: &Preamble,
    rows: Items<RowItem>,
    goal: Goal,
    params: &PackParams,
) -> Result<Aligned, AlignError>
    requires goal { IsGoal goal }
    requires rule { IsDimension params.now.overfull_rule }
    ensures ok { IfOk result (λ aligned. spec.aligned_by rows (made_by preamble.now goal params.now (sized_by preamble.now (met_in_rows rows))) ≡ Ok aligned) }
    ensures error { IfErr result (λ e. e ≢ OutOfMemory → spec.aligned_by rows (made_by preamble.now goal params.now (sized_by preamble.now (met_in_rows rows))) ≡ Err e) }
{
    let made = made_in(alloc, preamble, rows.as_slice(), goal, params)?;
    told(alloc, made, rows)
}
