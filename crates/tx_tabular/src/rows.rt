//! Rows end (TeX: The Program, section 799).
ghost use Rattle.std.specs.Prelude.{◌≡◌, ◌≢◌, ◌++◌, Ok, Err, IfOk, IfErr, OnOk};
ghost use Rattle.tx_align.specs.declared.error.AlignError.TheVariants.{OutOfMemory};
ghost use Rattle.tx_nest.specs.Leading.{leading_behind as leading_before};
ghost use Rattle.tx_tabular.specs.Rows as spec;

use crate::alignment::Alignment;
use std::alloc::{AllocError, Global};
use std::mem::replace;
use tx_align::{AlignError, RowItem};
use tx_box::Lists;
use tx_bytes::Bytes;
use tx_list::Items;
use tx_nest::{LeadingParams, ModeList, append_leading, leading_behind};
use tx_node::{Node, Nodes, Shared};
use tx_num::Glue;
use tx_pack::{Extent, extent_of};

/// The greater extent of both, in each direction.
fn wider(one: Extent, other: Extent) -> Extent
    ensures { result ≡ spec.greater one other }
{
    Extent {
        height: one.height.max(other.height),
        depth: one.depth.max(other.depth),
    }
}

/// The extent of a row with one more entry; all else has none.
fn with_cell(extent: Extent, item: &RowItem) -> Result<Extent, AlignError>
    ensures { result ≡ spec.extent_with extent item.now }
{
    match item {
        RowItem::Cell { span: _, list } => Ok(wider(extent, extent_of(list)?)),
        RowItem::RowEnd | RowItem::NoAlign(_) => Ok(extent),
    }
}

/// The extent of a row, in sp. `SizeOutOfRange` and `TooDeep` where an entry can't be packed, the first of them.
fn row_extent(cells: &[RowItem]) -> Result<Extent, AlignError>
    ensures { result ≡ spec.extent_from spec.no_extent cells.now }
{
    let mut extent = Extent {
        height: 0,
        depth: 0,
    };
    for cell in cells {
        extent = with_cell(extent, cell)?;
    }
    Ok(extent)
}

/// The leading before a row so high. `SizeOutOfRange` exactly where it is no dimension.
fn leading(params: &LeadingParams, list: &ModeList, height: i32) -> Result<Option<Glue>, AlignError>
    ensures { result ≡ spec.leading_of (leading_before params.now (spec.depth_of list.now) height) }
{
    match leading_behind(params, list.state.prev_depth(), height) {
        Ok(glue) => Ok(glue),
        Err(_) => Err(AlignError::SizeOutOfRange),
    }
}

/// Leading, if there is any, as a list. Its only error is want of memory.
fn leading_list(alloc: Global, glue: Option<Glue>) -> Result<Nodes, AllocError>
    ensures { IfOk result (λ nodes. nodes ≡ spec.leading_items glue) }
{
    let mut nodes = Nodes::new(alloc);
    append_leading(&mut nodes, glue)?;
    Ok(nodes)
}

/// One more item joins the rows. `MisplacedAlignment` exactly where it may not stand there.
pub(crate) fn push(alignment: &mut Alignment, item: RowItem) -> Result<(), AlignError>
    ensures pushed { OnOk result (spec.pushing alignment.old item ≡ Ok alignment.new) }
    ensures error { IfErr result (λ e. e ≢ OutOfMemory → spec.pushing alignment.old item ≡ Err e) }
{
    alignment.rows.push(item, &alignment.preamble)
}

/// The entries of the row join the rows. `MisplacedAlignment` exactly where the preamble hasn't their columns.
fn push_cells(alignment: &mut Alignment, cells: Items<RowItem>) -> Result<(), AlignError>
    ensures pushed { OnOk result (spec.with_pushed alignment.old cells ≡ Ok alignment.new) }
    ensures error { IfErr result (λ e. e ≢ OutOfMemory → spec.with_pushed alignment.old cells ≡ Err e) }
{
    for cell in cells.into_vec() {
        push(alignment, cell)?;
    }
    Ok(())
}

/// The row joins the rows: the leading before it, its entries, and its end. What leaves them is no part of it.
fn push_row(alloc: Global, alignment: &mut Alignment, glue: Option<Glue>) -> Result<(), AlignError>
    ensures pushed { OnOk result (spec.with_row alignment.old glue ≡ Ok alignment.new) }
    ensures error { IfErr result (λ e. e ≢ OutOfMemory → spec.with_row alignment.old glue ≡ Err e) }
{
    let cells = replace(&mut alignment.cells, Items::new(alloc));
    let before = leading_list(alloc, glue)?;
    push(alignment, RowItem::NoAlign(before))?;
    push_cells(alignment, cells)?;
    push(alignment, RowItem::RowEnd)?;
    alignment.behind_row = true;
    Ok(())
}

/// The list between rows begins anew with what leaves a row so deep, which an item stands for that no command reads or takes away.
/// Its only error is want of memory.
fn stand_behind(
    alloc: Global,
    list: &mut ModeList,
    depth: i32,
    leaving: Nodes,
) -> Result<(), AllocError>
    ensures { OnOk result (list.new ≡ spec.behind_row list.old depth leaving) }
{
    let mut nodes = Nodes::new(alloc);
    nodes.push(Node::from_shared(alloc, Shared::Special(Bytes::new(alloc)))?)?;
    let mut leaving = leaving;
    nodes.append(&mut leaving)?;
    list.state = list.state.behind_box(depth);
    drop(replace(&mut list.nodes, nodes));
    Ok(())
}

/// A row ends, whose entries are whole. `SizeOutOfRange` and `TooDeep` where an entry can't be packed, or the leading before the
/// row is no dimension. After an error both may only be dropped.
pub fn end_row(
    alloc: Global,
    lists: &mut Lists,
    params: &LeadingParams,
    alignment: &mut Alignment,
) -> Result<(), AlignError>
    ensures ended { OnOk result (spec.ending_row params.now lists.old alignment.old ≡ Ok (record { lists = lists.new; alignment = alignment.new })) }
    ensures error { IfErr result (λ e. e ≢ OutOfMemory → spec.ending_row params.now lists.old alignment.old ≡ Err e) }
{
    let extent = row_extent(alignment.cells.as_slice())?;
    let glue = leading(params, lists.nest.innermost(), extent.height)?;
    let leaving = replace(&mut alignment.leaving, Nodes::new(alloc));
    push_row(alloc, alignment, glue)?;
    stand_behind(alloc, lists.nest.top(), extent.depth, leaving)?;
    Ok(())
}
