//! The cells of an alignment, in the order in which they come.
ghost use Rattle.std.specs.Prelude.{◌≡◌, ◌≢◌, Some, IfOk, IfErr, Ok, Err, OnOk};
ghost use Rattle.tx_node.specs.Nodes.{list_of};
ghost use Rattle.tx_align.specs.declared.error.AlignError.TheVariants.{OutOfMemory};
ghost use Rattle.tx_align.specs.Entries as spec;

use crate::entry::{Entry, Met};
use crate::error::AlignError;
use crate::row_item::RowItem;
use crate::sizes::{dimension, plus, wide};
use std::alloc::{AllocError, Global};
use tx_list::Items;
use tx_node::{Direction, Node};

/// How wide a list is naturally, in sp, None where that is no dimension behind some node.
fn natural_width(list: &[Node]) -> Option<i32>
    ensures { result ≡ spec.natural_width (list_of list.now) }
{
    let mut width: i32 = 0;
    for node in list {
        match dimension(plus(wide(width), node.advance(Direction::Horizontal))) {
            Some(more) => width = more,
            None => return None,
        }
    }
    Some(width)
}

/// Meets a cell of so many columns and so wide. Its only error is want of memory.
fn meet_entry(met: &mut Met, span: u32, width: i32) -> Result<(), AllocError>
    ensures { OnOk result (Ok met.new ≡ spec.with_entry met.old span (Some width)) }
{
    let first = met.at;
    let Some(end) = first.checked_add(span as usize) else {
        return Err(AllocError);
    };
    met.entries.push(Entry { first, end, width })?;
    met.at = end;
    Ok(())
}

/// Meets a cell of so many columns, with this list.
fn meet_cell(met: &mut Met, span: u32, list: &[Node]) -> Result<(), AlignError>
    ensures ok { OnOk result (spec.with_entry met.old span (spec.natural_width (list_of list.now)) ≡ Ok met.new) }
    ensures error { IfErr result (λ e. e ≢ OutOfMemory → spec.with_entry met.old span (spec.natural_width (list_of list.now)) ≡ Err e) }
{
    let Some(width) = natural_width(list) else {
        return Err(AlignError::SizeOutOfRange);
    };
    Ok(meet_entry(met, span, width)?)
}

/// Meets an item.
fn meet(met: &mut Met, item: &RowItem) -> Result<(), AlignError>
    ensures ok { OnOk result (spec.met_behind met.old item.now ≡ Ok met.new) }
    ensures error { IfErr result (λ e. e ≢ OutOfMemory → spec.met_behind met.old item.now ≡ Err e) }
{
    match item {
        RowItem::Cell { span, list } => meet_cell(met, *span, list.as_slice()),
        RowItem::RowEnd => {
            met.at = 0;
            Ok(())
        }
        RowItem::NoAlign(_) => Ok(()),
    }
}

/// What the cells of rows ask of the columns.
pub(crate) fn met_in(alloc: Global, rows: &[RowItem]) -> Result<Met, AlignError>
    ensures ok { IfOk result (λ met. spec.met_in rows.now ≡ Ok met) }
    ensures error { IfErr result (λ e. e ≢ OutOfMemory → spec.met_in rows.now ≡ Err e) }
{
    let mut met = Met {
        at: 0,
        entries: Items::new(alloc),
    };
    for item in rows {
        meet(&mut met, item)?;
    }
    Ok(met)
}
