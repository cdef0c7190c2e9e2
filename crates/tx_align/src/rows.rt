//! The rows of an alignment (TeX: The Program, sections 786 to 799).
ghost use Rattle.std.specs.Prelude.{◌≡◌, ◌≢◌, ◌↔◌, [], true, false, IfOk, IfErr, IsTrue, Ok, Err, Some, OnErr, OnOk};
ghost use Rattle.tx_num.specs.Glue.{IsDimension};
ghost use Rattle.tx_pack.specs.Packing.{IsGoal};
ghost use Rattle.tx_align.specs.declared.error.AlignError.TheVariants.{MisplacedAlignment, OutOfMemory};
ghost use Rattle.tx_align.specs.Aligned.{finished};
ghost use Rattle.tx_align.specs.Columns.{has_columns};
ghost use Rattle.tx_align.specs.Rows as spec;
ghost use Rattle.tx_align.specs.Rows.{open_columns};

use crate::aligned::Aligned;
use crate::error::AlignError;
use crate::finishing::aligned;
use crate::preamble::Preamble;
use crate::row_item::RowItem;
use std::alloc::{AllocError, Global};
use std::marker::Model;
use tx_list::Items;
use tx_pack::{Goal, PackParams};

/// What stands behind the preamble of an alignment so far. Contracts see the list of the items. After want of memory it may only be
/// dropped.
#[derive(Drop)]
pub struct Rows {
    items: Items<RowItem>,
    /// How many columns the row has that is open, None where none is.
    had: Option<usize>,
}

impl Model for Rows {
    ghost use Rattle.std.specs.Prelude.{◌≡◌, List};
    ghost use Rattle.std.specs.Coded.{coded_list};
    ghost use Rattle.tx_align.specs.contracts.row_item.RowItem as row_item;
    ghost use Rattle.tx_align.specs.declared.row_item.RowItem.{RowItem};
    ghost use Rattle.tx_align.specs.Rows.{open_columns};

    ghost Value = { List RowItem };

    ghost coded = { coded_list row_item.the_row.coded };

    ghost view = { λ r. r.items };

    ghost invariant = { λ r. r.had ≡ open_columns r.items };
}

/// How many columns a row has with a cell of so many more. Its only error is that they can't be counted.
fn used(had: Option<usize>, span: u32) -> Result<usize, AllocError>
    ensures { IfOk result (λ columns. columns ≡ spec.used had span) }
{
    match had.unwrap_or(0).checked_add(span as usize) {
        Some(columns) => Ok(columns),
        None => Err(AllocError),
    }
}

/// How many columns the row has that is open behind a cell of so many columns, where the preamble has them.
fn behind_cell(
    preamble: &Preamble,
    had: Option<usize>,
    span: u32,
) -> Result<Option<usize>, AlignError>
    ensures ok { IfOk result (λ columns. columns ≡ Some (spec.used had span)) }
    ensures stands { OnOk result (has_columns preamble.now (spec.used had span) ≡ true) }
    ensures error { IfErr result (λ e. e ≢ OutOfMemory → (e ≡ MisplacedAlignment) × (has_columns preamble.now (spec.used had span) ≡ false)) }
{
    let columns = used(had, span)?;
    if preamble.has_columns(columns) {
        Ok(Some(columns))
    } else {
        Err(AlignError::MisplacedAlignment)
    }
}

/// How many columns the row has that is open behind an item, which may stand there, None where none is.
fn open_behind(
    preamble: &Preamble,
    had: Option<usize>,
    item: &RowItem,
) -> Result<Option<usize>, AlignError>
    ensures ok { IfOk result (λ columns. columns ≡ spec.open_behind had item.now) }
    ensures stands { OnOk result (spec.may_stand preamble.now had item.now ≡ true) }
    ensures error { IfErr result (λ e. e ≢ OutOfMemory → (e ≡ MisplacedAlignment) × (spec.may_stand preamble.now had item.now ≡ false)) }
{
    match item {
        RowItem::Cell { span, list: _ } => behind_cell(preamble, had, *span),
        RowItem::RowEnd => {
            if had.is_some() {
                Ok(None)
            } else {
                Err(AlignError::MisplacedAlignment)
            }
        }
        RowItem::NoAlign(_) => {
            if had.is_some() {
                Err(AlignError::MisplacedAlignment)
            } else {
                Ok(had)
            }
        }
    }
}

impl Rows {
    /// No rows; takes no memory.
    pub fn new(alloc: Global) -> Rows
        ensures { result ≡ [] }
    {
        Rows {
            items: Items::new(alloc),
            had: None,
        }
    }

    /// Puts an item behind the others. `MisplacedAlignment` exactly where a cell comes whose columns the preamble hasn't, those
    /// counted that repeat, where a row ends that has no cell, and where what stands between rows comes within one. After it
    /// nothing has changed. The other error is want of memory.
    #[tactic(auto, using(crate::proofs::Opened::open_more))]
    pub fn push(&mut self, item: RowItem, preamble: &Preamble) -> Result<(), AlignError>
        ensures pushed { OnOk result (spec.pushed preamble.now self.old item ≡ Ok self.new) }
        ensures error { IfErr result (λ e. e ≢ OutOfMemory → spec.pushed preamble.now self.old item ≡ Err e) }
        ensures same { OnErr result (self.new ≡ self.old) }
    {
        let had = open_behind(preamble, self.had, &item)?;
        self.items.push(item)?;
        self.had = had;
        Ok(())
    }

    /// Ends the alignment (TeX: The Program, sections 800 to 812): its columns get their widths, its preamble is packed to the
    /// goal, and its rows are set by that, each in a box; what stands between them stays, but for its rules that run. The answer is
    /// this list, how bad the preamble's box is, and what is told of it, in which \overfullrule doesn't count: callers give it as 0.
    ///
    /// `MisplacedAlignment` exactly where a row is open. Else `SizeOutOfRange` where a cell, a column, the preamble or what a cell
    /// is set to is too large, in this order; a cell that can't be packed gives `SizeOutOfRange` or `TooDeep`, and a row that nests
    /// too deep `TooDeep`, in the order of rows. The other error is want of memory.
    pub fn finish(
        self,
        alloc: Global,
        preamble: &Preamble,
        goal: Goal,
        params: &PackParams,
    ) -> Result<Aligned, AlignError>
        requires goal { IsGoal goal }
        requires rule { IsDimension params.now.overfull_rule }
        ensures aligned { IfOk result (λ made. finished preamble.now self goal params.now ≡ Ok made) }
        ensures error { IfErr result (λ e. e ≢ OutOfMemory → finished preamble.now self goal params.now ≡ Err e) }
    {
        let Rows { items, had } = self;
        if had.is_some() {
            return Err(AlignError::MisplacedAlignment);
        }
        aligned(alloc, preamble, items, goal, params)
    }

    /// Whether both have the same items.
    pub fn same(&self, other: &Rows) -> bool
        ensures { IsTrue result ↔ (self.now ≡ other.now) }
    {
        self.items.same(&other.items)
    }

    /// The same rows once more, which share their boxes. Its only error is want of memory.
    pub fn share(&self) -> Result<Rows, AllocError>
        ensures { IfOk result (λ twin. twin ≡ self.now) }
    {
        Ok(Rows {
            items: self.items.share()?,
            had: self.had,
        })
    }
}
