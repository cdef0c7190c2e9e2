//! The preamble's box, and how far its set glue moves each column (TeX: The Program, sections 804 and 809).
ghost use Rattle.std.specs.Prelude.{◌≡◌, ◌≢◌, ◌<◌, ◌^◌, ◌++◌, ◌∷◌, [], pos, true, is_some, unsigned_abs, IfOk, IfErr, Ok, Err, OnOk};
ghost use Rattle.tx_num.specs.Glue.{IsDimension};
ghost use Rattle.tx_node.specs.declared.head.Direction.TheVariants.{Horizontal};
ghost use Rattle.tx_node.specs.Items.{items_of};
ghost use Rattle.tx_node.specs.Setting.{IsSet, moved, share, sums_fit};
ghost use Rattle.tx_pack.specs.Packing.{IsGoal};
ghost use Rattle.tx_pack.specs.Sums.{sums_of};
ghost use Rattle.tx_align.specs.declared.error.AlignError.TheVariants.{OutOfMemory};
ghost use Rattle.tx_align.specs.Prototypes as spec;
ghost use Rattle.tx_align.specs.Prototypes.{IsPrototype};

use crate::error::AlignError;
use crate::preamble::Preamble;
use crate::prototype::{Made, PlacedColumn, Prototype};
use crate::sized::SizedColumn;
use crate::sizes::plus;
use std::alloc::{AllocError, Global};
use tx_list::Items;
use tx_node::{KernKind, Node, Nodes, Plain, Setting, glue_part};
use tx_num::Glue;
use tx_pack::{Goal, PackError, PackParams, Packed, hpack};

impl From<PackError> for AlignError {
    ghost from_gives = { λ e r. r ≡ spec.of_packing e };

    fn from(error: PackError) -> Self {
        match error {
            PackError::SizeOutOfRange => AlignError::SizeOutOfRange,
            PackError::TooDeep => AlignError::TooDeep,
            PackError::OutOfMemory => AlignError::OutOfMemory,
        }
    }
}

/// Puts glue at the end of a list. Its only error is want of memory.
pub(crate) fn push_skip(list: &mut Nodes, skip: &Glue) -> Result<(), AllocError>
    ensures { OnOk result (list.new ≡ list.old ++ spec.skip_item skip.now ∷ []) }
{
    list.push(Node::Plain(Plain::Glue(*skip)))
}

/// Puts a column at the end of a list, as so much white space, and the skip behind it. Its only error is want of memory.
fn push_column(list: &mut Nodes, column: &SizedColumn) -> Result<(), AllocError>
    ensures { OnOk result (list.new ≡ list.old ++ spec.column_items (column.now ∷ [])) }
{
    list.push(Node::Plain(Plain::Kern(KernKind::Implicit, column.width)))?;
    push_skip(list, &column.skip)
}

/// Puts columns at the end of a list. Its only error is want of memory.
fn push_columns(list: &mut Nodes, columns: &[SizedColumn]) -> Result<(), AllocError>
    ensures { OnOk result (list.new ≡ list.old ++ spec.column_items columns.now) }
{
    for column in columns {
        push_column(list, column)?;
    }
    Ok(())
}

/// The list of the preamble's box. Its only error is want of memory.
fn prototype_list(alloc: Global, first: &Glue, columns: &[SizedColumn]) -> Result<Nodes, AllocError>
    ensures { IfOk result (λ list. list ≡ spec.prototype first.now columns.now) }
{
    let mut list = Nodes::new(alloc);
    push_skip(&mut list, first)?;
    push_columns(&mut list, columns)?;
    Ok(list)
}

/// What glue adds to the stretch or shrink that is set, in sp.
fn share_of(setting: Setting, skip: &Glue) -> i64
    ensures value { result ≡ share setting (spec.skip_item skip.now) }
    ensures small { unsigned_abs result < 2 ^ 30 }
{
    match setting {
        Setting::Natural => 0,
        Setting::Set(set) => glue_part(set.change, set.order, skip),
    }
}

/// A column with how far set glue moves it, of which this much, in sp, stands before it.
fn placed_column(setting: Setting, sum: i64, column: &SizedColumn) -> PlacedColumn
    requires is_set { IsSet setting }
    requires sum_in { IsDimension sum }
    ensures { result ≡ record { sized = column.now; shift = moved setting sum } }
{
    PlacedColumn {
        sized: *column,
        shift: setting.moved(sum),
    }
}

/// The columns with how far set glue moves each. Its only error is want of memory.
#[tactic(auto, using(crate::proofs::Fits::first_fits, crate::proofs::Fits::first_small))]
fn placed(
    alloc: Global,
    setting: Setting,
    first: &Glue,
    columns: &[SizedColumn],
) -> Result<Items<PlacedColumn>, AllocError>
    requires is_set { IsSet setting }
    requires sums { sums_fit setting (pos 0) (items_of (spec.prototype first.now columns.now)) ≡ true }
    ensures { IfOk result (λ made. made ≡ spec.placed setting first.now columns.now) }
{
    let mut made = Items::new(alloc);
    let mut sum = plus(0, share_of(setting, first));
    for column in columns {
        made.push(placed_column(setting, sum, column))?;
        sum = plus(sum, share_of(setting, &column.skip));
    }
    Ok(made)
}

/// The prototype that a box of columns is. Its only error is want of memory.
fn made_of(
    alloc: Global,
    first: &Glue,
    columns: &[SizedColumn],
    packed: Packed,
) -> Result<Made, AllocError>
    requires { is_some (sums_of Horizontal (spec.prototype first.now columns.now)) ≡ true }
    ensures made { IfOk result (λ made. Ok made ≡ spec.made_of first.now columns.now (Ok packed)) }
    ensures is { IfOk result (λ made. IsPrototype made.prototype) }
{
    let Packed {
        node,
        badness,
        report,
    } = packed;
    let head = node.head();
    let setting = node.setting();
    let moved_columns = placed(alloc, setting, first, columns)?;
    let prototype = Prototype {
        head,
        first: *first,
        columns: moved_columns,
    };
    Ok(Made {
        prototype,
        badness,
        report,
    })
}

/// The preamble of an alignment, packed to a goal, with these columns.
#[tactic(auto, using(crate::proofs::Fits::packed_has_sums))]
pub(crate) fn made(
    alloc: Global,
    preamble: &Preamble,
    goal: Goal,
    params: &PackParams,
    columns: &[SizedColumn],
) -> Result<Made, AlignError>
    requires goal { IsGoal goal }
    requires rule { IsDimension params.now.overfull_rule }
    ensures ok { IfOk result (λ made. spec.made preamble.now goal params.now columns.now ≡ Ok made) }
    ensures is { IfOk result (λ made. IsPrototype made.prototype) }
    ensures error { IfErr result (λ e. e ≢ OutOfMemory → spec.made preamble.now goal params.now columns.now ≡ Err e) }
{
    let first = preamble.first();
    let list = prototype_list(alloc, &first, columns)?;
    let packed = hpack(alloc, list, goal, params)?;
    Ok(made_of(alloc, &first, columns, packed)?)
}
