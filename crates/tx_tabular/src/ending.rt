//! Alignments end (TeX: The Program, sections 800 to 812).
ghost use Rattle.std.specs.Prelude.{◌≡◌, ◌≢◌, Ok, Err, Some, IfOk, IfErr, OnOk};
ghost use Rattle.tx_num.specs.Glue.{IsDimension};
ghost use Rattle.tx_pack.specs.Packing.{IsGoal};
ghost use Rattle.tx_align.specs.declared.error.AlignError.TheVariants.{OutOfMemory};
ghost use Rattle.tx_tabular.specs.Ending as spec;

use crate::alignment::Alignment;
use crate::lists::between;
use crate::rows::push;
use std::alloc::{AllocError, Global};
use tx_align::{AlignError, Aligned, RowItem};
use tx_box::{Lists, goal_of, size_in};
use tx_bytes::Bytes;
use tx_nest::{ModeList, ModeState, Nest, append_items, set_prev_depth};
use tx_node::Nodes;
use tx_num::Range;
use tx_pack::{Goal, PackParams};

/// What the list that ends keeps beside its items, and these; the one around it goes on. None exactly where none waits.
fn close_list(nest: &mut Nest) -> Option<(ModeState, Nodes)>
    ensures { spec.IsClosed (spec.closed_nest nest.old) result nest.new }
{
    if nest.is_outermost() {
        return None;
    }
    let ModeList {
        state,
        nodes,
        prev_graf: _,
    } = nest.pop();
    Some((state, nodes))
}

/// What an alignment becomes, where the size that its preamble is set to is a dimension.
fn set_rows(
    alloc: Global,
    alignment: Alignment,
    goal: Goal,
    params: &PackParams,
) -> Result<Aligned, AlignError>
    requires goal { IsGoal goal }
    requires rule { IsDimension params.now.overfull_rule }
    ensures set { IfOk result (λ made. spec.set_rows alignment goal params.now ≡ Ok made) }
    ensures error { IfErr result (λ e. e ≢ OutOfMemory → spec.set_rows alignment goal params.now ≡ Err e) }
{
    let (preamble, rows) = alignment.into_rows();
    rows.finish(alloc, &preamble, goal, params)
}

/// What an alignment becomes, and the errors of `Rows::finish`; `SizeOutOfRange` also where its goal is no dimension.
fn aligned(alloc: Global, alignment: Alignment, params: &PackParams) -> Result<Aligned, AlignError>
    requires { IsDimension params.now.overfull_rule }
    ensures set { IfOk result (λ made. spec.aligned alignment params.now ≡ Ok made) }
    ensures error { IfErr result (λ e. e ≢ OutOfMemory → spec.aligned alignment params.now ≡ Err e) }
{
    let goal = goal_of(alignment.goal);
    if Range::Dimen.holds(size_in(goal)) {
        set_rows(alloc, alignment, goal, params)
    } else {
        Err(AlignError::SizeOutOfRange)
    }
}

/// The list around goes on behind the alignment, whose list keeps this when it ends. Its only error is want of memory.
fn stand_in(lists: &mut Lists, state: ModeState, made: Aligned) -> Result<Bytes, AllocError>
    ensures report { IfOk result (λ report. report ≡ made.report) }
    ensures lists { OnOk result (lists.new ≡ spec.standing lists.old state made) }
{
    let Aligned {
        nodes,
        badness,
        report,
    } = made;
    lists.badness = badness;
    append_items(lists.nest.top(), nodes)?;
    if let Some(depth) = state.prev_depth() {
        set_prev_depth(lists.nest.top(), depth);
    }
    Ok(report)
}

/// An alignment ends, between rows: what it becomes stands in the list around, and \badness is how bad its preamble's box is. The
/// answer is what the transcript gets. The errors are those of `Rows::finish`; `MisplacedAlignment` also where no list waits
/// around. After an error the lists may only be dropped.
pub fn end_alignment(
    alloc: Global,
    lists: &mut Lists,
    params: &PackParams,
    alignment: Alignment,
) -> Result<Bytes, AlignError>
    requires { IsDimension params.now.overfull_rule }
    ensures ended { IfOk result (λ report. spec.finishing params.now lists.old alignment ≡ Ok (record { lists = lists.new; report = report })) }
    ensures error { IfErr result (λ e. e ≢ OutOfMemory → spec.finishing params.now lists.old alignment ≡ Err e) }
{
    let Some((state, nodes)) = close_list(&mut lists.nest) else {
        return Err(AlignError::MisplacedAlignment);
    };
    let rest = between(alloc, alignment.behind_row, nodes)?;
    let mut alignment = alignment;
    push(&mut alignment, RowItem::NoAlign(rest))?;
    let made = aligned(alloc, alignment, params)?;
    Ok(stand_in(lists, state, made)?)
}
