//! The lists of alignments among those that are being built (TeX: The Program, sections 774, 786 and 787).
ghost use Rattle.std.specs.Prelude.{◌≡◌, [], IfOk, OnOk};
ghost use Rattle.tx_nest.specs.Changed.{with_nodes};
ghost use Rattle.tx_tabular.specs.Lists as spec;

use std::alloc::{AllocError, Global};
use std::mem::replace;
use tx_box::Lists;
use tx_nest::{ModeList, set_prev_depth};
use tx_node::Nodes;
use tx_prim::Mode;

/// The list of an alignment, which takes \prevdepth of the list around, if that has it.
fn list_in(alloc: Global, around: &ModeList) -> ModeList
    ensures { result ≡ spec.list_in around.now }
{
    let mut list = ModeList::within(alloc, Mode::InternalVertical, around);
    if let Some(depth) = around.state.prev_depth() {
        set_prev_depth(&mut list, depth);
    }
    list
}

/// The list of an alignment begins. After want of memory, its only error, the lists may only be dropped.
pub fn begin_list(alloc: Global, lists: &mut Lists) -> Result<(), AllocError>
    ensures { OnOk result (lists.new ≡ spec.beginning lists.old) }
{
    let list = list_in(alloc, lists.nest.innermost());
    lists.nest.push(list)
}

/// The list of an entry begins. After want of memory, its only error, the lists may only be dropped.
pub fn begin_entry_list(alloc: Global, lists: &mut Lists) -> Result<(), AllocError>
    ensures { OnOk result (lists.new ≡ spec.entering lists.old) }
{
    let list = ModeList::within(alloc, Mode::RestrictedHorizontal, lists.nest.innermost());
    lists.nest.push(list)
}

/// The items of a list, which is empty from then on.
pub(crate) fn take_nodes(alloc: Global, list: &mut ModeList) -> Nodes
    ensures nodes { result ≡ list.old.nodes }
    ensures left { list.new ≡ with_nodes list.old [] }
{
    replace(&mut list.nodes, Nodes::new(alloc))
}

/// What stands between rows, without what stands for the row before. Its only error is want of memory.
pub(crate) fn between(alloc: Global, behind_row: bool, nodes: Nodes) -> Result<Nodes, AllocError>
    ensures { IfOk result (λ more. more ≡ spec.between behind_row nodes) }
{
    if !behind_row {
        return Ok(nodes);
    }
    match nodes.as_slice() {
        [_, behind @ ..] => Nodes::share_of(alloc, behind),
        [] => Ok(Nodes::new(alloc)),
    }
}
