//! How commands change the list that is being built.
ghost use Rattle.std.specs.Prelude.{◌≡◌, ◌∷◌, [], OnOk};
ghost use Rattle.tx_node.specs.Nodes.{item_of};
ghost use Rattle.tx_nest.specs.Changed as spec;

use crate::factor::SpaceFactor;
use crate::last::remove_last;
use crate::list::ModeList;
use crate::state::ModeState;
use std::alloc::AllocError;
use tx_node::{Node, Nodes};
use tx_prim::ItemKind;

/// Appends an item that changes nothing else of the list: glue, a kern, a penalty or a \special. After want of memory, its only
/// error, nothing has changed.
pub fn append_item(list: &mut ModeList, node: Node) -> Result<(), AllocError>
    ensures { OnOk result (list.new ≡ spec.with_items list.old (item_of node ∷ [])) }
{
    list.nodes.push(node)
}

/// Appends the items of another list, as \unhbox and its kin do. After want of memory, its only error, the list may only be
/// dropped.
pub fn append_items(list: &mut ModeList, others: Nodes) -> Result<(), AllocError>
    ensures { OnOk result (list.new ≡ spec.with_items list.old others) }
{
    let mut others = others;
    list.nodes.append(&mut others)
}

/// Sets \prevdepth, in sp; nothing changes where the mode isn't vertical.
pub fn set_prev_depth(list: &mut ModeList, depth: i32)
    ensures { list.new ≡ spec.with_depth list.old depth }
{
    list.state = list.state.with_prev_depth(depth);
}

/// Sets \spacefactor; nothing changes where the mode isn't horizontal.
pub fn set_space_factor(list: &mut ModeList, factor: SpaceFactor)
    ensures { list.new ≡ spec.with_factor list.old factor }
{
    list.state = list.state.with_space_factor(factor);
}

/// Whether \lastbox may look at the last item.
pub fn has_last(list: &ModeList) -> bool
    ensures { result ≡ spec.has_last list.now.state list.now.nodes }
{
    match list.state {
        ModeState::Vertical(_) => list.nodes.len() > 0,
        ModeState::InternalVertical(_) => true,
        ModeState::Horizontal(_) | ModeState::RestrictedHorizontal(_) => true,
        ModeState::Math | ModeState::DisplayMath => false,
    }
}

/// Whether the last item would be the page's.
pub fn is_bare_page(list: &ModeList) -> bool
    ensures { result ≡ spec.is_bare_page list.now.state list.now.nodes }
{
    match list.state {
        ModeState::Vertical(_) => list.nodes.len() == 0,
        ModeState::InternalVertical(_) => false,
        ModeState::Horizontal(_) | ModeState::RestrictedHorizontal(_) => false,
        ModeState::Math | ModeState::DisplayMath => false,
    }
}

/// \unpenalty, \unkern and \unskip: takes the last item away where it is of this kind. False, with nothing changed, where they may
/// not stand: the last item would be the page's, and isn't known to be no glue.
pub fn remove_item(list: &mut ModeList, kind: ItemKind) -> bool
    ensures told { spec.removing kind list.old ≡ spec.told result list.new }
{
    if is_bare_page(list) {
        return matches!(kind, ItemKind::Skip);
    }
    remove_last(&mut list.nodes, kind);
    true
}
