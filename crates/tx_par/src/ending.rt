//! How a paragraph's list ends.
ghost use Rattle.std.specs.Prelude.{◌≡◌, ◌-◌, length, take, slice_get, option_copied, option_map, OnOk};
ghost use Rattle.tx_node.specs.Nodes.{item_of};
ghost use Rattle.tx_par.specs.Ended as spec;

use std::alloc::AllocError;
use tx_node::{Node, Nodes, Plain};
use tx_num::Glue;

/// The last node, lent, if there is one.
#[tactic(auto, using(crate::proofs::Lists::last_is))]
fn last_node(nodes: &Nodes) -> Option<&Node>
    ensures { option_map item_of (option_copied result) ≡ slice_get nodes.now (length nodes.now - 1) }
{
    nodes.as_slice().last()
}

/// Whether a list's last item is glue.
fn ends_with_glue(nodes: &Nodes) -> bool
    ensures { result ≡ spec.is_glue (slice_get nodes.now (length nodes.now - 1)) }
{
    match last_node(nodes) {
        Some(node) => node.glue().is_some(),
        None => false,
    }
}

/// Takes the last item away, if there is one.
#[tactic(auto, using(crate::proofs::Lists::shortened_more))]
fn shorten(nodes: &mut Nodes)
    ensures { nodes.new ≡ take (length nodes.old - 1) nodes.old }
{
    let _ = nodes.pop();
}

/// Takes the last item away, if it is glue.
fn remove_last_glue(nodes: &mut Nodes)
    ensures { nodes.new ≡ spec.without_last_glue nodes.old }
{
    if ends_with_glue(nodes) {
        shorten(nodes);
    }
}

/// Ends a list: a penalty of 10000 and \parfillskip come in the place of glue at its end. After want of memory, its only error,
/// the list may only be dropped.
pub(crate) fn end(nodes: &mut Nodes, par_fill_skip: Glue) -> Result<(), AllocError>
    ensures { OnOk result (nodes.new ≡ spec.ended par_fill_skip nodes.old) }
{
    remove_last_glue(nodes);
    nodes.push(Node::Plain(Plain::Penalty(10_000)))?;
    nodes.push(Node::Plain(Plain::Glue(par_fill_skip)))
}
