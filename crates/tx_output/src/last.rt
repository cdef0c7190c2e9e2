//! The last node that was contributed to the page.
ghost use Rattle.std.specs.Prelude.{◌≡◌, ◌↔◌, IsTrue};
ghost use Rattle.tx_node.specs.Nodes.{item_of};
ghost use Rattle.tx_output.specs.Last as spec;

use tx_list::Kept;
use tx_node::{Node, Plain, Shared};
use tx_num::Glue;

/// What is known of the last node that was contributed, also of one that vanished (TeX: The Program, sections 991 and 996).
#[derive(Clone, Copy)]
pub enum LastItem {
    /// A penalty.
    Penalty(i32),
    /// A kern, in sp.
    Kern(i32),
    /// Glue, or that of leaders.
    Skip(Glue),
    /// Another node, or none since the page began.
    Other,
}

fn plain_item(item: &Plain) -> LastItem
    ensures { result ≡ spec.plain_item item.now }
{
    match item {
        Plain::Penalty(number) => LastItem::Penalty(*number),
        Plain::Kern(_, size) => LastItem::Kern(*size),
        Plain::Glue(glue) => LastItem::Skip(*glue),
        Plain::Character(_) => LastItem::Other,
    }
}

fn larger_item(item: &Shared) -> LastItem
    ensures { result ≡ spec.larger_item item.now }
{
    match item {
        Shared::Leaders(leaders) => LastItem::Skip(leaders.glue),
        Shared::Rule(_) | Shared::Special(_) | Shared::Ligature(_) | Shared::Mark(_) => {
            LastItem::Other
        }
    }
}

/// What is known of a node as the last one.
pub fn last_item(node: &Node) -> LastItem
    ensures { result ≡ spec.last_item (item_of node.now) }
{
    match node {
        Node::Plain(item) => plain_item(item),
        Node::Shared(item) => larger_item(item),
        Node::Box(_, _) => LastItem::Other,
        Node::Discretionary(_) | Node::Adjustment(_) | Node::Insertion(_) => LastItem::Other,
        Node::BoxLeaders(leaders) => LastItem::Skip(leaders.head().glue),
    }
}

/// Whether both are the same.
pub(crate) fn same_item(one: &LastItem, other: &LastItem) -> bool
    ensures { IsTrue result ↔ (one.now ≡ other.now) }
{
    match (one, other) {
        (LastItem::Penalty(one), LastItem::Penalty(other)) => one == other,
        (LastItem::Kern(one), LastItem::Kern(other)) => one == other,
        (LastItem::Skip(one), LastItem::Skip(other)) => one.same(other),
        (LastItem::Other, LastItem::Other) => true,
        (LastItem::Penalty(_), LastItem::Kern(_) | LastItem::Skip(_) | LastItem::Other) => false,
        (LastItem::Kern(_), LastItem::Penalty(_) | LastItem::Skip(_) | LastItem::Other) => false,
        (LastItem::Skip(_), LastItem::Penalty(_) | LastItem::Kern(_) | LastItem::Other) => false,
        (LastItem::Other, LastItem::Penalty(_) | LastItem::Kern(_) | LastItem::Skip(_)) => false,
    }
}
