//! A kern of a page's list.
ghost use Rattle.std.specs.Prelude.{◌≡◌};
ghost use Rattle.tx_node.specs.Nodes.{item_of};
ghost use Rattle.tx_pagebuilder.specs.Kerns as spec;

use tx_node::{KernKind, Node, Plain};

/// A kern of so many sp.
#[derive(Clone, Copy, PartialEq, Eq)]
pub struct Kern {
    pub kind: KernKind,
    pub size: i32,
}

fn plain_kern(item: &Plain) -> Option<Kern>
    ensures { result ≡ spec.plain_kern item.now }
{
    match item {
        Plain::Kern(kind, size) => Some(Kern {
            kind: *kind,
            size: *size,
        }),
        Plain::Glue(_) | Plain::Penalty(_) | Plain::Character(_) => None,
    }
}

/// The kern that a node is, None of other nodes.
pub(crate) fn kern_of(node: &Node) -> Option<Kern>
    ensures { result ≡ spec.kern_of (item_of node.now) }
{
    match node {
        Node::Plain(item) => plain_kern(item),
        Node::Shared(_) | Node::Box(_, _) => None,
        Node::Discretionary(_) | Node::Adjustment(_) | Node::Insertion(_) => None,
        Node::BoxLeaders(_) => None,
    }
}

/// A kern as a node.
pub(crate) fn kern_node(kern: Kern) -> Node
    ensures { item_of result ≡ spec.kern_item kern }
{
    Node::Plain(Plain::Kern(kern.kind, kern.size))
}
