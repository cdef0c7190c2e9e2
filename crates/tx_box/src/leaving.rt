//! What leaves an \hbox that is appended to a vertical list (TeX: The Program, section 655).
ghost use Rattle.std.specs.Prelude.{◌≡◌, [], IfOk};
ghost use Rattle.tx_node.specs.Nodes.{item_of, list_of};
ghost use Rattle.tx_par.specs.LineLists.{line_of as line_of_items};
ghost use Rattle.tx_box.specs.Leaving as spec;

use std::alloc::{AllocError, Global};
use tx_node::{Node, Nodes, Shared};
use tx_par::{Line, line_of};

/// Whether a larger item leaves the box.
fn larger_leaves(item: &Shared) -> bool
    ensures { result ≡ spec.larger_leaves item.now }
{
    match item {
        Shared::Mark(_) => true,
        Shared::Rule(_) | Shared::Leaders(_) | Shared::Special(_) | Shared::Ligature(_) => false,
    }
}

/// Whether an item leaves the box.
fn leaves_box(node: &Node) -> bool
    ensures { result ≡ spec.leaves_box (item_of node.now) }
{
    match node {
        Node::Shared(item) => larger_leaves(item),
        Node::Adjustment(_) | Node::Insertion(_) => true,
        Node::Plain(_) | Node::Box(_, _) | Node::Discretionary(_) => false,
        Node::BoxLeaders(_) => false,
    }
}

/// Whether any of these items leaves the box.
fn any_leaves_box(nodes: &[Node]) -> bool
    ensures { result ≡ spec.any_leaves_box (list_of nodes.now) }
{
    for node in nodes {
        if leaves_box(node) {
            return true;
        }
    }
    false
}

/// All of a list stands in its box; takes no memory.
pub(crate) fn all_own(alloc: Global, list: Nodes) -> Line
    ensures { result ≡ record { own = list; behind = [] } }
{
    Line {
        own: list,
        behind: Nodes::new(alloc),
    }
}

/// What of a list stands in the box, and what leaves it. A list that nothing leaves, as most are, isn't copied. Its only error is
/// want of memory.
#[tactic(auto, using(crate::proofs::Lines::all_stays))]
pub fn split_list(alloc: Global, list: Nodes) -> Result<Line, AllocError>
    ensures { IfOk result (λ line. line ≡ line_of_items list) }
{
    if any_leaves_box(list.as_slice()) {
        line_of(alloc, list.as_slice())
    } else {
        Ok(all_own(alloc, list))
    }
}
