//! The marks of a list.
ghost use Rattle.std.specs.Prelude.{◌≡◌, IfOk};
ghost use Rattle.tx_node.specs.Nodes.{item_of, list_of};
ghost use Rattle.tx_insert.specs.Splits as spec;

use std::alloc::AllocError;
use tx_node::{Node, Shared};
use tx_toklist::TokList;

fn shared_mark(item: &Shared) -> Result<Option<TokList>, AllocError>
    ensures { IfOk result (λ found. found ≡ spec.shared_mark item.now) }
{
    match item {
        Shared::Mark(text) => Ok(Some(text.share()?)),
        Shared::Rule(_) | Shared::Leaders(_) | Shared::Special(_) | Shared::Ligature(_) => Ok(None),
    }
}

/// The tokens of a mark, None of other items. Its only error is that no more owners can be counted.
fn mark_of(node: &Node) -> Result<Option<TokList>, AllocError>
    ensures { IfOk result (λ found. found ≡ spec.mark_of (item_of node.now)) }
{
    match node {
        Node::Shared(item) => shared_mark(item),
        Node::Plain(_) | Node::Box(_, _) => Ok(None),
        Node::Discretionary(_) | Node::Adjustment(_) | Node::Insertion(_) => Ok(None),
        Node::BoxLeaders(_) => Ok(None),
    }
}

/// The first mark of a list.
pub fn first_mark(list: &[Node]) -> Result<Option<TokList>, AllocError>
    ensures { IfOk result (λ found. found ≡ spec.first_mark (list_of list.now)) }
{
    for node in list {
        if let Some(mark) = mark_of(node)? {
            return Ok(Some(mark));
        }
    }
    Ok(None)
}

/// The last mark of a list.
#[tactic(auto, using(crate::proofs::Parts::regrouped))]
pub fn last_mark(list: &[Node]) -> Result<Option<TokList>, AllocError>
    ensures { IfOk result (λ found. found ≡ spec.last_mark (list_of list.now)) }
{
    let mut last = None;
    for node in list {
        if let Some(mark) = mark_of(node)? {
            last = Some(mark);
        }
    }
    Ok(last)
}
