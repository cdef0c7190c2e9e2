//! What stands between rows (TeX: The Program, sections 805 and 806).
ghost use Rattle.std.specs.Prelude.{◌≡◌, ◌++◌, map, IfOk, OnOk};
ghost use Rattle.tx_node.specs.Items.{shared};
ghost use Rattle.tx_node.specs.Nodes.{item_of, list_of};
ghost use Rattle.tx_align.specs.RowBoxes as spec;

use std::alloc::{AllocError, Global};
use tx_node::{BoxHead, Node, Nodes, Rule, Shared};

/// A rule whose sides that run are those of the preamble's box.
fn ruled(head: &BoxHead, rule: &Rule) -> Rule
    ensures { result ≡ spec.ruled head.now rule.now }
{
    Rule {
        width: Some(rule.width.unwrap_or(head.width)),
        height: Some(rule.height.unwrap_or(head.height)),
        depth: Some(rule.depth.unwrap_or(head.depth)),
    }
}

/// What a node that is this larger item becomes between rows. Its only error is want of memory.
fn shared_between(
    alloc: Global,
    head: &BoxHead,
    node: &Node,
    item: &Shared,
) -> Result<Node, AllocError>
    requires { item_of node.now ≡ shared item.now }
    ensures { IfOk result (λ made. item_of made ≡ shared (spec.shared_between head.now item.now)) }
{
    match item {
        Shared::Rule(rule) => Node::from_shared(alloc, Shared::Rule(ruled(head, rule))),
        Shared::Leaders(_) | Shared::Special(_) | Shared::Ligature(_) | Shared::Mark(_) =>
            node.clone(),
    }
}

/// What a node becomes between rows. Its only error is want of memory.
fn between(alloc: Global, head: &BoxHead, node: &Node) -> Result<Node, AllocError>
    ensures { IfOk result (λ made. item_of made ≡ spec.between head.now (item_of node.now)) }
{
    match node {
        Node::Shared(item) => shared_between(alloc, head, node, item),
        Node::Plain(_) | Node::Box(_, _) | Node::Discretionary(_) => node.clone(),
        Node::Adjustment(_) | Node::Insertion(_) => node.clone(),
        Node::BoxLeaders(_) => node.clone(),
    }
}

/// Puts what stands between rows at the end of a list. Its only error is want of memory.
pub(crate) fn put_between(
    alloc: Global,
    head: &BoxHead,
    nodes: &mut Nodes,
    list: &[Node],
) -> Result<(), AllocError>
    ensures { OnOk result (nodes.new ≡ nodes.old ++ map (spec.between head.now) (list_of list.now)) }
{
    for node in list {
        nodes.push(between(alloc, head, node)?)?;
    }
    Ok(())
}
