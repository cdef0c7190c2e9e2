//! How deep the boxes nest that TeX enters.
ghost use Rattle.std.specs.Prelude.{◌≡◌, ◌≤◌, ◌==◌, suc, pos, true, if◌then◌else◌};
ghost use Rattle.tx_node.specs.Items.{items_of};
ghost use Rattle.tx_node.specs.Nodes.{item_of, list_of};
ghost use Rattle.tx_node.specs.Counts.{nesting_of, item_nesting, box_nesting};
ghost use Rattle.tx_node.specs.Setting.{IsSet, begun, sums_fit};
ghost use Rattle.tx_ship.specs.Commands as spec;

use crate::frames::{head_of, is_entered};
use tx_node::{BoxHead, BoxNode, Node, Reached};

/// How deep copies nest of which each nests so deep: not at all where there are none.
fn if_copied(copies: u128, level: u16) -> u16
    ensures value { result ≡ (if copies == 0 then 0 else level) }
    ensures within { result ≤ level }
{
    if copies == 0 { 0 } else { level }
}

/// How deep they nest in the list of a box, the boxes of leaders too that make copies of them. Where there are no leaders of boxes, as
/// nearly always, the places of its items don't matter.
#[cycle(level)]
#[tactic(auto, using(crate::proofs::Levels::alone_is_level))]
pub fn level_inside(inner: &BoxNode) -> u16
    ensures value { result ≡ spec.level_inside inner.now }
    ensures within { result ≤ nesting_of (items_of inner.now.list) }
{
    let nodes = inner.list();
    if inner.leads() {
        list_level(head_of(inner), nodes)
    } else {
        alone_level(nodes)
    }
}

/// The same in a list none of whose nodes makes a copy.
#[cycle(level)]
fn alone_level(list: &[Node]) -> u16
    ensures value { result ≡ spec.alone_level (items_of (list_of list.now)) }
    ensures within { result ≤ nesting_of (items_of (list_of list.now)) }
{
    let mut most: u16 = 0;
    for node in list {
        most = most.max(node_level(node, 0));
    }
    most
}

/// The same in the list of a box with this head.
#[cycle(level)]
#[tactic(auto, unfolding(crate::specs::Commands::level_of))]
fn list_level(head: BoxHead, list: &[Node]) -> u16
    requires is_set { IsSet head.setting }
    requires sums { sums_fit head.setting (pos 0) (items_of (list_of list.now)) ≡ true }
    ensures value { result ≡ spec.level_of head.direction head.setting begun (items_of (list_of list.now)) }
    ensures within { result ≤ nesting_of (items_of (list_of list.now)) }
{
    let mut most: u16 = 0;
    let mut reached = Reached { natural: 0, sum: 0 };
    for node in list {
        let next = head.behind(reached, node);
        let copies = node.copies(&head, reached, next);
        most = most.max(node_level(node, copies));
        reached = next;
    }
    most
}

/// How deep they nest in a node that makes so many copies.
#[cycle(level)]
#[tactic(auto, unfolding(crate::specs::Commands::level_of))]
fn node_level(node: &Node, copies: u128) -> u16
    ensures value { result ≡ spec.item_level copies (item_of node.now) }
    ensures within { result ≤ item_nesting (item_of node.now) }
{
    match node {
        Node::Plain(_) | Node::Shared(_) => 0,
        Node::Box(_, inner) => box_level(inner),
        Node::Discretionary(_) | Node::Adjustment(_) | Node::Insertion(_) => 0,
        Node::BoxLeaders(leaders) => if_copied(copies, entered_level(leaders.inner())),
    }
}

/// How deep a box nests: not at all where its list is empty.
#[cycle(level)]
fn box_level(inner: &BoxNode) -> u16
    ensures value { result ≡ (if spec.is_entered (items_of inner.now.list) then suc (spec.level_inside inner.now) else 0) }
    ensures within { result ≤ box_nesting inner.now }
{
    if is_entered(inner) {
        entered_level(inner)
    } else {
        0
    }
}

/// How deep a box nests that TeX enters.
#[cycle(level)]
fn entered_level(inner: &BoxNode) -> u16
    ensures value { result ≡ suc (spec.level_inside inner.now) }
    ensures within { result ≤ box_nesting inner.now }
{
    let nesting = inner.nesting();
    let below = level_inside(inner);
    let room = below < nesting;
    prove!(room);
    below + 1
}
