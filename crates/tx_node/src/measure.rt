//! How deep the boxes of a list nest, how many nodes it holds, how many are shipped of it, and whether it has leaders of a box.
ghost use Rattle.std.specs.Prelude.{◌≡◌, ◌≤◌, pos, true};
ghost use Rattle.tx_node.specs.Nodes.{list_of};
ghost use Rattle.tx_node.specs.Items.{items_of};
ghost use Rattle.tx_node.specs.Counts.{nesting_of, count_of, ended};
ghost use Rattle.tx_node.specs.Setting.{IsSet, begun, sums_fit};
ghost use Rattle.tx_node.specs.Shipped.{alone_shipped, leads_boxes, shipped_of};

use crate::head::BoxHead;
use crate::node::Node;
use crate::places::Reached;

/// How deep the boxes of a list nest: 0 where there is none, at most 500.
pub fn deepest(list: &[Node]) -> u16
    ensures value { result ≡ nesting_of (items_of (list_of list.now)) }
    ensures most { result ≤ 500 }
{
    let mut most: u16 = 0;
    for node in list {
        most = most.max(node.nesting());
    }
    most
}

/// How many nodes there are, with all that they hold; counts end at 2^64-1.
pub fn counted(list: &[Node]) -> u64
    ensures { result ≡ ended (count_of (items_of (list_of list.now))) }
{
    let mut sum: u64 = 0;
    for node in list {
        sum = sum.saturating_add(node.count());
    }
    sum
}

/// Whether a list has leaders of a box.
pub fn leads(list: &[Node]) -> bool
    ensures { result ≡ leads_boxes (items_of (list_of list.now)) }
{
    for node in list {
        if node.is_leading() {
            return true;
        }
    }
    false
}

/// How many nodes are shipped of a list none of whose nodes makes a copy; counts end at 2^64-1.
pub fn shipped_alone(list: &[Node]) -> u64
    ensures { result ≡ ended (alone_shipped (items_of (list_of list.now))) }
{
    let mut sum: u64 = 0;
    for node in list {
        sum = sum.saturating_add(node.shipped(0));
    }
    sum
}

/// How many nodes are shipped of a list in a box with this head, with each copy that leaders make; counts end at 2^64-1.
pub fn shipped(list: &[Node], head: BoxHead) -> u64
    requires is_set { IsSet head.setting }
    requires sums { sums_fit head.setting (pos 0) (items_of (list_of list.now)) ≡ true }
    ensures { result ≡ ended (shipped_of head.direction head.setting begun (items_of (list_of list.now))) }
{
    let mut sum: u64 = 0;
    let mut reached = Reached { natural: 0, sum: 0 };
    for node in list {
        let next = head.behind(reached, node);
        let copies = node.copies(&head, reached, next);
        sum = sum.saturating_add(node.shipped(copies));
        reached = next;
    }
    sum
}
