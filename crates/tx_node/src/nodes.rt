//! Lists, and boxes made of them.
ghost use Rattle.std.specs.Prelude.{◌≡◌, ◌↔◌, ◌≤◌, ◌∷◌, ◌++◌, [], suc, length, IsTrue, IfOk, OnOk, OnErr, MatchOption};
ghost use Rattle.tx_node.specs.Nodes.{item_of, list_of, IsBox};
ghost use Rattle.tx_node.specs.Items.{items_of, discretionary, adjustment, insertion};
ghost use Rattle.tx_node.specs.Counts.{nesting_of, count_of, ended};
ghost use Rattle.tx_node.specs.Setting.{begun};
ghost use Rattle.tx_node.specs.Shipped.{leads_boxes, shipped_of};

use crate::head::{BoxHead, BreakHead, InsertHead};
use crate::measure::{counted, deepest, leads, shipped, shipped_alone};
use crate::node::{BoxNode, Discretionary, Held, Insertion, Node, Sublist};
use crate::same::same_list;
use std::alloc::{AllocError, Global};
use std::marker::Model;
use std::rc::Rc;

/// A list. Contracts see the list of its items.
#[derive(Drop)]
pub struct Nodes {
    items: Vec<Node>,
}

impl Model for Nodes {
    ghost use Rattle.std.specs.Prelude.{List};
    ghost use Rattle.tx_node.specs.Items.{Item};

    ghost Value = { List Item };

    ghost use Rattle.std.specs.Coded.{coded_list};
    ghost use Rattle.tx_node.specs.Codes.{item_code};

    ghost coded = { coded_list item_code };

    ghost use Rattle.tx_node.specs.Nodes.{list_of};

    ghost view = { λ n. list_of n.items.items };
}

impl Nodes {
    /// The empty list; takes no memory.
    pub fn new(alloc: Global) -> Nodes
        ensures { result ≡ [] }
    {
        Nodes {
            items: Vec::new(alloc),
        }
    }

    /// The items of a lent list, in a list of their own that shares them. Its only error is want of memory.
    pub fn share_of(alloc: Global, nodes: &[Node]) -> Result<Nodes, AllocError>
        ensures { IfOk result (λ made. made ≡ list_of nodes.now) }
    {
        Ok(Nodes {
            items: shared(alloc, nodes)?,
        })
    }

    /// The nodes, lent.
    pub fn as_slice(&self) -> &[Node]
        ensures { list_of result.now ≡ self.now }
    {
        self.items.as_slice()
    }

    /// The nodes; takes no memory.
    pub fn into_vec(self) -> Vec<Node>
        ensures { list_of result.items ≡ self }
    {
        let Nodes { items } = self;
        items
    }

    /// How many there are.
    pub fn len(&self) -> usize
        ensures { result ≡ length self.now }
    {
        self.items.len()
    }

    /// How deep the boxes of the list nest: 0 where there is none, at most 500.
    pub fn nesting(&self) -> u16
        ensures value { result ≡ nesting_of (items_of self.now) }
        ensures most { result ≤ 500 }
    {
        deepest(&self.items)
    }

    /// How many nodes there are, with all that they hold; counts end at 2^64-1.
    pub fn count(&self) -> u64
        ensures { result ≡ ended (count_of (items_of self.now)) }
    {
        counted(&self.items)
    }

    /// Whether the list, in which boxes nest so deep, has leaders of a box.
    #[tactic(auto, using(crate::proofs::Alone::flat_leads))]
    fn leads(&self, nesting: u16) -> bool
        requires { nesting ≡ nesting_of (items_of self.now) }
        ensures { result ≡ leads_boxes (items_of self.now) }
    {
        nesting > 0 && leads(&self.items)
    }

    /// How many nodes are shipped of the list in a box with this head, with each copy that leaders make; counts end at 2^64-1. Boxes
    /// nest so deep in it, it has so many nodes, and leaders of a box or none: most lists have no box at all, and next to none has
    /// leaders of one.
    #[tactic(auto, using(crate::proofs::Alone::alone_is_shipped, crate::proofs::Alone::flat_is_shipped))]
    fn shipped(&self, head: BoxHead, nesting: u16, count: u64, leads: bool) -> u64
        requires is_box { IsBox head self.now }
        requires nesting { nesting ≡ nesting_of (items_of self.now) }
        requires count { count ≡ ended (count_of (items_of self.now)) }
        requires leads { leads ≡ leads_boxes (items_of self.now) }
        ensures { result ≡ ended (shipped_of head.direction head.setting begun (items_of self.now)) }
    {
        if nesting == 0 {
            return count;
        }
        if leads {
            shipped(&self.items, head)
        } else {
            shipped_alone(&self.items)
        }
    }

    /// Makes room for so many more nodes. Its only error is want of memory.
    pub fn reserve(&mut self, more: usize) -> Result<(), AllocError>
        ensures { self.new ≡ self.old }
    {
        self.items.reserve(more)
    }

    /// Puts a node at the end. After want of memory nothing has changed.
    pub fn push(&mut self, node: Node) -> Result<(), AllocError>
        ensures ok { OnOk result (self.new ≡ self.old ++ item_of node ∷ []) }
        ensures err { OnErr result (self.new ≡ self.old) }
    {
        self.items.push(node)?;
        Ok(())
    }

    /// Moves the nodes of another list behind these. After want of memory nothing has changed.
    pub fn append(&mut self, others: &mut Nodes) -> Result<(), AllocError>
        ensures ok { OnOk result ((self.new ≡ self.old ++ others.old) × (others.new ≡ [])) }
        ensures err { OnErr result ((self.new ≡ self.old) × (others.new ≡ others.old)) }
    {
        self.items.append(&mut others.items)
    }

    /// Takes the last node away, None where there is none.
    pub fn pop(&mut self) -> Option<Node>
        ensures { MatchOption result ((self.old ≡ []) × (self.new ≡ [])) (λ node. self.old ≡ self.new ++ item_of node ∷ []) }
    {
        self.items.pop()
    }

    /// Whether both have the same items.
    pub fn same(&self, other: &Nodes) -> bool
        ensures { IsTrue result ↔ (self.now ≡ other.now) }
    {
        same_list(&self.items, &other.items)
    }
}

/// A clone is the same list, and shares its boxes. Its only error is want of memory.
impl Clone for Nodes {
    ghost is_clone = { λ source copy. copy ≡ source };

    fn clone(&self) -> Result<Self, AllocError> {
        Ok(Nodes {
            items: shared(*self.items.allocator(), &self.items)?,
        })
    }
}

/// The same items, in a list of their own that shares their boxes.
fn shared(alloc: Global, nodes: &[Node]) -> Result<Vec<Node>, AllocError>
    ensures { IfOk result (λ copy. list_of copy.items ≡ list_of nodes.now) }
{
    let mut copy = Vec::with_capacity(alloc, nodes.len())?;
    for node in nodes {
        copy.push(node.clone()?)?;
    }
    Ok(copy)
}

impl BoxNode {
    /// A list in a box with this head. Its only error is want of memory.
    pub fn new(alloc: Global, head: BoxHead, list: Nodes) -> Result<BoxNode, AllocError>
        requires { IsBox head list }
        ensures { IfOk result (λ made. made ≡ record { head = head; list = list }) }
    {
        let nesting = list.nesting();
        let count = list.count();
        let leads = list.leads(nesting);
        let shipped = list.shipped(head, nesting, count, leads);
        let held = Held {
            nesting: nesting + 1,
            count: count.saturating_add(1),
            shipped: shipped.saturating_add(1),
            leads,
            list: list.into_vec(),
        };
        match Rc::new(alloc, held) {
            Ok(held) => Ok(BoxNode { head, held }),
            Err(_) => Err(AllocError),
        }
    }

    /// The list of the box, which stays as it is where a clone shares it. Its only error is want of memory.
    pub fn into_nodes(self) -> Result<Nodes, AllocError>
        ensures { IfOk result (λ list. list ≡ self.list) }
    {
        Ok(Nodes {
            items: shared(*self.held.list.allocator(), &self.held.list)?,
        })
    }
}

/// A list, as one that a node has.
fn sublist(list: Nodes) -> Sublist
    ensures { result ≡ list }
{
    Sublist {
        nesting: list.nesting(),
        count: list.count(),
        list: list.into_vec(),
    }
}

impl Node {
    /// A discretionary with these texts before and behind a break at it, of so many items that stand behind it as its no-break
    /// text; `hyphenated` says whether hyphenation made it. Its only error is want of memory.
    pub fn from_discretionary(
        alloc: Global,
        before: Nodes,
        behind: Nodes,
        replaced: u8,
        hyphenated: bool,
    ) -> Result<Node, AllocError>
        ensures { IfOk result (λ node. item_of node ≡ discretionary (record { replaced = replaced; hyphenated = hyphenated }) (items_of before) (items_of behind)) }
    {
        let made = Discretionary {
            head: BreakHead {
                replaced,
                hyphenated,
            },
            before: sublist(before),
            behind: sublist(behind),
        };
        match Rc::new(alloc, made) {
            Ok(inner) => Ok(Node::Discretionary(inner)),
            Err(_) => Err(AllocError),
        }
    }

    /// What a \vadjust puts into its list: a vertical list. Its only error is want of memory.
    pub fn from_adjustment(alloc: Global, list: Nodes) -> Result<Node, AllocError>
        ensures { IfOk result (λ node. item_of node ≡ adjustment (items_of list)) }
    {
        match Rc::new(alloc, sublist(list)) {
            Ok(inner) => Ok(Node::Adjustment(inner)),
            Err(_) => Err(AllocError),
        }
    }

    /// An insertion of a vertical list. Its only error is want of memory.
    pub fn from_insertion(alloc: Global, head: InsertHead, list: Nodes) -> Result<Node, AllocError>
        ensures { IfOk result (λ node. item_of node ≡ insertion head (items_of list)) }
    {
        let list = sublist(list);
        match Rc::new(alloc, Insertion { head, list }) {
            Ok(inner) => Ok(Node::Insertion(inner)),
            Err(_) => Err(AllocError),
        }
    }
}
