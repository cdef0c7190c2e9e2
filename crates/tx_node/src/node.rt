//! Nodes of lists, and boxes, which nest, and what else has lists.
ghost use Rattle.std.specs.Prelude.{◌≡◌, ◌≤◌, ◌<◌, ◌+◌, ◌*◌, ◌^◌, pos, suc, max, true, unsigned_abs, IfOk};
ghost use Rattle.tx_node.specs.Counts.{ended as to_the_end};
ghost use Rattle.tx_node.specs.Shipped.{box_shipped as shipped_nodes};

use crate::head::{BoxHead, BreakHead, Direction, InsertHead, LeadersHead, Setting};
use crate::places::Reached;
use crate::plain::{Plain, Shared};
use std::alloc::{AllocError, Global};
use std::marker::Model;
use std::rc::Rc;

/// A list that was packed: its head and the list, which clones share. It keeps how deep boxes nest in it, how many nodes it holds,
/// how many are shipped of it, and whether leaders of a box are in it. Contracts see a record of its head and its list.
#[cycle(node)]
#[derive(Drop)]
pub struct BoxNode {
    pub(crate) head: BoxHead,
    pub(crate) held: Rc<Held>,
}

/// The list of a box, how deep this box nests, how many nodes it is, and how many are shipped of it, itself counted; and whether the
/// list has leaders of a box.
#[cycle(node)]
#[derive(Drop)]
pub struct Held {
    pub(crate) nesting: u16,
    pub(crate) count: u64,
    pub(crate) shipped: u64,
    pub(crate) leads: bool,
    pub(crate) list: Vec<Node>,
}

/// A list that a node has that is no box: how deep boxes nest in it, how many nodes it holds, and these. Contracts see the list
/// of its items.
#[cycle(node)]
#[derive(Drop)]
pub struct Sublist {
    pub(crate) nesting: u16,
    pub(crate) count: u64,
    pub(crate) list: Vec<Node>,
}

/// A discretionary (TeX: The Program, section 145): the text before a break at it, and that behind one.
#[cycle(node)]
#[derive(Drop)]
pub struct Discretionary {
    pub head: BreakHead,
    pub before: Sublist,
    pub behind: Sublist,
}

/// An insertion (TeX: The Program, section 140), and its vertical list.
#[cycle(node)]
#[derive(Drop)]
pub struct Insertion {
    pub head: InsertHead,
    pub list: Sublist,
}

/// Leaders of a box (TeX: The Program, section 149): glue that is filled with copies of it.
#[cycle(node)]
#[derive(Drop)]
pub struct BoxLeaders {
    pub head: LeadersHead,
    pub inner: BoxNode,
}

/// One item of a list. Contracts see the item that `item_of` gives.
#[cycle(node)]
#[derive(Drop)]
pub enum Node {
    /// A small item without a list.
    Plain(Plain),
    /// A larger one, which clones of the node share.
    Shared(Rc<Shared>),
    /// A box, which clones of the node share, and by how many sp it is shifted: down in a horizontal list, to the right in a
    /// vertical one.
    Box(i32, Rc<BoxNode>),
    /// A discretionary, which clones of the node share.
    Discretionary(Rc<Discretionary>),
    /// The vertical list of a \vadjust (TeX: The Program, section 142), which clones of the node share.
    Adjustment(Rc<Sublist>),
    /// An insertion, which clones of the node share.
    Insertion(Rc<Insertion>),
    /// Leaders of a box, which clones of the node share.
    BoxLeaders(Rc<BoxLeaders>),
}

impl Model for BoxNode {
    ghost use Rattle.tx_node.specs.Items.{PackedBox};

    ghost Value = { PackedBox };

    ghost use Rattle.tx_node.specs.Codes.{box_code};

    ghost coded = { box_code };

    ghost use Rattle.tx_node.specs.Nodes.{list_of, IsKept};
    ghost use Rattle.tx_node.specs.Counts.{box_count};

    ghost view = { λ b. record { head = b.head; list = list_of b.held.value.list.items } };

    ghost invariant = { λ b. IsKept b.head b.held.value.nesting b.held.value.count b.held.value.shipped b.held.value.leads (list_of b.held.value.list.items) };

    ghost size = { box_count };

    ghost use Rattle.std.proofs.Common.{arith};
    ghost use Rattle.tx_node.specs.Falls.{falls};

    ghost size_decreases = { λ b h. omega (arith, falls b.held.value.list.items) };
}

impl Model for Sublist {
    ghost use Rattle.std.specs.Prelude.{List};
    ghost use Rattle.tx_node.specs.Items.{Item};

    ghost Value = { List Item };

    ghost use Rattle.std.specs.Coded.{coded_list};
    ghost use Rattle.tx_node.specs.Codes.{item_code};

    ghost coded = { coded_list item_code };

    ghost use Rattle.tx_node.specs.Nodes.{list_of, IsSublist};
    ghost use Rattle.tx_node.specs.Counts.{list_size};

    ghost view = { λ s. list_of s.list.items };

    ghost invariant = { λ s. IsSublist s.nesting s.count (list_of s.list.items) };

    ghost size = { list_size };

    ghost use Rattle.std.proofs.Common.{arith};
    ghost use Rattle.tx_node.specs.Falls.{falls};

    ghost size_decreases = { λ s h. omega (arith, falls s.list.items) };
}

impl Sublist {
    ghost use Rattle.tx_node.specs.Nodes.{list_of};
    ghost use Rattle.tx_node.specs.Items.{items_of};
    ghost use Rattle.tx_node.specs.Counts.{nesting_of, count_of, ended};

    /// How deep the boxes of the list nest: 0 where there is none, at most 500.
    pub fn nesting(&self) -> u16
        ensures value { result ≡ nesting_of (items_of self.now) }
        ensures most { result ≤ 500 }
    {
        self.nesting
    }

    /// How many nodes there are, with all that they hold; counts end at 2^64-1.
    pub fn count(&self) -> u64
        ensures { result ≡ ended (count_of (items_of self.now)) }
    {
        self.count
    }

    /// The list, lent.
    pub fn as_slice(&self) -> &[Node]
        ensures { list_of result.now ≡ self.now }
    {
        self.list.as_slice()
    }
}

impl Discretionary {
    ghost use Rattle.tx_node.specs.Nodes.{list_of};
    ghost use Rattle.tx_node.specs.Items.{items_of};
    ghost use Rattle.tx_node.specs.Counts.{nesting_of, count_of, item_count, ended};

    /// How many of the items that stand behind it in its list are its no-break text.
    pub fn replaced(&self) -> u8
        ensures { result ≡ self.now.head.replaced }
    {
        self.head.replaced
    }

    /// Whether hyphenation made it.
    pub fn is_hyphenated(&self) -> bool
        ensures { result ≡ self.now.head.hyphenated }
    {
        self.head.hyphenated
    }

    /// The text before a break at it, lent.
    pub fn before(&self) -> &[Node]
        ensures { list_of result.now ≡ self.now.before }
    {
        self.before.as_slice()
    }

    /// The text behind a break at it, lent.
    pub fn behind(&self) -> &[Node]
        ensures { list_of result.now ≡ self.now.behind }
    {
        self.behind.as_slice()
    }

    /// How deep boxes nest in its texts: 0 where there is none, at most 500.
    pub fn nesting(&self) -> u16
        ensures value { result ≡ max (nesting_of (items_of self.now.before)) (nesting_of (items_of self.now.behind)) }
        ensures most { result ≤ 500 }
    {
        self.before.nesting().max(self.behind.nesting())
    }

    /// How many nodes there are, this one and all that its texts hold; counts end at 2^64-1.
    pub fn count(&self) -> u64
        ensures { result ≡ ended (suc (count_of (items_of self.now.before) + count_of (items_of self.now.behind))) }
    {
        one_more(self.before.count().saturating_add(self.behind.count()))
    }
}

impl Insertion {
    ghost use Rattle.tx_node.specs.Nodes.{list_of};

    /// What it is beside its list.
    pub fn head(&self) -> InsertHead
        ensures { result ≡ self.now.head }
    {
        self.head
    }

    /// Its list, lent.
    pub fn list(&self) -> &[Node]
        ensures { list_of result.now ≡ self.now.list }
    {
        self.list.as_slice()
    }
}

impl BoxLeaders {
    /// How its copies are spread, and the glue that they fill.
    pub fn head(&self) -> LeadersHead
        ensures { result ≡ self.now.head }
    {
        self.head
    }

    /// The box of which they are copies, lent.
    pub fn inner(&self) -> &BoxNode
        ensures { result.now ≡ self.now.inner }
    {
        &self.inner
    }
}

/// A count of one node more; counts end at 2^64-1.
fn one_more(count: u64) -> u64
    ensures { result ≡ to_the_end (suc count) }
{
    count.saturating_add(1)
}

/// A number of copies, in 64 bits; it ends at 2^64-1.
fn few(copies: u128) -> u64
    ensures { result ≡ to_the_end copies }
{
    copies.min(u128::from(u64::MAX)) as u64
}

/// How many nodes are shipped of so many copies of a box; counts end at 2^64-1.
fn copied(copies: u128, inner: &BoxNode) -> u64
    ensures { result ≡ to_the_end (copies * shipped_nodes inner.now) }
{
    few(copies).saturating_mul(inner.shipped())
}

impl BoxNode {
    ghost use Rattle.tx_node.specs.Nodes.{list_of, IsBox};
    ghost use Rattle.tx_node.specs.Items.{items_of};
    ghost use Rattle.tx_node.specs.Counts.{box_nesting, box_count, ended};
    ghost use Rattle.tx_node.specs.Setting.{IsSet, sums_fit};
    ghost use Rattle.tx_node.specs.Shipped.{box_shipped, leads_boxes};

    /// What the box is beside its list.
    pub fn head(&self) -> BoxHead
        ensures { result ≡ self.now.head }
    {
        self.head
    }

    /// Which way its list goes.
    pub fn direction(&self) -> Direction
        ensures { result ≡ self.now.head.direction }
    {
        self.head.direction
    }

    /// The width, in sp.
    pub fn width(&self) -> i32
        ensures { result ≡ self.now.head.width }
    {
        self.head.width
    }

    /// The height, in sp.
    pub fn height(&self) -> i32
        ensures { result ≡ self.now.head.height }
    {
        self.head.height
    }

    /// The depth, in sp.
    pub fn depth(&self) -> i32
        ensures { result ≡ self.now.head.depth }
    {
        self.head.depth
    }

    /// How its glue is set: by something that it has, whose sum up to each place of its list is a dimension.
    pub fn setting(&self) -> Setting
        ensures value { result ≡ self.now.head.setting }
        ensures is_set { IsSet result }
        ensures sums { sums_fit result (pos 0) (items_of self.now.list) ≡ true }
    {
        let _ = &self.held;
        self.head.setting
    }

    /// Gives the box another width, in sp; its list isn't packed anew, nor copied.
    pub fn set_width(&mut self, width: i32)
        ensures { self.new ≡ record self.old { head = record self.old.head { width = width } } }
    {
        self.head.width = width;
    }

    /// Gives it another height, in sp.
    pub fn set_height(&mut self, height: i32)
        ensures { self.new ≡ record self.old { head = record self.old.head { height = height } } }
    {
        self.head.height = height;
    }

    /// Gives it another depth, in sp.
    pub fn set_depth(&mut self, depth: i32)
        ensures { self.new ≡ record self.old { head = record self.old.head { depth = depth } } }
    {
        self.head.depth = depth;
    }

    /// How deep boxes nest, this one counted: 1 where it has no box in it, at most 500.
    pub fn nesting(&self) -> u16
        ensures value { result ≡ box_nesting self.now }
        ensures most { result ≤ 500 }
    {
        self.held.nesting
    }

    /// How many nodes there are, this one and all that it holds; counts end at 2^64-1.
    pub fn count(&self) -> u64
        ensures { result ≡ ended (box_count self.now) }
    {
        self.held.count
    }

    /// How many nodes are shipped where this is: itself and all that it holds, with each copy that leaders make; counts end at 2^64-1.
    pub fn shipped(&self) -> u64
        ensures { result ≡ ended (box_shipped self.now) }
    {
        self.held.shipped
    }

    /// Whether its list has leaders of a box: by them alone it depends on places how many copies are made.
    pub fn leads(&self) -> bool
        ensures { result ≡ leads_boxes (items_of self.now.list) }
    {
        self.held.leads
    }

    /// The list, lent.
    pub fn list(&self) -> &[Node]
        ensures { list_of result.now ≡ self.now.list }
    {
        self.held.list.as_slice()
    }
}

/// A clone is the same box, and shares its list.
impl Clone for BoxNode {
    ghost is_clone = { λ source copy. copy ≡ source };

    fn clone(&self) -> Result<Self, AllocError> {
        Ok(BoxNode {
            head: self.head,
            held: self.held.clone()?,
        })
    }
}

impl Node {
    ghost use Rattle.tx_node.specs.declared.plain.Shared.{Shared as Large};
    ghost use Rattle.tx_node.specs.Nodes.{item_of};
    ghost use Rattle.tx_node.specs.Items.{shared, box_item, leaders_item};
    ghost use Rattle.tx_node.specs.Counts.{item_nesting, item_count, ended};
    ghost use Rattle.tx_node.specs.Setting.{IsSet, reach_of};
    ghost use Rattle.tx_node.specs.Shipped.{copies_made, is_leading as leads_copies, item_shipped};
    ghost use Rattle.tx_node.specs.Sizes.{advance};

    /// A larger item without a list, as a node. Its only error is want of memory.
    pub fn from_shared(alloc: Global, item: Shared) -> Result<Node, AllocError>
        ensures { IfOk result (λ node. item_of node ≡ shared item) }
    {
        match Rc::new(alloc, item) {
            Ok(inner) => Ok(Node::Shared(inner)),
            Err(_) => Err(AllocError),
        }
    }

    /// A box that is shifted by so many sp, as a node. Its only error is want of memory.
    pub fn from_box(alloc: Global, shift: i32, packed: BoxNode) -> Result<Node, AllocError>
        ensures { IfOk result (λ node. item_of node ≡ box_item shift packed) }
    {
        match Rc::new(alloc, packed) {
            Ok(inner) => Ok(Node::Box(shift, inner)),
            Err(_) => Err(AllocError),
        }
    }

    /// Leaders of a box, as a node. Its only error is want of memory.
    pub fn from_box_leaders(
        alloc: Global,
        head: LeadersHead,
        inner: BoxNode,
    ) -> Result<Node, AllocError>
        ensures { IfOk result (λ node. item_of node ≡ leaders_item head inner) }
    {
        match Rc::new(alloc, BoxLeaders { head, inner }) {
            Ok(inner) => Ok(Node::BoxLeaders(inner)),
            Err(_) => Err(AllocError),
        }
    }

    /// How deep boxes nest in the node: 0 where it has none, at most 500.
    pub fn nesting(&self) -> u16
        ensures value { result ≡ item_nesting (item_of self.now) }
        ensures most { result ≤ 500 }
    {
        match self {
            Node::Plain(_) | Node::Shared(_) => 0,
            Node::Box(_, inner) => inner.nesting(),
            Node::Discretionary(inner) => inner.nesting(),
            Node::Adjustment(inner) => inner.nesting(),
            Node::Insertion(inner) => inner.list.nesting(),
            Node::BoxLeaders(leaders) => leaders.inner.nesting(),
        }
    }

    /// How many nodes there are, this one and all that it holds; counts end at 2^64-1.
    pub fn count(&self) -> u64
        ensures { result ≡ ended (item_count (item_of self.now)) }
    {
        match self {
            Node::Plain(_) | Node::Shared(_) => 1,
            Node::Box(_, inner) => inner.count(),
            Node::Discretionary(inner) => inner.count(),
            Node::Adjustment(inner) => one_more(inner.count()),
            Node::Insertion(inner) => one_more(inner.list.count()),
            Node::BoxLeaders(leaders) => one_more(leaders.inner.count()),
        }
    }

    /// Whether the node is leaders of a box.
    pub(crate) fn is_leading(&self) -> bool
        ensures { result ≡ leads_copies (item_of self.now) }
    {
        matches!(self, Node::BoxLeaders(_))
    }

    /// How many copies the node makes where the list of a box with this head has come from here to there by it; only leaders of a box
    /// make any.
    #[tactic(auto, unfolding(crate::specs::Shipped::copies_made))]
    pub fn copies(&self, head: &BoxHead, from: Reached, to: Reached) -> u128
        requires is_set { IsSet head.now.setting }
        requires from_natural { unsigned_abs from.natural ≤ 2 ^ 97 }
        requires from_sum { unsigned_abs from.sum < 2 ^ 30 }
        requires to_natural { unsigned_abs to.natural ≤ 2 ^ 97 }
        requires to_sum { unsigned_abs to.sum < 2 ^ 30 }
        ensures { result ≡ copies_made head.now.direction head.now.setting (reach_of from) (reach_of to) (item_of self.now) }
    {
        match self {
            Node::BoxLeaders(leaders) => {
                let begins = head.stands(from);
                let size = head.stands(to) - begins;
                let copies = leaders.copies(head.direction, begins, size);
                copies.count
            }
            Node::Plain(_) | Node::Shared(_) | Node::Box(_, _) => 0,
            Node::Discretionary(_) | Node::Adjustment(_) | Node::Insertion(_) => 0,
        }
    }

    /// How many nodes are shipped of the node, which makes so many copies; counts end at 2^64-1.
    pub(crate) fn shipped(&self, copies: u128) -> u64
        ensures { result ≡ ended (item_shipped copies (item_of self.now)) }
    {
        match self {
            Node::Plain(_) | Node::Shared(_) => 1,
            Node::Box(_, inner) => inner.shipped(),
            Node::Discretionary(inner) => inner.count(),
            Node::Adjustment(inner) => one_more(inner.count()),
            Node::Insertion(inner) => one_more(inner.list.count()),
            Node::BoxLeaders(leaders) => one_more(copied(copies, &leaders.inner)),
        }
    }
}

/// A clone is the same item, and shares what it has. Its only error is want of memory.
impl Clone for Node {
    ghost use Rattle.tx_node.specs.Nodes.{item_of};

    ghost is_clone = { λ source copy. item_of copy ≡ item_of source };

    #[inline(always)]
    fn clone(&self) -> Result<Self, AllocError> {
        match self {
            Node::Plain(item) => Ok(Node::Plain(*item)),
            Node::Shared(item) => Ok(Node::Shared(item.clone()?)),
            Node::Box(shift, inner) => Ok(Node::Box(*shift, inner.clone()?)),
            Node::Discretionary(inner) => Ok(Node::Discretionary(inner.clone()?)),
            Node::Adjustment(inner) => Ok(Node::Adjustment(inner.clone()?)),
            Node::Insertion(inner) => Ok(Node::Insertion(inner.clone()?)),
            Node::BoxLeaders(inner) => Ok(Node::BoxLeaders(inner.clone()?)),
        }
    }
}
