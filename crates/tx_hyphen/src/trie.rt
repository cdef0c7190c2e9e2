//! Places by lists of letters, in a tree: letters lead from its root from node to node, and at the last one the place is
//! kept. A look-up takes a step for each letter, among the children of one node.

ghost use Rattle.std.specs.Prelude.{◌≡◌, ◌≢◌, ◌<◌, ℕ, List, Some, None, length, IfSome, IfOk, OnOk, OnErr};
ghost use Rattle.tx_hyphen.specs.Trie.{IsLinked, child_of, grown, kept, node, placed, walk};

use std::alloc::{AllocError, Global};
use std::marker::Model;

/// A node of the tree.
#[derive(Clone, Copy)]
pub struct Node {
    /// The letter that leads here from the parent.
    pub letter: u8,
    pub parent: usize,
    /// The child of the parent that was hung on it before this one.
    pub sibling: Option<usize>,
    /// The child that was hung here last.
    pub child: Option<usize>,
    /// What is kept here.
    pub place: Option<usize>,
}

/// A tree of letters.
#[derive(Drop)]
pub struct Trie {
    nodes: Vec<Node>,
}

impl Model for Trie {
    ghost use Rattle.std.specs.Prelude.{List};
    ghost use Rattle.tx_hyphen.specs.declared.trie.Node.{Node};

    ghost Value = { List Node };

    ghost use Rattle.tx_hyphen.specs.Trie.{IsLinked};

    ghost view = { λ t. t.nodes.items };

    ghost invariant = { λ t. IsLinked t.nodes.items };
}

/// A clone is the same tree. Its only error is want of memory.
impl Clone for Trie {
    ghost is_clone = { λ source copy. copy ≡ source };

    fn clone(&self) -> Result<Self, AllocError> {
        Ok(Trie {
            nodes: self.nodes.clone()?,
        })
    }
}

/// The node at which every walk begins.
const ROOT: usize = 0;

impl Trie {
    /// A tree without letters. Its only error is want of memory.
    pub fn new(alloc: Global) -> Result<Trie, AllocError>
        ensures rooted { IfOk result (λ t. 0 < length t) }
        ensures empty { IfOk result (λ t. (letters : List ℕ) → kept t letters ≡ None) }
    {
        let mut nodes = Vec::new(alloc);
        nodes.push(Node {
            letter: 0,
            parent: ROOT,
            sibling: None,
            child: None,
            place: None,
        })?;
        Ok(Trie { nodes })
    }

    /// The node to which a letter leads from another.
    pub fn child(&self, parent: usize, letter: u8) -> Option<usize>
        requires { parent < length self.now }
        ensures child { result ≡ child_of self.now parent letter }
        ensures inside { IfSome result (λ k. k < length self.now) }
    {
        child_in(self.nodes.as_slice(), parent, letter)
    }

    /// The place that is kept where letters lead.
    pub fn find(&self, letters: &[u8]) -> Option<usize>
        ensures { result ≡ kept self.now letters.now }
    {
        let mut at = self.root();
        for letter in letters {
            at = self.child(at, *letter)?;
        }
        self.place(at)
    }

    /// Keeps a place where letters lead. After want of memory what is kept is as before.
    pub fn keep(&mut self, letters: &[u8], place: usize) -> Result<(), AllocError>
        ensures here { OnOk result (kept self.new letters.now ≡ Some place) }
        ensures others { OnOk result ((others : List ℕ) → others ≢ letters.now → kept self.new others ≡ kept self.old others) }
        ensures err { OnErr result ((others : List ℕ) → kept self.new others ≡ kept self.old others) }
    {
        let at = node_for(&mut self.nodes, letters)?;
        keep_at(&mut self.nodes, at, place);
        Ok(())
    }

    /// The node at which each walk begins.
    pub fn root(&self) -> usize
        ensures { (result ≡ 0) × (result < length self.now) }
    {
        // A look at the fields brings up what holds of them: that there is a root.
        let _nodes = &self.nodes;
        ROOT
    }

    /// What is kept at a node.
    pub fn place(&self, at: usize) -> Option<usize>
        requires { at < length self.now }
        ensures { result ≡ (node self.now at).place }
    {
        node_at(self.nodes.as_slice(), at).place
    }
}

/// The node to which letters lead from the root, hung there if need be. No place that is kept changes.
fn node_for(nodes: &mut Vec<Node>, letters: &[u8]) -> Result<usize, AllocError>
    requires { IsLinked nodes.old.items }
    ensures linked { IsLinked nodes.new.items }
    ensures kept { (others : List ℕ) → kept nodes.new.items others ≡ kept nodes.old.items others }
    ensures led { IfOk result (λ k. walk nodes.new.items 0 letters.now ≡ Some k) }
    ensures inside { IfOk result (λ k. k < length nodes.new.items) }
{
    let mut at = ROOT;
    for letter in letters {
        at = match child_in(nodes.as_slice(), at, *letter) {
            Some(child) => child,
            None => hang(nodes, at, *letter)?,
        };
    }
    Ok(at)
}

/// A node by its number.
fn node_at(nodes: &[Node], k: usize) -> Node
    requires { k < length nodes.now }
    ensures { result ≡ node nodes.now k }
{
    nodes[k]
}

/// The node to which a letter leads from another.
fn child_in(nodes: &[Node], parent: usize, letter: u8) -> Option<usize>
    requires linked { IsLinked nodes.now }
    requires inside { parent < length nodes.now }
    ensures child { result ≡ child_of nodes.now parent letter }
    ensures inside { IfSome result (λ k. k < length nodes.now) }
{
    let mut next = node_at(nodes, parent).child;
    while let Some(k) = next {
        let candidate = node_at(nodes, k);
        if candidate.letter == letter {
            return Some(k);
        }
        next = candidate.sibling;
    }
    None
}

/// Hangs one more node on another by a letter, and gives its number. After want of memory nothing has changed.
fn hang(nodes: &mut Vec<Node>, parent: usize, letter: u8) -> Result<usize, AllocError>
    requires { parent < length nodes.old.items }
    ensures number { IfOk result (λ k. k ≡ length nodes.old.items) }
    ensures ok { OnOk result (nodes.new.items ≡ grown nodes.old.items parent letter) }
    ensures err { OnErr result (nodes.new.items ≡ nodes.old.items) }
{
    let number = nodes.len();
    let above = node_at(nodes.as_slice(), parent);
    nodes.push(Node {
        letter,
        parent,
        sibling: above.child,
        child: None,
        place: None,
    })?;
    nodes[parent] = Node {
        child: Some(number),
        ..above
    };
    Ok(number)
}

/// Keeps a place at a node.
fn keep_at(nodes: &mut Vec<Node>, at: usize, place: usize)
    requires { at < length nodes.old.items }
    ensures { nodes.new.items ≡ placed nodes.old.items at place }
{
    let node = node_at(nodes.as_slice(), at);
    nodes[at] = Node {
        place: Some(place),
        ..node
    };
}
