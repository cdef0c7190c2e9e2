//! Boxes that formulas are made of (TeX: The Program, sections 704 to 715).
ghost use Rattle.std.specs.Prelude.{◌≡◌, ◌≢◌, ◌∷◌, [], pos, take, true, IfOk, IfErr, OnOk, Ok, Err};
ghost use Rattle.tx_num.specs.Glue.{IsDimension};
ghost use Rattle.tx_node.specs.Items.{box_item, items_of};
ghost use Rattle.tx_node.specs.Nodes.{item_of, list_of};
ghost use Rattle.tx_math.specs.Boxes as spec;
ghost use Rattle.tx_math.specs.Setters.{IsSetter, math_in};
ghost use Rattle.tx_math.specs.declared.error.MathError.TheVariants.{OutOfMemory};

use crate::error::MathError;
use crate::setter::Setter;
use std::alloc::{AllocError, Global};
use tx_node::{BoxHead, BoxNode, Direction, KernKind, Node, Nodes, Plain, Rule, Setting, Shared};
use tx_num::{GREATEST_DIMENSION, fits};
use tx_pack::{Goal, Packed, hpack, vpack};

/// How deep boxes may nest.
const MOST_NESTING: u16 = 500;

/// A size that is stored, in sp. `SizeOutOfRange` exactly where it is no dimension.
pub fn stored(size: i64) -> Result<i32, MathError>
    ensures { result ≡ spec.stored size }
{
    if fits(size) {
        Ok(size as i32)
    } else {
        Err(MathError::SizeOutOfRange)
    }
}

/// A kern of so many sp.
pub fn kern(size: i32) -> Node
    ensures { item_of result ≡ spec.kern size }
{
    Node::Plain(Plain::Kern(KernKind::Implicit, size))
}

/// A line that is so thick, in sp. Its only error is want of memory.
pub fn line(alloc: Global, thickness: i32) -> Result<Node, AllocError>
    ensures { IfOk result (λ node. item_of node ≡ spec.line thickness) }
{
    Node::from_shared(
        alloc,
        Shared::Rule(Rule {
            width: None,
            height: Some(thickness),
            depth: Some(0),
        }),
    )
}

/// A box that isn't shifted, as a node. Its only error is want of memory.
pub fn boxed(alloc: Global, inner: BoxNode) -> Result<Node, AllocError>
    ensures { IfOk result (λ node. item_of node ≡ box_item (pos 0) inner) }
{
    Node::from_box(alloc, 0, inner)
}

/// A box that is shifted by so many sp, as a node. `SizeOutOfRange` exactly where the shift is no dimension.
#[tactic(auto, unfolding(crate::specs::Boxes::shifted))]
pub fn shifted(alloc: Global, shift: i64, inner: BoxNode) -> Result<Node, MathError>
    ensures made { IfOk result (λ node. spec.shifted shift inner ≡ Ok (item_of node)) }
    ensures error { IfErr result (λ e. e ≢ OutOfMemory → spec.shifted shift inner ≡ Err e) }
{
    let shift = stored(shift)?;
    Ok(Node::from_box(alloc, shift, inner)?)
}

/// A list of one node. Its only error is want of memory.
pub fn single(alloc: Global, node: Node) -> Result<Nodes, AllocError>
    ensures { IfOk result (λ list. list ≡ item_of node ∷ []) }
{
    let mut list = Nodes::new(alloc);
    list.push(node)?;
    Ok(list)
}

/// A list of two nodes. Its only error is want of memory.
pub fn pair(alloc: Global, one: Node, another: Node) -> Result<Nodes, AllocError>
    ensures { IfOk result (λ list. list ≡ item_of one ∷ item_of another ∷ []) }
{
    let mut list = single(alloc, one)?;
    list.push(another)?;
    Ok(list)
}

/// A list of three nodes. Its only error is want of memory.
pub fn triple(alloc: Global, one: Node, another: Node, third: Node) -> Result<Nodes, AllocError>
    ensures { IfOk result (λ list. list ≡ item_of one ∷ item_of another ∷ item_of third ∷ []) }
{
    let mut list = Nodes::new(alloc);
    list.reserve(3)?;
    list.push(one)?;
    list.push(another)?;
    list.push(third)?;
    Ok(list)
}

/// A box with another width, in sp. `SizeOutOfRange` exactly where this is no dimension.
pub fn with_width(inner: BoxNode, width: i64) -> Result<BoxNode, MathError>
    ensures { result ≡ spec.with_width inner width }
{
    let width = stored(width)?;
    let mut inner = inner;
    inner.set_width(width);
    Ok(inner)
}

/// A box with another height and depth, in sp. `SizeOutOfRange` exactly where one of them is no dimension.
pub fn with_height(inner: BoxNode, height: i64, depth: i64) -> Result<BoxNode, MathError>
    ensures { result ≡ spec.with_height inner height depth }
{
    let height = stored(height)?;
    let depth = stored(depth)?;
    let mut inner = inner;
    inner.set_height(height);
    inner.set_depth(depth);
    Ok(inner)
}

/// A list in a vertical box of sizes of its own, in sp. `SizeOutOfRange` exactly where one of these is no dimension, else `TooDeep`
/// exactly where boxes would nest more than 500 deep.
#[tactic(auto, unfolding(crate::specs::Boxes::framed))]
pub fn framed(
    alloc: Global,
    width: i64,
    height: i64,
    depth: i64,
    list: Nodes,
) -> Result<BoxNode, MathError>
    ensures made { IfOk result (λ made. spec.framed width height depth list ≡ Ok made) }
    ensures error { IfErr result (λ e. e ≢ OutOfMemory → spec.framed width height depth list ≡ Err e) }
{
    if !(fits(width) && fits(height) && fits(depth)) {
        return Err(MathError::SizeOutOfRange);
    }
    if list.nesting() >= MOST_NESTING {
        return Err(MathError::TooDeep);
    }
    let head = BoxHead {
        direction: Direction::Vertical,
        width: width as i32,
        height: height as i32,
        depth: depth as i32,
        setting: Setting::Natural,
    };
    Ok(BoxNode::new(alloc, head, list)?)
}

impl Setter<'_> {
    /// A list in a horizontal box of natural size.
    pub fn hbox(&self, alloc: Global, list: Nodes) -> Result<BoxNode, MathError>
        requires { IsSetter self.now }
        ensures made { IfOk result (λ made. spec.hbox (math_in self.now) list ≡ Ok made) }
        ensures error { IfErr result (λ e. e ≢ OutOfMemory → spec.hbox (math_in self.now) list ≡ Err e) }
    {
        let Packed { node, .. } = hpack(alloc, list, Goal::Natural, &self.params.packing)?;
        Ok(node)
    }

    /// A list in a vertical box of natural size.
    pub fn vbox(&self, alloc: Global, list: Nodes) -> Result<BoxNode, MathError>
        requires { IsSetter self.now }
        ensures made { IfOk result (λ made. spec.vbox (math_in self.now) list ≡ Ok made) }
        ensures error { IfErr result (λ e. e ≢ OutOfMemory → spec.vbox (math_in self.now) list ≡ Err e) }
    {
        let Packed { node, .. } = vpack(
            alloc,
            list,
            Goal::Natural,
            GREATEST_DIMENSION,
            &self.params.packing,
        )?;
        Ok(node)
    }

    /// The box of a list that has been set: its own, if it is one box that isn't shifted.
    #[tactic(auto, unfolding(crate::specs::Boxes::cleaned_list))]
    pub fn cleaned_list(&self, alloc: Global, list: Nodes) -> Result<BoxNode, MathError>
        requires { IsSetter self.now }
        ensures made { IfOk result (λ made. spec.cleaned_list (math_in self.now) list ≡ Ok made) }
        ensures error { IfErr result (λ e. e ≢ OutOfMemory → spec.cleaned_list (math_in self.now) list ≡ Err e) }
    {
        match lone_box(list.as_slice())? {
            Some(inner) => Ok(without_kern(alloc, inner)?),
            None => {
                let inner = self.hbox(alloc, list)?;
                Ok(without_kern(alloc, inner)?)
            }
        }
    }
}

/// The box of a node that isn't shifted, None of other nodes. Its only error is that no more owners can be counted.
#[tactic(auto, using(crate::proofs::Lists::box_back))]
fn unshifted(node: &Node) -> Result<Option<BoxNode>, AllocError>
    ensures { IfOk result (λ found. found ≡ spec.unshifted (item_of node.now)) }
{
    match node {
        Node::Box(shift, inner) => {
            if *shift == 0 {
                Ok(Some(BoxNode::clone(inner)?))
            } else {
                Ok(None)
            }
        }
        Node::Plain(_) | Node::Shared(_) => Ok(None),
        Node::Discretionary(_) | Node::Adjustment(_) | Node::Insertion(_) => Ok(None),
        Node::BoxLeaders(_) => Ok(None),
    }
}

/// The box that a list is, if it is one and isn't shifted. Its only error is that no more owners can be counted.
fn lone_box(list: &[Node]) -> Result<Option<BoxNode>, AllocError>
    ensures { IfOk result (λ found. found ≡ spec.lone_box (list_of list.now)) }
{
    match list {
        [] => Ok(None),
        [only] => unshifted(only),
        [_, _, ..] => Ok(None),
    }
}

/// Whether a node is a character.
fn is_character(node: &Node) -> bool
    ensures { result ≡ spec.is_plain spec.plain_is_character (item_of node.now) }
{
    matches!(node, Node::Plain(Plain::Character(_)))
}

/// Whether a node is a kern.
pub fn is_kern(node: &Node) -> bool
    ensures { result ≡ spec.is_plain spec.plain_is_kern (item_of node.now) }
{
    matches!(node, Node::Plain(Plain::Kern(_, _)))
}

/// Whether a list is a character and a kern behind it.
fn is_corrected(list: &[Node]) -> bool
    ensures { result ≡ spec.is_corrected (list_of list.now) }
{
    match list {
        [] => false,
        [_] => false,
        [first, second] => is_character(first) && is_kern(second),
        [_, _, _, ..] => false,
    }
}

/// Takes the kern behind a character away, which are all of a list.
#[tactic(auto, using(crate::proofs::Lists::shorter_is))]
fn shorten(list: &mut Nodes)
    requires { spec.is_corrected list.old ≡ true }
    ensures { list.new ≡ take 1 list.old }
{
    let _ = list.pop();
}

/// A box without the kern behind a character that is alone in it. Its only error is want of memory.
#[tactic(auto, using(crate::proofs::Lists::first_box))]
fn without_kern(alloc: Global, inner: BoxNode) -> Result<BoxNode, AllocError>
    ensures { IfOk result (λ made. made ≡ record inner { list = spec.without_kern inner.list }) }
{
    if !is_corrected(inner.list()) {
        return Ok(inner);
    }
    let _setting = inner.setting();
    let _nesting = inner.nesting();
    let head = inner.head();
    let mut list = inner.into_nodes()?;
    shorten(&mut list);
    BoxNode::new(alloc, head, list)
}
