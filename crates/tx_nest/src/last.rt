//! What commands read and take away of a list's last item.
ghost use Rattle.std.specs.Prelude.{◌≡◌, is_some, option_copied, option_map, IfOk, OnOk};
ghost use Rattle.tx_node.specs.Nodes.{item_of, list_of};
ghost use Rattle.tx_nest.specs.Lasts as spec;

use crate::list::ModeList;
use std::alloc::AllocError;
use tx_node::{BoxNode, KernKind, Node, Nodes, Plain};
use tx_num::Glue;
use tx_prim::ItemKind;

/// The last node, lent, if there is one.
#[tactic(auto, using(crate::proofs::Lists::last_is))]
fn last_node(nodes: &Nodes) -> Option<&Node>
    ensures { option_map item_of (option_copied result) ≡ spec.last_of nodes.now }
{
    nodes.as_slice().last()
}

/// The number of a penalty, None of other items.
fn penalty_of(node: &Node) -> Option<i32>
    ensures { result ≡ spec.penalty_of (item_of node.now) }
{
    match node {
        Node::Plain(Plain::Penalty(number)) => Some(*number),
        Node::Plain(Plain::Kern(_, _) | Plain::Glue(_) | Plain::Character(_)) => None,
        Node::Shared(_) | Node::Box(_, _) => None,
        Node::Discretionary(_) | Node::Adjustment(_) | Node::Insertion(_) => None,
        Node::BoxLeaders(_) => None,
    }
}

/// The size of a kern in sp, None of other items.
fn kern_of(node: &Node) -> Option<i32>
    ensures { result ≡ spec.kern_of (item_of node.now) }
{
    match node {
        Node::Plain(
            Plain::Kern(KernKind::Implicit | KernKind::Accent | KernKind::Explicit, size),
        ) => Some(*size),
        Node::Plain(Plain::Kern(KernKind::MathOn | KernKind::MathOff, _)) => None,
        Node::Plain(Plain::Penalty(_) | Plain::Glue(_) | Plain::Character(_)) => None,
        Node::Shared(_) | Node::Box(_, _) => None,
        Node::Discretionary(_) | Node::Adjustment(_) | Node::Insertion(_) => None,
        Node::BoxLeaders(_) => None,
    }
}

/// The box of an item, None of other items. Its only error is that no more owners can be counted.
#[tactic(auto, using(crate::proofs::Lists::listed))]
fn box_of(node: &Node) -> Result<Option<BoxNode>, AllocError>
    ensures { IfOk result (λ found. found ≡ spec.box_of (item_of node.now)) }
{
    match node {
        Node::Box(_, inner) => Ok(Some(BoxNode::clone(inner)?)),
        Node::Plain(_) | Node::Shared(_) => Ok(None),
        Node::Discretionary(_) | Node::Adjustment(_) | Node::Insertion(_) => Ok(None),
        Node::BoxLeaders(_) => Ok(None),
    }
}

/// \lastpenalty: the number of a penalty that stands last, else 0.
pub fn last_penalty(nodes: &Nodes) -> i32
    ensures { result ≡ spec.last_penalty nodes.now }
{
    match last_node(nodes) {
        Some(node) => penalty_of(node).unwrap_or(0),
        None => 0,
    }
}

/// \lastkern: the size of a kern that stands last, in sp, else 0.
pub fn last_kern(nodes: &Nodes) -> i32
    ensures { result ≡ spec.last_kern nodes.now }
{
    match last_node(nodes) {
        Some(node) => kern_of(node).unwrap_or(0),
        None => 0,
    }
}

/// \lastskip: the glue that stands last, that of leaders too, else none.
pub fn last_skip(nodes: &Nodes) -> Glue
    ensures { result ≡ spec.last_skip nodes.now }
{
    match last_node(nodes) {
        Some(node) => node.glue().unwrap_or(Glue::zero()),
        None => Glue::zero(),
    }
}

/// Whether an item is of a kind.
fn is_of(kind: ItemKind, node: &Node) -> bool
    ensures { result ≡ spec.is_of kind (item_of node.now) }
{
    match kind {
        ItemKind::Penalty => penalty_of(node).is_some(),
        ItemKind::Kern => kern_of(node).is_some(),
        ItemKind::Skip => node.glue().is_some(),
    }
}

/// Whether an item of a kind stands last.
fn is_last_of(kind: ItemKind, nodes: &Nodes) -> bool
    ensures { result ≡ spec.is_last_of kind (spec.last_of nodes.now) }
{
    match last_node(nodes) {
        Some(node) => is_of(kind, node),
        None => false,
    }
}

/// Whether an item is a discretionary whose no-break text all of so many items behind it are.
fn reaches(distance: usize, node: &Node) -> bool
    ensures { result ≡ spec.reaches distance (item_of node.now) }
{
    match node {
        Node::Discretionary(inner) => {
            0 < distance && distance < 256 && distance <= usize::from(inner.replaced())
        }
        Node::Plain(_) | Node::Shared(_) | Node::Box(_, _) => false,
        Node::Adjustment(_) | Node::Insertion(_) => false,
        Node::BoxLeaders(_) => false,
    }
}

/// Whether the last of these items belongs to the no-break text of a discretionary among them.
fn is_replaced_in(items: &[Node]) -> bool
    ensures { result ≡ spec.is_replaced (list_of items.now) }
{
    let count = items.len();
    for i in 0..count {
        if reaches(count - 1 - i, &items[i]) {
            return true;
        }
    }
    false
}

/// Whether the last item belongs to a discretionary's no-break text: this has at most 255 items, so no more of them are looked
/// at before the last one.
fn is_replaced(nodes: &Nodes) -> bool
    ensures { result ≡ spec.is_replaced nodes.now }
{
    let items = nodes.as_slice();
    let passed = items.len().saturating_sub(256);
    is_replaced_in(&items[passed..])
}

/// Takes the last item away, if there is one.
#[tactic(auto, using(crate::proofs::Lists::shortened_more))]
fn shorten(nodes: &mut Nodes)
    ensures { nodes.new ≡ spec.shortened nodes.old }
{
    let _ = nodes.pop();
}

/// \unpenalty, \unkern and \unskip: takes the last item away where it is of this kind and belongs to no no-break text.
pub fn remove_last(nodes: &mut Nodes, kind: ItemKind)
    ensures { nodes.new ≡ spec.without_last kind nodes.old }
{
    if is_last_of(kind, nodes) && !is_replaced(nodes) {
        shorten(nodes);
    }
}

/// The box that stands last and belongs to no no-break text, lent list and all. Its only error is that no more owners can be
/// counted.
fn last_box(nodes: &Nodes) -> Result<Option<BoxNode>, AllocError>
    ensures { IfOk result (λ found. found ≡ spec.last_box nodes.now) }
{
    if is_replaced(nodes) {
        return Ok(None);
    }
    match last_node(nodes) {
        Some(node) => box_of(node),
        None => Ok(None),
    }
}

/// Whether a box stands last that belongs to no no-break text.
pub fn has_last_box(nodes: &Nodes) -> bool
    ensures { result ≡ is_some (spec.last_box nodes.now) }
{
    !is_replaced(nodes) && matches!(last_node(nodes), Some(Node::Box(_, _)))
}

/// \lastbox: takes a box that stands last away and answers it, without its shift; None where no box stands last, or one of a
/// no-break text. After an
/// error, that no more owners can be counted, nothing has changed.
pub fn take_last_box(nodes: &mut Nodes) -> Result<Option<BoxNode>, AllocError>
    ensures found { IfOk result (λ found. found ≡ spec.last_box nodes.old) }
    ensures left { OnOk result (nodes.new ≡ spec.without_box nodes.old) }
{
    let found = last_box(nodes)?;
    if found.is_some() {
        shorten(nodes);
    }
    Ok(found)
}
