//! What is held over to the next page.
ghost use Rattle.std.specs.Prelude.{◌≡◌, ◌≢◌, ◌∷◌, [], filter, drop, IfOk, IfErr, OnOk, Ok, Err};
ghost use Rattle.tx_node.specs.Nodes.{item_of, list_of};
ghost use Rattle.tx_pagebuilder.specs.declared.error.PageError.TheVariants.{OutOfMemory};
ghost use Rattle.tx_pagebuilder.specs.Fired as spec;
ghost use Rattle.tx_pagebuilder.specs.Inserts.{class_of};

use crate::class::{Class, Cut};
use crate::classes::class_of;
use crate::error::PageError;
use crate::joining::packed_naturally;
use crate::sizes::{dimension, plus, wide};
use std::alloc::{AllocError, Global};
use tx_insert::remaining;
use tx_node::{InsertHead, Insertion, Node, Nodes};
use tx_pack::Packed;

/// How high and deep a box is together, in sp.
fn box_size(packed: &Packed) -> Result<i32, PageError>
    ensures { result ≡ spec.box_size packed.now }
{
    dimension(plus(wide(packed.node.height()), wide(packed.node.depth())))
}

/// How high and deep a list is together, in sp.
fn natural_size(alloc: Global, list: &Nodes) -> Result<i32, PageError>
    ensures ok { IfOk result (λ size. spec.natural_size (spec.packed_naturally list.now) ≡ Ok size) }
    ensures error { IfErr result (λ e. e ≢ OutOfMemory → spec.natural_size (spec.packed_naturally list.now) ≡ Err e) }
{
    let packed = packed_naturally(alloc, list.clone()?)?;
    box_size(&packed)
}

/// What remains of an insertion that was split, as one of its new size.
fn rest_packed(alloc: Global, head: InsertHead, list: Nodes) -> Result<Node, PageError>
    ensures ok { IfOk result (λ node. spec.rest_packed head list (spec.packed_naturally list) ≡ Ok (item_of node ∷ [])) }
    ensures error { IfErr result (λ e. e ≢ OutOfMemory → spec.rest_packed head list (spec.packed_naturally list) ≡ Err e) }
{
    let mut head = head;
    head.size = natural_size(alloc, &list)?;
    Ok(Node::from_insertion(alloc, head, list)?)
}

/// Holds over what remains of an insertion that was split, if it is anything; `below` stands behind the break of its list.
fn hold_rest(
    alloc: Global,
    held: &mut Nodes,
    head: InsertHead,
    below: &[Node],
) -> Result<(), PageError>
    ensures ok { OnOk result (spec.behind_items held.old Ok (spec.rest_of head (list_of below.now)) ≡ Ok held.new) }
    ensures error { IfErr result (λ e. e ≢ OutOfMemory → spec.rest_of head (list_of below.now) ≡ Err e) }
{
    let rest = remaining(alloc, &head.split_top_skip, below)?;
    if rest.len() == 0 {
        return Ok(());
    }
    held.push(rest_packed(alloc, head, rest)?)?;
    Ok(())
}

/// Where the class of an insertion was split.
fn cut_of(found: Option<Class>) -> Option<Cut>
    ensures { result ≡ spec.cut_of found }
{
    match found {
        None => None,
        Some(class) => class.split,
    }
}

/// Holds over what remains of an insertion that was split at a place of its list.
#[tactic(auto, using(crate::proofs::Lists::dropped))]
fn hold_below(
    alloc: Global,
    held: &mut Nodes,
    place: usize,
    insertion: &Insertion,
) -> Result<(), PageError>
    ensures ok { OnOk result (spec.behind_items held.old Ok (spec.rest_of insertion.now.head (drop place insertion.now.list)) ≡ Ok held.new) }
    ensures error { IfErr result (λ e. e ≢ OutOfMemory → spec.rest_of insertion.now.head (drop place insertion.now.list) ≡ Err e) }
{
    let list = insertion.list();
    let (_, below) = list.split_at(place.min(list.len()));
    hold_rest(alloc, held, insertion.head(), below)
}

/// Holds over what of an insertion at a place of the page is, whose class was split there.
fn hold_behind(
    alloc: Global,
    held: &mut Nodes,
    cut: Cut,
    place: usize,
    insertion: &Insertion,
    node: &Node,
) -> Result<(), PageError>
    ensures ok { OnOk result (spec.behind_items held.old Ok (spec.held_behind cut place insertion.now.head insertion.now.list (item_of node.now)) ≡ Ok held.new) }
    ensures error { IfErr result (λ e. e ≢ OutOfMemory → spec.held_behind cut place insertion.now.head insertion.now.list (item_of node.now) ≡ Err e) }
{
    if place < cut.insert {
        Ok(())
    } else if place == cut.insert {
        hold_below(alloc, held, cut.place, insertion)
    } else {
        held.push(node.clone()?)?;
        Ok(())
    }
}

/// Holds over what of an insertion at a place of the page is.
fn hold_insertion(
    alloc: Global,
    held: &mut Nodes,
    classes: &[Class],
    place: usize,
    insertion: &Insertion,
    node: &Node,
) -> Result<(), PageError>
    ensures ok { OnOk result (spec.behind_items held.old Ok (spec.held_by (spec.cut_of (class_of insertion.now.head.class classes.now)) place insertion.now.head insertion.now.list (item_of node.now)) ≡ Ok held.new) }
    ensures error { IfErr result (λ e. e ≢ OutOfMemory → spec.held_by (spec.cut_of (class_of insertion.now.head.class classes.now)) place insertion.now.head insertion.now.list (item_of node.now) ≡ Err e) }
{
    match cut_of(class_of(insertion.head().class, classes)) {
        None => Ok(()),
        Some(cut) => hold_behind(alloc, held, cut, place, insertion, node),
    }
}

/// Holds over what of a node at a place of the page is.
#[tactic(auto, using(crate::proofs::Lists::listed))]
fn hold(
    alloc: Global,
    held: &mut Nodes,
    classes: &[Class],
    place: usize,
    node: &Node,
) -> Result<(), PageError>
    ensures ok { OnOk result (spec.behind_items held.old Ok (spec.held classes.now place (item_of node.now)) ≡ Ok held.new) }
    ensures error { IfErr result (λ e. e ≢ OutOfMemory → spec.held classes.now place (item_of node.now) ≡ Err e) }
{
    match node {
        Node::Insertion(inner) => hold_insertion(alloc, held, classes, place, inner, node),
        Node::Plain(_) | Node::Shared(_) | Node::Box(_, _) => Ok(()),
        Node::Discretionary(_) | Node::Adjustment(_) => Ok(()),
        Node::BoxLeaders(_) => Ok(()),
    }
}

/// What of the insertions above the break is held over.
#[tactic(auto, using(crate::proofs::Behind::items_next))]
pub(crate) fn held_over(
    alloc: Global,
    classes: &[Class],
    above: &[Node],
) -> Result<Nodes, PageError>
    ensures ok { IfOk result (λ held. spec.held_from classes.now 0 [] (list_of above.now) ≡ Ok held) }
    ensures error { IfErr result (λ e. e ≢ OutOfMemory → spec.held_from classes.now 0 [] (list_of above.now) ≡ Err e) }
{
    let mut held = Nodes::new(alloc);
    for place in 0..above.len() {
        hold(alloc, &mut held, classes, place, &above[place])?;
    }
    Ok(held)
}

/// Whether a node stays in the page's list: all but an insertion does.
fn stays_on(node: &Node) -> bool
    ensures { result ≡ spec.stays_on (item_of node.now) }
{
    match node {
        Node::Insertion(_) => false,
        Node::Plain(_) | Node::Shared(_) | Node::Box(_, _) => true,
        Node::Discretionary(_) | Node::Adjustment(_) => true,
        Node::BoxLeaders(_) => true,
    }
}

/// The nodes that stay in the page's list. Its only error is want of memory.
pub(crate) fn staying(alloc: Global, above: &[Node]) -> Result<Nodes, AllocError>
    ensures { IfOk result (λ list. list ≡ filter spec.stays_on (list_of above.now)) }
{
    let mut list = Nodes::new(alloc);
    for node in above {
        if stays_on(node) {
            list.push(node.clone()?)?;
        }
    }
    Ok(list)
}
