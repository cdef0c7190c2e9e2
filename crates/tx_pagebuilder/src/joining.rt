//! The boxes of classes, with what insertions join them.
ghost use Rattle.std.specs.Prelude.{◌≡◌, ◌≢◌, ◌++◌, [], IfOk, IfErr, OnOk, Ok, Err};
ghost use Rattle.tx_node.specs.Nodes.{item_of, list_of};
ghost use Rattle.tx_pagebuilder.specs.declared.error.PageError.TheVariants.{OutOfMemory};
ghost use Rattle.tx_pagebuilder.specs.Fired as spec;
ghost use Rattle.tx_pack.specs.declared.types.PackError.TheVariants as packing;

use crate::boxes::{BoxList, ClassBox};
use crate::class::{Class, Cut};
use crate::error::PageError;
use std::alloc::{AllocError, Global};
use tx_list::Items;
use tx_node::{BoxNode, Direction, Insertion, Node, Nodes};
use tx_num::GREATEST_DIMENSION;
use tx_pack::{Goal, PackError, PackParams, Packed, vpack};

impl From<PackError> for PageError {
    ghost from_gives = { λ e r. r ≡ spec.of_packing e };

    fn from(error: PackError) -> Self {
        match error {
            PackError::SizeOutOfRange => PageError::SizeOutOfRange,
            PackError::TooDeep => PageError::TooDeep,
            PackError::OutOfMemory => PageError::OutOfMemory,
        }
    }
}

/// A list in a box that is as high as it, and as deep.
#[tactic(auto, unfolding(crate::specs::Fired::packed_naturally))]
pub(crate) fn packed_naturally(alloc: Global, list: Nodes) -> Result<Packed, PackError>
    ensures packed { IfOk result (λ made. spec.packed_naturally list ≡ Ok made) }
    ensures error { IfErr result (λ e. e ≢ packing.OutOfMemory → spec.packed_naturally list ≡ Err e) }
{
    let silent = PackParams {
        badness: 10_000,
        fuzz: GREATEST_DIMENSION,
        overfull_rule: 0,
    };
    vpack(alloc, list, Goal::Natural, GREATEST_DIMENSION, &silent)
}

/// What of the list of an insertion at a place of the page joins the box of its class.
#[tactic(auto, using(crate::proofs::Lists::taken))]
fn part_of(split: Option<Cut>, place: usize, list: &[Node]) -> &[Node]
    ensures { list_of result.now ≡ spec.part_of split place (list_of list.now) }
{
    match split {
        None => list,
        Some(cut) => {
            if place < cut.insert {
                list
            } else if place == cut.insert {
                &list[..cut.place.min(list.len())]
            } else {
                &list[..0]
            }
        }
    }
}

/// Puts nodes behind those of a list, and shares them. Its only error is want of memory.
pub(crate) fn share_behind(list: &mut Nodes, nodes: &[Node]) -> Result<(), AllocError>
    ensures { OnOk result (list.new ≡ list.old ++ list_of nodes.now) }
{
    for node in nodes {
        list.push(node.clone()?)?;
    }
    Ok(())
}

/// Puts what of an insertion at a place of the page joins the box of a class behind a list. Its only error is want of memory.
fn join_insertion(
    list: &mut Nodes,
    class: &Class,
    place: usize,
    insertion: &Insertion,
) -> Result<(), AllocError>
    ensures { OnOk result (list.new ≡ list.old ++ spec.joining_insertion class.now.number class.now.split place insertion.now.head insertion.now.list) }
{
    if insertion.head().class == class.number {
        share_behind(list, part_of(class.split, place, insertion.list()))
    } else {
        Ok(())
    }
}

/// The same of any node.
#[tactic(auto, using(crate::proofs::Lists::listed))]
fn join(list: &mut Nodes, class: &Class, place: usize, node: &Node) -> Result<(), AllocError>
    ensures { OnOk result (list.new ≡ list.old ++ spec.joining class.now.number class.now.split place (item_of node.now)) }
{
    match node {
        Node::Insertion(inner) => join_insertion(list, class, place, inner),
        Node::Plain(_) | Node::Shared(_) | Node::Box(_, _) => Ok(()),
        Node::Discretionary(_) | Node::Adjustment(_) => Ok(()),
        Node::BoxLeaders(_) => Ok(()),
    }
}

/// The same of all nodes above a break.
fn join_all(list: &mut Nodes, class: &Class, above: &[Node]) -> Result<(), AllocError>
    ensures { OnOk result (list.new ≡ list.old ++ spec.joining_from class.now.number class.now.split 0 (list_of above.now)) }
{
    for place in 0..above.len() {
        join(list, class, place, &above[place])?;
    }
    Ok(())
}

/// Whether a node is an insertion of a class.
fn is_of(number: u8, node: &Node) -> bool
    ensures { result ≡ spec.is_of number (item_of node.now) }
{
    match node {
        Node::Insertion(inner) => inner.head().class == number,
        Node::Plain(_) | Node::Shared(_) | Node::Box(_, _) => false,
        Node::Discretionary(_) | Node::Adjustment(_) => false,
        Node::BoxLeaders(_) => false,
    }
}

/// Whether one is among nodes.
fn is_among(number: u8, nodes: &[Node]) -> bool
    ensures { result ≡ spec.is_among number (list_of nodes.now) }
{
    for node in nodes {
        if is_of(number, node) {
            return true;
        }
    }
    false
}

/// The box of a class, None where it is void. Its only error is that no more owners can be counted.
fn box_of(number: u8, boxes: &[ClassBox]) -> Result<Option<BoxNode>, AllocError>
    ensures { IfOk result (λ found. found ≡ spec.box_of number boxes.now) }
{
    for found in boxes {
        if found.class == number {
            return Ok(Some(found.node.clone()?));
        }
    }
    Ok(None)
}

fn is_horizontal(direction: Direction) -> bool
    ensures { result ≡ spec.is_horizontal direction }
{
    match direction {
        Direction::Horizontal => true,
        Direction::Vertical => false,
    }
}

/// Whether the box of a class is an \hbox.
fn is_hbox(number: u8, boxes: &[ClassBox]) -> bool
    ensures { result ≡ spec.is_hbox (spec.box_of number boxes.now) }
{
    for found in boxes {
        if found.class == number {
            return is_horizontal(found.node.direction());
        }
    }
    false
}

/// Whether a class that an insertion above the break joins has an \hbox.
pub(crate) fn has_wrong_box(boxes: &[ClassBox], above: &[Node], classes: &[Class]) -> bool
    ensures { result ≡ spec.has_wrong_box boxes.now (list_of above.now) classes.now }
{
    for class in classes {
        if is_among(class.number, above) && is_hbox(class.number, boxes) {
            return true;
        }
    }
    false
}

/// What a box has, nothing where there is none. Its only error is want of memory.
fn list_in(alloc: Global, found: Option<BoxNode>) -> Result<Nodes, AllocError>
    ensures { IfOk result (λ list. list ≡ spec.list_in found) }
{
    match found {
        None => Ok(Nodes::new(alloc)),
        Some(node) => node.into_nodes(),
    }
}

/// What the box of a class has, and behind it what joins. Its only error is want of memory.
fn filled(
    alloc: Global,
    boxes: &[ClassBox],
    above: &[Node],
    class: &Class,
) -> Result<Nodes, AllocError>
    ensures { IfOk result (λ list. list ≡ spec.filled boxes.now (list_of above.now) class.now) }
{
    let mut list = list_in(alloc, box_of(class.number, boxes)?)?;
    join_all(&mut list, class, above)?;
    Ok(list)
}

/// The box that was packed.
fn packed_box(packed: Packed) -> BoxNode
    ensures { result ≡ packed.node }
{
    let Packed {
        node,
        badness: _badness,
        report: _report,
    } = packed;
    node
}

/// Makes the box of a class behind others, if an insertion above the break joins it.
fn make_box(
    alloc: Global,
    made: &mut BoxList,
    boxes: &[ClassBox],
    above: &[Node],
    class: &Class,
) -> Result<(), PageError>
    ensures ok { OnOk result (spec.behind_boxes made.old Ok (spec.box_made boxes.now (list_of above.now) class.now) ≡ Ok made.new) }
    ensures error { IfErr result (λ e. e ≢ OutOfMemory → spec.box_made boxes.now (list_of above.now) class.now ≡ Err e) }
{
    if !is_among(class.number, above) {
        return Ok(());
    }
    let node = packed_box(packed_naturally(alloc, filled(alloc, boxes, above, class)?)?);
    made.push(ClassBox {
        class: class.number,
        node,
    })?;
    Ok(())
}

/// The boxes of the classes that insertions above the break join, in their order.
#[tactic(auto, using(crate::proofs::Behind::boxes_next))]
pub(crate) fn boxes_made(
    alloc: Global,
    boxes: &[ClassBox],
    above: &[Node],
    classes: &[Class],
) -> Result<BoxList, PageError>
    ensures ok { IfOk result (λ made. spec.boxes_made boxes.now (list_of above.now) [] classes.now ≡ Ok made) }
    ensures error { IfErr result (λ e. e ≢ OutOfMemory → spec.boxes_made boxes.now (list_of above.now) [] classes.now ≡ Err e) }
{
    let mut made = Items::new(alloc);
    for class in classes {
        make_box(alloc, &mut made, boxes, above, class)?;
    }
    Ok(made)
}
