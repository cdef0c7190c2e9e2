//! What the page builder takes from the table (TeX: The Program, sections 987, 1001 and 1009).
ghost use Rattle.std.specs.Prelude.{◌≡◌, ◌++◌, IfOk, OnOk};
ghost use Rattle.tx_box.specs.Inserts.{whole_size};
ghost use Rattle.tx_node.specs.Nodes.{item_of};
ghost use Rattle.tx_galley.specs.Params as spec;

use std::alloc::{AllocError, Global};
use tx_box::whole_size;
use tx_eqtb::Eqtb;
use tx_node::{BoxNode, Direction, Node};
use tx_pagebuilder::{BoxList, Class, ClassBox, ClassParams, PageParams};
use tx_prim::{DimensionParameter, GlueParameter, IntegerParameter};
use tx_seen::Place;

/// Whether a number is an integer.
pub(crate) fn is_integer(number: i64) -> bool
    ensures { result ≡ spec.is_integer number }
{
    number.unsigned_abs() < 1 << 31
}

/// The height and depth of a box together, in sp: a function of this crate, since what is handed on by its name has to be one.
fn box_size(found: &BoxNode) -> i64
    ensures { result ≡ whole_size found.now.head }
{
    whole_size(found)
}

/// Whether a box is an \hbox.
fn is_across(found: &BoxNode) -> bool
    ensures { result ≡ spec.is_across found.now.head }
{
    matches!(found.head().direction, Direction::Horizontal)
}

/// The registers of a class of insertions.
fn class_params(table: &Eqtb, class: u8) -> ClassParams
    ensures { result ≡ spec.class_params table.now.table class }
{
    let found = table.boxed(&Place::Box(class));
    ClassParams {
        box_size: found.map(box_size),
        is_hbox: found.is_some_and(is_across),
        count: table.number(&Place::Count(class)),
        dimen: table.number(&Place::Dimen(class)),
        skip: table.glue(&Place::Skip(class)),
    }
}

/// The same of the class of a node, if that is an insertion.
fn node_class(table: &Eqtb, node: &Node) -> Option<ClassParams>
    ensures { result ≡ spec.item_class table.now.table (item_of node.now) }
{
    match node {
        Node::Insertion(inner) => Some(class_params(table, inner.head().class)),
        Node::Plain(_) | Node::Shared(_) | Node::Box(_, _) => None,
        Node::Discretionary(_) | Node::Adjustment(_) => None,
        Node::BoxLeaders(_) => None,
    }
}

/// What contributing a node takes from the table.
pub(crate) fn node_params(alloc: Global, table: &Eqtb, node: &Node) -> PageParams
    ensures value { result ≡ spec.item_params table.now.table (item_of node.now) }
{
    PageParams {
        vsize: table.dimension(DimensionParameter::Vsize),
        max_depth: table.dimension(DimensionParameter::Maxdepth),
        top_skip: table.glue_parameter(GlueParameter::Topskip),
        holding_inserts: table.integer(IntegerParameter::Holdinginserts),
        class: node_class(table, node),
        boxes: BoxList::new(alloc),
    }
}

/// Puts the box of a class behind others, unless its register is void. Its only error is want of memory.
fn push_box(boxes: &mut BoxList, table: &Eqtb, class: u8) -> Result<(), AllocError>
    ensures { OnOk result (boxes.new ≡ boxes.old ++ spec.class_box table.now.table class) }
{
    match table.boxed(&Place::Box(class)) {
        Some(found) => {
            let node = found.clone()?;
            boxes.push(ClassBox { class, node })
        }
        None => Ok(()),
    }
}

/// The boxes of classes, those that are void left out. Its only error is want of memory.
fn class_boxes(alloc: Global, table: &Eqtb, classes: &[Class]) -> Result<BoxList, AllocError>
    ensures { IfOk result (λ boxes. boxes ≡ spec.class_boxes table.now.table classes.now) }
{
    let mut boxes = BoxList::new(alloc);
    for class in classes {
        push_box(&mut boxes, table, class.number)?;
    }
    Ok(boxes)
}

/// What firing a page with these classes takes from the table. Its only error is want of memory.
pub(crate) fn fire_params(
    alloc: Global,
    table: &Eqtb,
    classes: &[Class],
) -> Result<PageParams, AllocError>
    ensures { IfOk result (λ params. params ≡ spec.fire_params table.now.table classes.now) }
{
    Ok(PageParams {
        vsize: table.dimension(DimensionParameter::Vsize),
        max_depth: table.dimension(DimensionParameter::Maxdepth),
        top_skip: table.glue_parameter(GlueParameter::Topskip),
        holding_inserts: table.integer(IntegerParameter::Holdinginserts),
        class: None,
        boxes: class_boxes(alloc, table, classes)?,
    })
}
