//! Rows in their boxes (TeX: The Program, sections 807 to 811).
ghost use Rattle.std.specs.Prelude.{◌≡◌, ◌≢◌, ◌++◌, pos, true, flat_map, IfOk, IfErr, Ok, Err, OnOk};
ghost use Rattle.tx_node.specs.Items.{box_item, items_of};
ghost use Rattle.tx_node.specs.Nodes.{item_of};
ghost use Rattle.tx_node.specs.Setting.{IsSet, sums_fit};
ghost use Rattle.tx_align.specs.declared.error.AlignError.TheVariants.{OutOfMemory};
ghost use Rattle.tx_align.specs.Prototypes.{IsPrototype};
ghost use Rattle.tx_align.specs.RowBoxes as spec;

use crate::cell::{Cell, SetCell};
use crate::cells::{cells_set, divided};
use crate::error::AlignError;
use crate::placing::push_skip;
use crate::prototype::{PlacedColumn, Prototype};
use std::alloc::{AllocError, Global};
use tx_list::Items;
use tx_node::{BoxHead, BoxNode, Direction, Node, Nodes, Setting};

/// How deep boxes may nest.
const MAX_NESTING: u16 = 500;

/// How high a row is, in sp.
fn row_height(cells: &[SetCell]) -> i32
    ensures { result ≡ spec.row_height cells.now }
{
    let mut height: i32 = 0;
    for cell in cells {
        height = height.max(cell.node.height());
    }
    height
}

/// How deep it is.
fn row_depth(cells: &[SetCell]) -> i32
    ensures { result ≡ spec.row_depth cells.now }
{
    let mut depth: i32 = 0;
    for cell in cells {
        depth = depth.max(cell.node.depth());
    }
    depth
}

/// An empty box of this width, in sp. Its only error is want of memory.
fn blank(alloc: Global, width: i32) -> Result<Node, AllocError>
    ensures { IfOk result (λ node. item_of node ≡ spec.blank width) }
{
    let head = BoxHead {
        direction: Direction::Horizontal,
        width,
        height: 0,
        depth: 0,
        setting: Setting::Natural,
    };
    let made = BoxNode::new(alloc, head, Nodes::new(alloc))?;
    Node::from_box(alloc, 0, made)
}

/// Puts an empty box for a column, and the skip behind it, at the end of a list. Its only error is want of memory.
fn put_blank(alloc: Global, list: &mut Nodes, column: &PlacedColumn) -> Result<(), AllocError>
    ensures { OnOk result (list.new ≡ list.old ++ spec.blank_items column.now) }
{
    list.push(blank(alloc, column.sized.width)?)?;
    push_skip(list, &column.sized.skip)
}

/// The same for columns in their order.
fn put_blanks(alloc: Global, list: &mut Nodes, columns: &[PlacedColumn]) -> Result<(), AllocError>
    ensures { OnOk result (list.new ≡ list.old ++ flat_map spec.blank_items columns.now) }
{
    for column in columns {
        put_blank(alloc, list, column)?;
    }
    Ok(())
}

/// A box with other sizes, in sp, as a node. Its only error is want of memory.
fn resized(
    alloc: Global,
    made: BoxNode,
    width: i32,
    height: i32,
    depth: i32,
) -> Result<Node, AllocError>
    ensures { IfOk result (λ node. item_of node ≡ box_item (pos 0) (spec.resized made width height depth)) }
{
    let mut made = made;
    made.set_width(width);
    made.set_height(height);
    made.set_depth(depth);
    Node::from_box(alloc, 0, made)
}

/// Puts a cell's box at the end of a row's list, with what stands for its other columns, and the skips behind them. Its only error
/// is want of memory.
fn put_cell(
    alloc: Global,
    list: &mut Nodes,
    height: i32,
    depth: i32,
    made: BoxNode,
    columns: &[PlacedColumn],
) -> Result<(), AllocError>
    ensures { OnOk result (list.new ≡ list.old ++ spec.cell_items height depth made columns.now) }
{
    match columns {
        [] => Ok(()),
        [first, others @ ..] => {
            list.push(resized(alloc, made, first.sized.width, height, depth)?)?;
            push_skip(list, &first.sized.skip)?;
            put_blanks(alloc, list, others)
        }
    }
}

/// Puts the cells of a row at the end of its list, which begin at these columns. Its only error is want of memory.
fn put_cells(
    alloc: Global,
    list: &mut Nodes,
    height: i32,
    depth: i32,
    columns: &[PlacedColumn],
    cells: Items<SetCell>,
) -> Result<(), AllocError>
    ensures { OnOk result (list.new ≡ list.old ++ spec.cells_items height depth columns.now cells) }
{
    let mut next = columns;
    for cell in cells.into_vec() {
        let SetCell { span, node } = cell;
        let (own, others) = divided(next, span);
        put_cell(alloc, list, height, depth, node, own)?;
        next = others;
    }
    Ok(())
}

/// What a row's box is beside its list.
fn row_head(prototype: &Prototype, cells: &[SetCell]) -> BoxHead
    ensures { result ≡ spec.row_head prototype.now cells.now }
{
    let mut head = prototype.head;
    head.height = row_height(cells);
    head.depth = row_depth(cells);
    head
}

/// The list of a row's box. Its only error is want of memory.
fn row_list(
    alloc: Global,
    prototype: &Prototype,
    cells: Items<SetCell>,
) -> Result<Nodes, AllocError>
    ensures { IfOk result (λ list. list ≡ spec.row_items prototype.now cells) }
{
    let height = row_height(cells.as_slice());
    let depth = row_depth(cells.as_slice());
    let mut list = Nodes::new(alloc);
    push_skip(&mut list, &prototype.first)?;
    put_cells(
        alloc,
        &mut list,
        height,
        depth,
        prototype.columns.as_slice(),
        cells,
    )?;
    Ok(list)
}

/// A list in a box with this head. `TooDeep` exactly where boxes would nest more than 500 deep.
fn boxed_if(alloc: Global, head: BoxHead, list: Nodes) -> Result<BoxNode, AlignError>
    requires is_set { IsSet head.setting }
    requires sums { sums_fit head.setting (pos 0) (items_of list) ≡ true }
    ensures ok { IfOk result (λ made. spec.boxed_if head list ≡ Ok made) }
    ensures error { IfErr result (λ e. e ≢ OutOfMemory → spec.boxed_if head list ≡ Err e) }
{
    if list.nesting() >= MAX_NESTING {
        return Err(AlignError::TooDeep);
    }
    Ok(BoxNode::new(alloc, head, list)?)
}

/// The box of a row whose cells are in their boxes.
#[tactic(auto, using(crate::proofs::Fits::row_is_set, crate::proofs::Fits::row_sums))]
fn row_of(
    alloc: Global,
    prototype: &Prototype,
    cells: Items<SetCell>,
) -> Result<BoxNode, AlignError>
    requires { IsPrototype prototype.now }
    ensures ok { IfOk result (λ made. spec.row_of prototype.now (Ok cells) ≡ Ok made) }
    ensures error { IfErr result (λ e. e ≢ OutOfMemory → spec.row_of prototype.now (Ok cells) ≡ Err e) }
{
    let head = row_head(prototype, cells.as_slice());
    let list = row_list(alloc, prototype, cells)?;
    boxed_if(alloc, head, list)
}

/// The box of a row.
pub(crate) fn row_box(
    alloc: Global,
    prototype: &Prototype,
    cells: Items<Cell>,
) -> Result<BoxNode, AlignError>
    requires { IsPrototype prototype.now }
    ensures ok { IfOk result (λ made. spec.row_box prototype.now cells ≡ Ok made) }
    ensures error { IfErr result (λ e. e ≢ OutOfMemory → spec.row_box prototype.now cells ≡ Err e) }
{
    let cells = cells_set(alloc, prototype.columns.as_slice(), cells)?;
    row_of(alloc, prototype, cells)
}
