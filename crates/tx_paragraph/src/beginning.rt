//! How a paragraph begins.
ghost use Rattle.std.specs.Prelude.{◌≡◌, IfOk, OnOk};
ghost use Rattle.tx_node.specs.Nodes.{item_of};
ghost use Rattle.tx_paragraph.specs.Beginning as spec;

use std::alloc::{AllocError, Global};
use tx_box::{Lists, append_atom};
use tx_eqtb::Eqtb;
use tx_mlist::AtomKind;
use tx_nest::{ModeList, ModeState, SpaceFactor, append_item, set_space_factor};
use tx_node::{BoxHead, BoxNode, Direction, Node, Nodes, Plain, Setting};
use tx_prim::{DimensionParameter, GlueParameter, Indentation, Mode};

/// The empty box that indents a paragraph. Its only error is want of memory.
fn indent_packed(alloc: Global, table: &Eqtb) -> Result<BoxNode, AllocError>
    ensures { IfOk result (λ made. made ≡ spec.indent_packed table.now.table) }
{
    let head = BoxHead {
        direction: Direction::Horizontal,
        width: table.dimension(DimensionParameter::Parindent),
        height: 0,
        depth: 0,
        setting: Setting::Natural,
    };
    BoxNode::new(alloc, head, Nodes::new(alloc))
}

/// The same as an item, which isn't shifted. Its only error is want of memory.
fn indent_box(alloc: Global, table: &Eqtb) -> Result<Node, AllocError>
    ensures { IfOk result (λ node. item_of node ≡ spec.indent_box table.now.table) }
{
    Node::from_box(alloc, 0, indent_packed(alloc, table)?)
}

/// \indent in a formula: the box, if it is to stand there, is the nucleus of an Ord. Its only error is want of memory.
fn indent_formula(
    alloc: Global,
    lists: &mut Lists,
    table: &Eqtb,
    how: Indentation,
) -> Result<(), AllocError>
    ensures { OnOk result (lists.new ≡ spec.formula_indented how table.now.table lists.old) }
{
    match how {
        Indentation::Indented => {
            let packed = indent_packed(alloc, table)?;
            append_atom(alloc, lists, AtomKind::Ord, 0, packed)
        }
        Indentation::Flush => Ok(()),
    }
}

/// Puts that box, if it is to stand there, at the end of a horizontal list. Its only error is want of memory.
fn put_indent(
    alloc: Global,
    list: &mut ModeList,
    table: &Eqtb,
    how: Indentation,
) -> Result<(), AllocError>
    ensures { OnOk result (list.new ≡ spec.with_indent how table.now.table list.old) }
{
    match how {
        Indentation::Indented => {
            append_item(list, indent_box(alloc, table)?)?;
            set_space_factor(list, SpaceFactor::plain());
            Ok(())
        }
        Indentation::Flush => Ok(()),
    }
}

/// Whether \parskip glue comes before a paragraph.
fn has_skip(list: &ModeList) -> bool
    ensures { result ≡ spec.has_skip list.now.state list.now.nodes }
{
    match list.state {
        ModeState::Vertical(_) => true,
        ModeState::InternalVertical(_) => list.nodes.len() > 0,
        ModeState::Horizontal(_) | ModeState::RestrictedHorizontal(_) => false,
        ModeState::Math | ModeState::DisplayMath => false,
    }
}

/// Puts it at the end of the list around the paragraph. Its only error is want of memory.
fn put_skip(list: &mut ModeList, table: &Eqtb) -> Result<(), AllocError>
    ensures { OnOk result (list.new ≡ spec.with_skip table.now.table list.old) }
{
    if !has_skip(list) {
        return Ok(());
    }
    append_item(
        list,
        Node::Plain(Plain::Glue(table.glue_parameter(GlueParameter::Parskip))),
    )
}

/// A paragraph begins in the list that is being built. Its only error is want of memory.
fn begin_paragraph(
    alloc: Global,
    lists: &mut Lists,
    table: &Eqtb,
    how: Indentation,
) -> Result<(), AllocError>
    ensures { OnOk result (lists.new ≡ spec.paragraph_begun how table.now.table lists.old) }
{
    put_skip(lists.nest.top(), table)?;
    lists.nest.push(ModeList::new(alloc, Mode::Horizontal))?;
    put_indent(alloc, lists.nest.top(), table, how)
}

/// \indent and \noindent: a paragraph begins in a vertical list; in a horizontal one, and in a formula, \indent puts its box there.
/// After want of memory, its only error, the lists may only be dropped.
pub fn indent(
    alloc: Global,
    lists: &mut Lists,
    table: &Eqtb,
    how: Indentation,
) -> Result<(), AllocError>
    ensures { OnOk result (lists.new ≡ spec.indented how table.now.table lists.old) }
{
    match lists.nest.innermost().mode() {
        Mode::Vertical | Mode::InternalVertical => begin_paragraph(alloc, lists, table, how),
        Mode::Horizontal | Mode::RestrictedHorizontal => {
            put_indent(alloc, lists.nest.top(), table, how)
        }
        Mode::Math | Mode::DisplayMath => indent_formula(alloc, lists, table, how),
    }
}
