//! How \output ends (TeX: The Program, sections 1026 to 1028), and how a run does (section 1054).
ghost use Rattle.std.specs.Prelude.{◌≡◌, ◌≢◌, Ok, Err, IfOk, IfErr, OnOk};
ghost use Rattle.tx_node.specs.Nodes.{item_of};
ghost use Rattle.tx_galley.specs.declared.errors.GalleyError.TheVariants.{OutOfMemory};
ghost use Rattle.tx_galley.specs.Ending as spec;
ghost use Rattle.tx_galley.specs.Errors.{error_of};

use crate::errors::GalleyError;
use crate::exercising::exercise;
use crate::firing::{Next, is_void};
use std::alloc::{AllocError, Global};
use std::mem::replace;
use tx_eqtb::Eqtb;
use tx_nest::{ModeList, Nest, append_item};
use tx_node::{BoxHead, BoxNode, Direction, Node, Nodes, Plain, Setting};
use tx_num::Glue;
use tx_output::Pages;
use tx_prim::DimensionParameter;

/// Puts nodes before those of a list. Its only error is want of memory.
fn prepend(alloc: Global, list: &mut ModeList, nodes: Nodes) -> Result<(), AllocError>
    ensures { OnOk result (list.new ≡ spec.with_before nodes list.old) }
{
    let mut nodes = nodes;
    let mut behind = replace(&mut list.nodes, Nodes::new(alloc));
    nodes.append(&mut behind)?;
    list.nodes = nodes;
    Ok(())
}

/// Puts nodes before the contributions of the pages' list. Its only error is want of memory.
fn put_before(alloc: Global, nest: &mut Nest, nodes: Nodes) -> Result<(), AllocError>
    ensures { OnOk result (nest.new ≡ spec.contributed_before nodes nest.old) }
{
    if nest.is_outermost() {
        return prepend(alloc, nest.top(), nodes);
    }
    let open = nest.pop();
    prepend(alloc, nest.top(), nodes)?;
    nest.push(open)
}

/// \output ends, whose group has ended, and whose list has left the nest with these nodes (TeX: The Program, sections 1026 to
/// 1028): they stand behind the insertions that were held over and before what remained of the contributions, and the page builder
/// is exercised. That the group ends where the tokens of \output end is for the caller to see.
///
/// The errors: `UnbalancedOutput` where \box255 isn't void; then those of `exercise`.
pub fn end_output(
    alloc: Global,
    nest: &mut Nest,
    table: &mut Eqtb,
    pages: &mut Pages,
    built: Nodes,
) -> Result<Next, GalleyError>
    ensures ok { IfOk result (λ next. spec.ending_output built nest.old table.old pages.old ≡ Ok (record { next = next; nest = nest.new; table = table.new; pages = pages.new })) }
    ensures error { IfErr result (λ e. e ≢ OutOfMemory → spec.ending_output built nest.old table.old pages.old ≡ Err (error_of e)) }
{
    let void255 = is_void(table, 255);
    let list = pages.output.finish(built, true, void255)?;
    pages.page.end_output();
    put_before(alloc, nest, list)?;
    exercise(alloc, nest, table, pages)
}

/// Whether a run may end: nothing is left to be put out (section 1054).
pub fn is_done(nest: &Nest, pages: &Pages) -> bool
    ensures { result ≡ spec.is_done nest.now pages.now }
{
    pages.dead_cycles == 0 && pages.page.empty() && nest.innermost().nodes.len() == 0
}

/// An empty box as wide as \hsize.
fn line_box(alloc: Global, table: &Eqtb) -> Result<Node, AllocError>
    ensures { IfOk result (λ node. item_of node ≡ spec.line_box table.now.table) }
{
    let head = BoxHead {
        direction: Direction::Horizontal,
        width: table.dimension(DimensionParameter::Hsize),
        height: 0,
        depth: 0,
        setting: Setting::Natural,
    };
    let list = Nodes::new(alloc);
    Node::from_box(alloc, 0, BoxNode::new(alloc, head, list)?)
}

/// What \end contributes where something is left: an empty line, \vfill, and a penalty that fires the page. Its only error is want
/// of memory.
pub fn add_end(alloc: Global, nest: &mut Nest, table: &Eqtb) -> Result<(), AllocError>
    ensures { OnOk result (nest.new ≡ spec.with_end table.now.table nest.old) }
{
    let line = line_box(alloc, table)?;
    append_item(nest.top(), line)?;
    append_item(
        nest.top(),
        Node::Plain(Plain::Glue(Glue::new(0, 65536, 2, 0, 0))),
    )?;
    append_item(nest.top(), Node::Plain(Plain::Penalty(-1_073_741_824)))
}
