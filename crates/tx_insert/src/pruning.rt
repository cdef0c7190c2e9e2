//! What remains behind a break.
ghost use Rattle.std.specs.Prelude.{◌≡◌, ◌≢◌, ◌++◌, ◌∷◌, [], ◌-ℤ◌, pos, List, IfOk, IfErr, Ok, Err};
ghost use Rattle.std.specs.Int.{int_max};
ghost use Rattle.tx_num.specs.Glue.{IsDimension};
ghost use Rattle.tx_node.specs.Items.{Item};
ghost use Rattle.tx_node.specs.Nodes.{item_of, list_of};
ghost use Rattle.tx_insert.specs.declared.error.SplitError.TheVariants.{OutOfMemory};
ghost use Rattle.tx_insert.specs.Splits as spec;

use crate::error::SplitError;
use crate::kind::{Kind, kind_of};
use std::alloc::{AllocError, Global};
use tx_node::{Node, Nodes, Plain};
use tx_num::{Glue, fits};

/// The height of a box or a rule, in sp, None of other items.
fn solid_height(node: &Node) -> Option<i32>
    ensures { result ≡ spec.solid_height (item_of node.now) }
{
    match kind_of(node) {
        Kind::Solid(height, _) => Some(height),
        Kind::Skip(_) | Kind::Kern(_) | Kind::Penalty(_) | Kind::Still => None,
    }
}

/// The height of the first box or rule of a list, 0 where there is none, in sp.
fn top_height(list: &[Node]) -> i32
    ensures { result ≡ spec.top_height (list_of list.now) }
{
    for node in list {
        if let Some(height) = solid_height(node) {
            return height;
        }
    }
    0
}

/// What a width is more than a height, at least 0, in sp.
fn width_past(width: i64, height: i32) -> i64
    requires { IsDimension width }
    ensures { result ≡ int_max (width -ℤ height) (pos 0) }
{
    (width - i64::from(height)).max(0)
}

/// Glue of another width, in sp.
fn with_width(skip: &Glue, width: i64) -> Glue
    requires { IsDimension width }
    ensures { result ≡ record skip.now { width = width } }
{
    Glue::new(
        width,
        skip.stretch(),
        skip.stretch_order(),
        skip.shrink(),
        skip.shrink_order(),
    )
}

/// \splittopskip or \topskip less the height of the box or rule that it comes before, in sp, at least 0. `SizeOutOfRange`
/// exactly where that is no dimension.
pub fn glue_above(skip: &Glue, height: i32) -> Result<Glue, SplitError>
    ensures { result ≡ spec.glue_above skip.now height }
{
    let width = width_past(skip.width(), height);
    if fits(width) {
        Ok(with_width(skip, width))
    } else {
        Err(SplitError::SizeOutOfRange)
    }
}

/// Puts glue at the end of a list. Its only error is want of memory.
fn push_glue(list: &mut Nodes, glue: &Glue) -> Result<(), AllocError>
    ensures { IfOk result (λ _. list.new ≡ list.old ++ spec.glue_item glue.now ∷ []) }
{
    list.push(Node::Plain(Plain::Glue(*glue)))
}

/// Puts a node at the end of a list. Its only error is want of memory.
fn push_shared(list: &mut Nodes, node: &Node) -> Result<(), AllocError>
    ensures { IfOk result (λ _. list.new ≡ list.old ++ item_of node.now ∷ []) }
{
    list.push(node.clone()?)
}

/// Puts a node that isn't behind the first box or rule at the end of a list, if it remains, and tells whether it is that box or
/// rule.
fn keep_first(list: &mut Nodes, glue: &Glue, node: &Node) -> Result<bool, AllocError>
    ensures { IfOk result (λ begun. (behind : List Item) → list.new ++ spec.pruned_from begun glue.now behind ≡ list.old ++ spec.pruned glue.now (item_of node.now ∷ behind)) }
{
    match kind_of(node) {
        Kind::Solid(_, _) => {
            push_glue(list, glue)?;
            push_shared(list, node)?;
            Ok(true)
        }
        Kind::Skip(_) | Kind::Kern(_) | Kind::Penalty(_) => Ok(false),
        Kind::Still => {
            push_shared(list, node)?;
            Ok(false)
        }
    }
}

/// Puts a node at the end of a list, if it remains, and tells whether the first box or rule has come by then.
fn keep(list: &mut Nodes, begun: bool, glue: &Glue, node: &Node) -> Result<bool, AllocError>
    ensures { IfOk result (λ now. (behind : List Item) → list.new ++ spec.pruned_from now glue.now behind ≡ list.old ++ spec.pruned_from begun glue.now (item_of node.now ∷ behind)) }
{
    if begun {
        push_shared(list, node)?;
        Ok(true)
    } else {
        keep_first(list, glue, node)
    }
}

/// What remains of a list behind a break: glue, kerns and penalties before its first box or rule vanish, and this glue is put
/// before that. Its only error is want of memory.
fn pruned(alloc: Global, glue: &Glue, list: &[Node]) -> Result<Nodes, AllocError>
    ensures { IfOk result (λ rest. rest ≡ spec.pruned glue.now (list_of list.now)) }
{
    let mut rest = Nodes::new(alloc);
    let mut begun = false;
    for node in list {
        begun = keep(&mut rest, begun, glue, node)?;
    }
    Ok(rest)
}

/// What remains of a list behind a break: glue, kerns and penalties before its first box or rule vanish, and `skip` less its
/// height, at least 0, is put before that. `SizeOutOfRange` exactly where that is no dimension; the other error is want of
/// memory.
pub fn remaining(alloc: Global, skip: &Glue, list: &[Node]) -> Result<Nodes, SplitError>
    ensures rest { IfOk result (λ rest. spec.remains skip.now (list_of list.now) ≡ Ok rest) }
    ensures error { IfErr result (λ e. e ≢ OutOfMemory → spec.remains skip.now (list_of list.now) ≡ Err e) }
{
    let glue = glue_above(skip, top_height(list))?;
    Ok(pruned(alloc, &glue, list)?)
}
