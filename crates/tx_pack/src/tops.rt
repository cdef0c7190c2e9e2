//! Boxes of \vtop.
ghost use Rattle.std.specs.Prelude.{◌≡◌, ◌≢◌, ◌+ℤ◌, ◌-ℤ◌, IfOk, IfErr, IfSome, OnOk, Ok, Err};
ghost use Rattle.tx_num.specs.Glue.{IsDimension};
ghost use Rattle.tx_node.specs.Nodes.{item_of, list_of};
ghost use Rattle.tx_pack.specs.declared.types.PackError.TheVariants.{OutOfMemory};
ghost use Rattle.tx_pack.specs.Packing.{IsGoal};
ghost use Rattle.tx_pack.specs.Tops as spec;

use crate::packing::{if_fits, vpack};
use crate::sums::{minus, plus};
use crate::types::{Goal, PackError, PackParams, Packed};
use std::alloc::Global;
use tx_node::{BoxNode, Node, Nodes, Plain, Shared, side};

/// The height of a small item, where it is a character, in sp, else 0.
fn plain_top(item: Plain) -> i32
    ensures { result ≡ spec.plain_top item }
{
    match item {
        Plain::Kern(_, _) | Plain::Glue(_) | Plain::Penalty(_) => 0,
        Plain::Character(character) => character.height,
    }
}

/// The height of a larger item without a list, where it is a rule or a ligature, in sp, else 0.
fn shared_top(item: &Shared) -> i32
    ensures { result ≡ spec.shared_top item.now }
{
    match item {
        Shared::Rule(rule) => side(rule.height),
        Shared::Leaders(_) | Shared::Special(_) | Shared::Mark(_) => 0,
        Shared::Ligature(ligature) => ligature.character.height,
    }
}

/// The height of a node, where it is a rule, a box or a character, in sp, else 0.
fn item_top(node: &Node) -> i32
    ensures { result ≡ spec.item_top (item_of node.now) }
{
    match node {
        Node::Plain(item) => plain_top(*item),
        Node::Shared(item) => shared_top(item),
        Node::Box(_, inner) => inner.height(),
        Node::Discretionary(_) | Node::Adjustment(_) | Node::Insertion(_) => 0,
        Node::BoxLeaders(_) => 0,
    }
}

/// The height of a list's first node, in sp; 0 where the list is empty.
fn top_of(list: &[Node]) -> i32
    ensures { result ≡ spec.top_of (list_of list.now) }
{
    match list {
        [] => 0,
        [first, ..] => item_top(first),
    }
}

/// Gives a box a height and, if it is a dimension, a depth, in sp.
fn reset(packed: &mut BoxNode, height: i32, depth: Option<i64>) -> Result<(), PackError>
    requires { IfSome depth IsDimension }
    ensures reset { OnOk result (spec.reset_to packed.old height depth ≡ Ok packed.new) }
    ensures error { IfErr result (λ e. spec.reset_to packed.old height depth ≡ Err e) }
{
    let Some(depth) = depth else {
        return Err(PackError::SizeOutOfRange);
    };
    packed.set_height(height);
    packed.set_depth(depth as i32);
    Ok(())
}

/// How far a box that is so high at its top reaches below that, where height and depth together stay, in sp.
fn below_top(packed: &BoxNode, top: i32) -> i64
    ensures { result ≡ packed.now.head.height +ℤ packed.now.head.depth -ℤ top }
{
    let reached = plus(i64::from(packed.height()), i64::from(packed.depth()));
    minus(reached, i64::from(top))
}

/// Gives a box the height of its first item; what is below that is its depth, which has to be a dimension.
fn reset_to_top(packed: &mut BoxNode) -> Result<(), PackError>
    ensures reset { OnOk result (spec.topped packed.old ≡ Ok packed.new) }
    ensures error { IfErr result (λ e. spec.topped packed.old ≡ Err e) }
{
    let top = top_of(packed.list());
    let below = below_top(packed, top);
    reset(packed, top, if_fits(below))
}

/// A vertical list in the box of \vtop: it is packed as `vpack` does, and then has the height of its first item, if that is a box,
/// a rule or a character, else 0, and the rest of height and depth as its depth (TeX: The Program, section 1087). `SizeOutOfRange`
/// exactly where `vpack` answers it and where that depth is no dimension; `TooDeep` exactly where `vpack` answers it.
pub fn vtop(
    alloc: Global,
    list: Nodes,
    goal: Goal,
    maxdepth: i64,
    params: &PackParams,
) -> Result<Packed, PackError>
    requires goal { IsGoal goal }
    requires most { IsDimension maxdepth }
    requires rule { IsDimension params.now.overfull_rule }
    ensures packed { IfOk result (λ made. spec.top_packed list goal maxdepth params.now ≡ Ok made) }
    ensures error { IfErr result (λ e. e ≢ OutOfMemory → spec.top_packed list goal maxdepth params.now ≡ Err e) }
{
    let mut made = vpack(alloc, list, goal, maxdepth, params)?;
    reset_to_top(&mut made.node)?;
    Ok(made)
}
