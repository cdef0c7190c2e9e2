//! On which lines a display's formula and its number stand.
ghost use Rattle.std.specs.Prelude.{◌≡◌, ◌≢◌, ◌≤◌, ◌∷◌, ◌^◌, ◌+ℤ◌, [], pos, unsigned_abs, IfOk, IfErr, Ok, Err};
ghost use Rattle.tx_node.specs.Items.{box_item};
ghost use Rattle.tx_node.specs.Nodes.{item_of};
ghost use Rattle.tx_num.specs.Glue.{IsDimension};
ghost use Rattle.tx_display.specs.declared.error.DisplayError.TheVariants.{OutOfMemory};
ghost use Rattle.tx_display.specs.Arranging as spec;

use crate::arranged::{Arranged, Stand};
use crate::error::DisplayError;
use crate::fitting::{is_close, left_of};
use crate::sizes::{minus, plus, stored};
use crate::types::{DisplayParams, EquationNumber};
use std::alloc::{AllocError, Global};
use tx_node::{BoxNode, KernKind, Node, Nodes, Plain};
use tx_pack::{Goal, PackParams, Packed, hpack};
use tx_prim::NumberSide;

/// How a formula's box stands that fits its line with so much beside it, in sp, and is so bad, where its number stands at the left or
/// not.
#[tactic(auto, unfolding(crate::specs::Arranging::stand_of))]
pub(crate) fn stand_of(
    params: &DisplayParams,
    at_left: bool,
    beside: i32,
    inner: BoxNode,
    badness: i64,
) -> Stand
    ensures stand { result ≡ spec.stand_of params.now at_left beside inner badness }
    ensures left { unsigned_abs result.left ≤ 2 ^ 34 }
{
    let left = left_of(params, beside, &inner);
    let close = is_close(params, at_left, left);
    Stand {
        left,
        close,
        beside,
        inner,
        badness,
    }
}

/// How far what stands so far to the right is shifted, in sp.
fn shift_of(params: &DisplayParams, left: i64) -> i64
    requires { unsigned_abs left ≤ 2 ^ 34 }
    ensures { result ≡ params.now.place.indent +ℤ left }
{
    plus(i64::from(params.place.indent), left)
}

/// A formula stands by itself, with its number above it or below it, or none.
fn by_itself(
    params: &DisplayParams,
    stand: Stand,
    above: Option<BoxNode>,
    below: Option<BoxNode>,
) -> Arranged
    requires { unsigned_abs stand.left ≤ 2 ^ 34 }
    ensures { result ≡ spec.by_itself params.now stand above below }
{
    let shift = shift_of(params, stand.left);
    let Stand {
        close,
        inner,
        badness,
        ..
    } = stand;
    Arranged {
        above,
        line: inner,
        shift,
        below,
        close,
        badness,
    }
}

/// The number stands on a line of its own.
fn apart(params: &DisplayParams, stand: Stand, side: NumberSide, number: BoxNode) -> Arranged
    requires { unsigned_abs stand.left ≤ 2 ^ 34 }
    ensures { result ≡ spec.apart params.now stand side number }
{
    match side {
        NumberSide::Right => by_itself(params, stand, None, Some(number)),
        NumberSide::Left => by_itself(params, stand, Some(number), None),
    }
}

/// How much of the line is left between a formula and its number, in sp.
#[tactic(auto, unfolding(crate::specs::Arranging::gap_of))]
fn gap_of(params: &DisplayParams, stand: &Stand) -> i64
    requires { unsigned_abs stand.now.left ≤ 2 ^ 34 }
    ensures { result ≡ spec.gap_of params.now stand.now }
{
    let behind = minus(
        i64::from(params.place.width),
        i64::from(stand.inner.width()),
    );
    minus(minus(behind, i64::from(stand.beside)), stand.left)
}

/// A kern of so many sp.
fn kern(size: i32) -> Node
    ensures { item_of result ≡ spec.kern size }
{
    Node::Plain(Plain::Kern(KernKind::Implicit, size))
}

/// A list of three nodes. Its only error is want of memory.
fn triple(alloc: Global, one: Node, another: Node, third: Node) -> Result<Nodes, AllocError>
    ensures { IfOk result (λ list. list ≡ item_of one ∷ item_of another ∷ item_of third ∷ []) }
{
    let mut list = Nodes::new(alloc);
    list.reserve(3)?;
    list.push(one)?;
    list.push(another)?;
    list.push(third)?;
    Ok(list)
}

/// A list of two boxes that aren't shifted, with a kern of so many sp between them. Its only error is want of memory.
fn row_in_order(
    alloc: Global,
    first: BoxNode,
    gap: i32,
    second: BoxNode,
) -> Result<Nodes, AllocError>
    ensures { IfOk result (λ list. list ≡ box_item (pos 0) first ∷ spec.kern gap ∷ box_item (pos 0) second ∷ []) }
{
    let first = Node::from_box(alloc, 0, first)?;
    let second = Node::from_box(alloc, 0, second)?;
    triple(alloc, first, kern(gap), second)
}

/// The list of a formula's box and that of its number on this side, with a kern between them. Its only error is want of memory.
fn row_of(
    alloc: Global,
    side: NumberSide,
    inner: BoxNode,
    gap: i32,
    number: BoxNode,
) -> Result<Nodes, AllocError>
    ensures { IfOk result (λ list. list ≡ spec.row_of side inner gap number) }
{
    match side {
        NumberSide::Right => row_in_order(alloc, inner, gap, number),
        NumberSide::Left => row_in_order(alloc, number, gap, inner),
    }
}

/// How far that is shifted, in sp, where the formula stands so far to the right.
fn row_shift(params: &DisplayParams, stand: &Stand, side: NumberSide) -> i64
    requires { unsigned_abs stand.now.left ≤ 2 ^ 34 }
    ensures { result ≡ spec.row_shift params.now stand.now side }
{
    match side {
        NumberSide::Right => shift_of(params, stand.left),
        NumberSide::Left => i64::from(params.place.indent),
    }
}

/// A formula and its number in one line, which is shifted by so many sp.
#[tactic(auto, unfolding(crate::specs::Arranging::joint))]
fn join(
    alloc: Global,
    params: &PackParams,
    close: bool,
    shift: i64,
    row: Nodes,
) -> Result<Arranged, DisplayError>
    requires rule { IsDimension params.now.overfull_rule }
    ensures arranged { IfOk result (λ arranged. spec.joint params.now close shift row ≡ Ok arranged) }
    ensures error { IfErr result (λ e. e ≢ OutOfMemory → spec.joint params.now close shift row ≡ Err e) }
{
    let Packed { node, badness, .. } = hpack(alloc, row, Goal::Natural, params)?;
    Ok(Arranged {
        above: None,
        line: node,
        shift,
        below: None,
        close,
        badness,
    })
}

/// The number stands beside the formula, behind a kern of so many sp or before it.
#[tactic(auto, unfolding(crate::specs::Arranging::joined_by))]
fn join_by(
    alloc: Global,
    params: &DisplayParams,
    stand: Stand,
    side: NumberSide,
    gap: i32,
    number: BoxNode,
) -> Result<Arranged, DisplayError>
    requires rule { IsDimension params.now.packing.overfull_rule }
    requires left { unsigned_abs stand.left ≤ 2 ^ 34 }
    ensures arranged { IfOk result (λ arranged. spec.joined_by params.now stand side gap number ≡ Ok arranged) }
    ensures error { IfErr result (λ e. e ≢ OutOfMemory → spec.joined_by params.now stand side gap number ≡ Err e) }
{
    let shift = row_shift(params, &stand, side);
    let Stand { close, inner, .. } = stand;
    let row = row_of(alloc, side, inner, gap, number)?;
    join(alloc, &params.packing, close, shift, row)
}

/// The same with a kern that fills the line, and has to be a dimension.
#[tactic(auto, unfolding(crate::specs::Arranging::joined))]
fn stand_joined(
    alloc: Global,
    params: &DisplayParams,
    stand: Stand,
    side: NumberSide,
    number: BoxNode,
) -> Result<Arranged, DisplayError>
    requires rule { IsDimension params.now.packing.overfull_rule }
    requires left { unsigned_abs stand.left ≤ 2 ^ 34 }
    ensures arranged { IfOk result (λ arranged. spec.joined params.now stand side number ≡ Ok arranged) }
    ensures error { IfErr result (λ e. e ≢ OutOfMemory → spec.joined params.now stand side number ≡ Err e) }
{
    let gap = stored(gap_of(params, &stand))?;
    join_by(alloc, params, stand, side, gap, number)
}

/// A formula and its number, on one line or on two.
#[tactic(auto, unfolding(crate::specs::Arranging::numbered))]
fn stand_numbered(
    alloc: Global,
    params: &DisplayParams,
    stand: Stand,
    side: NumberSide,
    number: BoxNode,
) -> Result<Arranged, DisplayError>
    requires rule { IsDimension params.now.packing.overfull_rule }
    requires left { unsigned_abs stand.left ≤ 2 ^ 34 }
    ensures arranged { IfOk result (λ arranged. spec.numbered params.now stand side number ≡ Ok arranged) }
    ensures error { IfErr result (λ e. e ≢ OutOfMemory → spec.numbered params.now stand side number ≡ Err e) }
{
    if stand.beside == 0 {
        Ok(apart(params, stand, side, number))
    } else {
        stand_joined(alloc, params, stand, side, number)
    }
}

/// On which lines a formula stands, with its number, if it has one. The errors are those of the box of both.
#[tactic(auto, unfolding(crate::specs::Arranging::arranged))]
pub(crate) fn arrange(
    alloc: Global,
    params: &DisplayParams,
    number: Option<EquationNumber>,
    stand: Stand,
) -> Result<Arranged, DisplayError>
    requires rule { IsDimension params.now.packing.overfull_rule }
    requires left { unsigned_abs stand.left ≤ 2 ^ 34 }
    ensures arranged { IfOk result (λ arranged. spec.arranged params.now number stand ≡ Ok arranged) }
    ensures error { IfErr result (λ e. e ≢ OutOfMemory → spec.arranged params.now number stand ≡ Err e) }
{
    match number {
        Some(number) => {
            let EquationNumber { side, packed } = number;
            stand_numbered(alloc, params, stand, side, packed)
        }
        None => Ok(by_itself(params, stand, None, None)),
    }
}
