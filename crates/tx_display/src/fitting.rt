//! How the box of a display's formula fits the line, with its number beside it or not.
ghost use Rattle.std.specs.Prelude.{◌≡◌, ◌≢◌, ◌≤◌, ◌^◌, unsigned_abs, IfOk, IfErr, Ok, Err};
ghost use Rattle.tx_node.specs.Nodes.{list_of};
ghost use Rattle.tx_num.specs.Glue.{IsDimension};
ghost use Rattle.tx_pack.specs.declared.types.PackError.TheVariants as packing;
ghost use Rattle.tx_pack.specs.Sums.{IsSmall};
ghost use Rattle.tx_display.specs.declared.error.DisplayError.TheVariants.{OutOfMemory};
ghost use Rattle.tx_display.specs.Fitting as spec;

use crate::error::DisplayError;
use crate::fitted::Fitted;
use crate::sizes::{half, minus, plus};
use crate::types::{DisplayParams, EquationNumber};
use std::alloc::Global;
use tx_node::{BoxNode, Direction, Node, Nodes};
use tx_num::fits;
use tx_pack::{Goal, Orders, PackError, PackParams, Packed, Sums, hpack, sums_of};
use tx_prim::NumberSide;

/// How wide the number's box is, in sp, 0 without one.
pub(crate) fn number_width(number: &Option<EquationNumber>) -> i32
    ensures { result ≡ spec.number_width number.now }
{
    match number {
        Some(number) => number.packed.width(),
        None => 0,
    }
}

/// What it takes beside the formula, with a quad between them, in sp.
#[tactic(auto, unfolding(crate::specs::Fitting::taken_beside))]
fn taken_beside(beside: i32, quad: i64) -> i64
    requires { unsigned_abs quad ≤ 2 ^ 31 }
    ensures value { result ≡ spec.taken_beside beside quad }
    ensures bound { unsigned_abs result ≤ 2 ^ 32 }
{
    if beside == 0 {
        0
    } else {
        plus(i64::from(beside), quad)
    }
}

/// How much of the line this leaves, in sp.
#[tactic(auto, unfolding(crate::specs::Fitting::room_of))]
fn room_of(params: &DisplayParams, beside: i32) -> i64
    requires { unsigned_abs params.now.quad ≤ 2 ^ 31 }
    ensures { result ≡ spec.room_of params.now beside }
{
    minus(
        i64::from(params.place.width),
        taken_beside(beside, params.quad),
    )
}

/// Whether a formula that is so wide, in sp, is wider than that.
#[tactic(auto, unfolding(crate::specs::Fitting::is_wider))]
fn is_wider(params: &DisplayParams, beside: i32, own: i32) -> bool
    requires { unsigned_abs params.now.quad ≤ 2 ^ 31 }
    ensures { result ≡ spec.is_wider params.now beside own }
{
    let wanted = plus(i64::from(own), taken_beside(beside, params.quad));
    i64::from(params.place.width) < wanted
}

/// A list in a box that is so wide, in sp, which has to be a dimension.
fn pack_to(alloc: Global, params: &PackParams, size: i64, list: Nodes) -> Result<Packed, PackError>
    requires rule { IsDimension params.now.overfull_rule }
    ensures packed { IfOk result (λ made. spec.packed_to params.now size list ≡ Ok made) }
    ensures error { IfErr result (λ e. e ≢ packing.OutOfMemory → spec.packed_to params.now size list ≡ Err e) }
{
    if fits(size) {
        hpack(alloc, list, Goal::To(size), params)
    } else {
        Err(PackError::SizeOutOfRange)
    }
}

/// The formula is packed to this size, in sp, with so much beside it.
#[tactic(auto, unfolding(crate::specs::Fitting::repacked))]
fn repack(
    alloc: Global,
    params: &PackParams,
    beside: i32,
    size: i64,
    made: Packed,
) -> Result<Fitted, DisplayError>
    requires rule { IsDimension params.now.overfull_rule }
    ensures fitted { IfOk result (λ fitted. spec.repacked params.now beside size made ≡ Ok fitted) }
    ensures error { IfErr result (λ e. e ≢ OutOfMemory → spec.repacked params.now beside size made ≡ Err e) }
{
    let Packed { node, .. } = made;
    let list = node.into_nodes()?;
    let anew = pack_to(alloc, params, size, list)?;
    Ok(Fitted { made: anew, beside })
}

/// Whether none of it is infinite.
fn is_finite(shrink: &Orders) -> bool
    ensures { result ≡ spec.is_finite shrink.now }
{
    shrink.fil == 0 && (shrink.fill == 0 && shrink.filll == 0)
}

/// Whether a list with these sums can be made as narrow as this, in sp.
fn narrows_to(room: i64, sums: &Sums) -> bool
    requires { IsSmall sums.now }
    ensures { result ≡ spec.narrows_to room sums.now }
{
    if is_finite(&sums.shrink) {
        minus(sums.width, sums.shrink.normal) <= room
    } else {
        true
    }
}

/// The same of a list.
#[tactic(auto, unfolding(crate::specs::Fitting::shrinks_to))]
fn shrinks_to(room: i64, list: &[Node]) -> bool
    ensures { result ≡ spec.shrinks_to room (list_of list.now) }
{
    match sums_of(Direction::Horizontal, list) {
        Some(sums) => narrows_to(room, &sums),
        None => false,
    }
}

/// The same where anything stands beside it, for which alone it is made so.
#[tactic(auto, unfolding(crate::specs::Fitting::yields))]
fn yields(beside: i32, room: i64, list: &[Node]) -> bool
    ensures { result ≡ spec.yields beside room (list_of list.now) }
{
    if beside == 0 {
        false
    } else {
        shrinks_to(room, list)
    }
}

/// Nothing stands beside the formula, which takes the whole line if it is wider.
#[tactic(auto, unfolding(crate::specs::Fitting::alone))]
fn stand_alone(alloc: Global, params: &DisplayParams, made: Packed) -> Result<Fitted, DisplayError>
    requires rule { IsDimension params.now.packing.overfull_rule }
    ensures fitted { IfOk result (λ fitted. spec.alone params.now made ≡ Ok fitted) }
    ensures error { IfErr result (λ e. e ≢ OutOfMemory → spec.alone params.now made ≡ Err e) }
{
    if params.place.width < made.node.width() {
        repack(
            alloc,
            &params.packing,
            0,
            i64::from(params.place.width),
            made,
        )
    } else {
        Ok(Fitted { made, beside: 0 })
    }
}

/// The formula has so much room, in sp, with what is beside it, if it is to be so narrow, or else stands alone.
#[tactic(auto, unfolding(crate::specs::Fitting::squeezed_by))]
fn squeeze_by(
    alloc: Global,
    params: &DisplayParams,
    beside: i32,
    room: i64,
    narrows: bool,
    made: Packed,
) -> Result<Fitted, DisplayError>
    requires rule { IsDimension params.now.packing.overfull_rule }
    ensures fitted { IfOk result (λ fitted. spec.squeezed_by params.now beside room narrows made ≡ Ok fitted) }
    ensures error { IfErr result (λ e. e ≢ OutOfMemory → spec.squeezed_by params.now beside room narrows made ≡ Err e) }
{
    if narrows {
        repack(alloc, &params.packing, beside, room, made)
    } else {
        stand_alone(alloc, params, made)
    }
}

/// The formula and what is beside it are wider than the line: it shrinks, if it can, or else nothing stands beside it.
#[tactic(auto, unfolding(crate::specs::Fitting::squeezed))]
fn squeeze(
    alloc: Global,
    params: &DisplayParams,
    beside: i32,
    made: Packed,
) -> Result<Fitted, DisplayError>
    requires rule { IsDimension params.now.packing.overfull_rule }
    requires quad { unsigned_abs params.now.quad ≤ 2 ^ 31 }
    ensures fitted { IfOk result (λ fitted. spec.squeezed params.now beside made ≡ Ok fitted) }
    ensures error { IfErr result (λ e. e ≢ OutOfMemory → spec.squeezed params.now beside made ≡ Err e) }
{
    let room = room_of(params, beside);
    let narrows = yields(beside, room, made.node.list());
    squeeze_by(alloc, params, beside, room, narrows, made)
}

/// A formula's box of its natural size, as it fits the line with so much beside it.
#[tactic(auto, unfolding(crate::specs::Fitting::fitted))]
fn fit_box(
    alloc: Global,
    params: &DisplayParams,
    beside: i32,
    made: Packed,
) -> Result<Fitted, DisplayError>
    requires rule { IsDimension params.now.packing.overfull_rule }
    requires quad { unsigned_abs params.now.quad ≤ 2 ^ 31 }
    ensures fitted { IfOk result (λ fitted. spec.fitted params.now beside made ≡ Ok fitted) }
    ensures error { IfErr result (λ e. e ≢ OutOfMemory → spec.fitted params.now beside made ≡ Err e) }
{
    if is_wider(params, beside, made.node.width()) {
        squeeze(alloc, params, beside, made)
    } else {
        Ok(Fitted { made, beside })
    }
}

/// The list of a formula in a box that fits the line with so much beside it, in sp.
#[tactic(auto, unfolding(crate::specs::Fitting::fitting))]
pub(crate) fn fit(
    alloc: Global,
    params: &DisplayParams,
    beside: i32,
    list: Nodes,
) -> Result<Fitted, DisplayError>
    requires rule { IsDimension params.now.packing.overfull_rule }
    requires quad { unsigned_abs params.now.quad ≤ 2 ^ 31 }
    ensures fitted { IfOk result (λ fitted. spec.fitting params.now beside list ≡ Ok fitted) }
    ensures error { IfErr result (λ e. e ≢ OutOfMemory → spec.fitting params.now beside list ≡ Err e) }
{
    let made = hpack(alloc, list, Goal::Natural, &params.packing)?;
    fit_box(alloc, params, beside, made)
}

/// Whether a list begins with glue.
fn begins_with_glue(list: &[Node]) -> bool
    ensures { result ≡ spec.begins_with_glue (list_of list.now) }
{
    match list {
        [] => false,
        [first, ..] => first.glue().is_some(),
    }
}

/// How far a formula that is so wide stands to the right in the middle of a line of this width, in sp.
#[tactic(auto, unfolding(crate::specs::Fitting::centred))]
fn centred(width: i32, own: i32) -> i64
    ensures value { result ≡ spec.centred width own }
    ensures bound { unsigned_abs result ≤ 2 ^ 34 }
{
    half(minus(i64::from(width), i64::from(own)))
}

/// Whether that would be too near to what is so wide beside it.
#[tactic(auto, unfolding(crate::specs::Fitting::is_near))]
fn is_near(beside: i32, left: i64) -> bool
    ensures { result ≡ spec.is_near beside left }
{
    0 < beside && left < plus(i64::from(beside), i64::from(beside))
}

/// How far it stands to the right then, in sp, where it begins with glue or not.
#[tactic(auto, unfolding(crate::specs::Fitting::left_before))]
fn left_before(width: i32, own: i32, beside: i32, glue: bool) -> i64
    ensures value { result ≡ spec.left_before width own beside glue }
    ensures bound { unsigned_abs result ≤ 2 ^ 34 }
{
    if glue {
        0
    } else {
        half(minus(minus(i64::from(width), i64::from(own)), i64::from(beside)))
    }
}

/// How far it stands to the right, in sp.
#[tactic(auto, unfolding(crate::specs::Fitting::middle))]
fn middle(width: i32, own: i32, beside: i32, glue: bool) -> i64
    ensures value { result ≡ spec.middle width own beside glue }
    ensures bound { unsigned_abs result ≤ 2 ^ 34 }
{
    let left = centred(width, own);
    if is_near(beside, left) {
        left_before(width, own, beside, glue)
    } else {
        left
    }
}

/// How far a formula's box stands to the right that fits its line with so much beside it, in sp.
#[tactic(auto, unfolding(crate::specs::Fitting::left_of))]
pub(crate) fn left_of(params: &DisplayParams, beside: i32, inner: &BoxNode) -> i64
    ensures value { result ≡ spec.left_of params.now beside inner.now }
    ensures bound { unsigned_abs result ≤ 2 ^ 34 }
{
    middle(
        params.place.width,
        inner.width(),
        beside,
        begins_with_glue(inner.list()),
    )
}

/// Whether a number stands at the left.
fn is_left_side(side: NumberSide) -> bool
    ensures { result ≡ spec.is_left_side side }
{
    matches!(side, NumberSide::Left)
}

/// Whether there is a number that does.
pub(crate) fn is_left(number: &Option<EquationNumber>) -> bool
    ensures { result ≡ spec.is_left number.now }
{
    match number {
        Some(number) => is_left_side(number.side),
        None => false,
    }
}

/// Whether the line before reaches over a formula that stands so far to the right, in sp, or its number stands at the left.
#[tactic(auto, unfolding(crate::specs::Fitting::is_close))]
pub(crate) fn is_close(params: &DisplayParams, at_left: bool, left: i64) -> bool
    requires { unsigned_abs left ≤ 2 ^ 34 }
    ensures { result ≡ spec.is_close params.now at_left left }
{
    at_left || plus(left, i64::from(params.place.indent)) <= i64::from(params.place.size)
}
