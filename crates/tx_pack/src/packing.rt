//! Packing a list to a size.
ghost use Rattle.std.specs.Prelude.{◌≡◌, ◌≢◌, ◌<◌, ◌≤◌, ◌^◌, ◌-ℤ◌, suc, unsigned_abs, true, is_some, IfSome, IfOk, IfErr, Ok, Err, Some};
ghost use Rattle.std.specs.Option.{option_and_then};
ghost use Rattle.tx_num.specs.Glue.{IsDimension};
ghost use Rattle.tx_node.specs.Counts.{nesting_of};
ghost use Rattle.tx_node.specs.declared.head.Direction.TheVariants.{Horizontal, Vertical};
ghost use Rattle.tx_node.specs.Items.{items_of};
ghost use Rattle.tx_node.specs.Nodes.{IsBox};
ghost use Rattle.tx_node.specs.Setting.{IsSet};
ghost use Rattle.tx_pack.specs.declared.types.PackError.TheVariants.{OutOfMemory};
ghost use Rattle.tx_pack.specs.Packing as spec;
ghost use Rattle.tx_pack.specs.Sums.{IsSmall, sums_of as sums_of_list};
ghost use Rattle.tx_pack.specs.Verdicts.{ended_by, verdict_of as verdict_of_list};

use crate::reports::report_of;
use crate::stretching::setting_for;
use crate::sums::{Sums, minus, plus, sums_of};
use crate::types::{Extent, Goal, PackError, PackParams, Packed};
use crate::verdicts::{Verdict, end_rule, verdict_of};
use std::alloc::{AllocError, Global};
use tx_node::{BoxHead, BoxNode, Direction, Node, Nodes, Rule, Shared};
use tx_num::fits;

/// How deep boxes may nest.
const MAX_NESTING: u16 = 500;

/// The natural size of a list along its direction, in sp.
fn along(direction: Direction, sums: &Sums) -> i64
    requires { IsSmall sums.now }
    ensures value { result ≡ spec.along direction sums.now }
    ensures dimension { IsDimension result }
{
    match direction {
        Direction::Horizontal => sums.width,
        Direction::Vertical => sums.height,
    }
}

/// A size in sp, None where it is no dimension.
pub(crate) fn if_fits(size: i64) -> Option<i64>
    ensures value { result ≡ spec.if_fits size }
    ensures dimension { IfSome result IsDimension }
{
    if fits(size) { Some(size) } else { None }
}

/// The size that a list is packed to, None where it is no dimension.
fn size_of(goal: Goal, natural: i64) -> Option<i64>
    requires goal { spec.IsGoal goal }
    requires natural { IsDimension natural }
    ensures value { result ≡ spec.size_of goal natural }
    ensures dimension { IfSome result IsDimension }
{
    match goal {
        Goal::Natural => Some(natural),
        Goal::To(size) => Some(size),
        Goal::Spread(more) => if_fits(natural + more),
    }
}

/// The sums of a vertical list that is so deep and, if that is a dimension, so high.
fn raised(most: i64, sums: &Sums, height: Option<i64>) -> Option<Sums>
    requires most { IsDimension most }
    requires small { IsSmall sums.now }
    requires height { IfSome height IsDimension }
    ensures value { result ≡ spec.raised most sums.now height }
    ensures small { IfSome result IsSmall }
{
    let Some(height) = height else {
        return None;
    };
    let mut more = *sums;
    more.height = height;
    more.depth = most;
    Some(more)
}

/// The sums of a vertical list whose depth beyond the greatest goes into its height, None where that is no dimension.
fn with_depth(most: i64, sums: &Sums) -> Option<Sums>
    requires most { IsDimension most }
    requires small { IsSmall sums.now }
    ensures value { result ≡ spec.with_depth most sums.now }
    ensures small { IfSome result IsSmall }
{
    if most < sums.depth {
        let height = minus(plus(sums.height, sums.depth), most);
        return raised(most, sums, if_fits(height));
    }
    Some(*sums)
}

/// A dimension, as boxes have it.
fn dimension(size: i64) -> i32
    requires { IsDimension size }
    ensures { result ≡ size }
{
    size as i32
}

/// The head of a horizontal list's box of this width.
fn head_across(sums: &Sums, size: i64) -> BoxHead
    requires small { IsSmall sums.now }
    requires size { IsDimension size }
    ensures value { result ≡ spec.head_of Horizontal sums.now size }
    ensures is_set { IsSet result.setting }
{
    let setting = setting_for(sums, minus(size, sums.width));
    BoxHead {
        direction: Direction::Horizontal,
        width: dimension(size),
        height: dimension(sums.height),
        depth: dimension(sums.depth),
        setting,
    }
}

/// The head of a vertical list's box of this height.
fn head_down(sums: &Sums, size: i64) -> BoxHead
    requires small { IsSmall sums.now }
    requires size { IsDimension size }
    ensures value { result ≡ spec.head_of Vertical sums.now size }
    ensures is_set { IsSet result.setting }
{
    let setting = setting_for(sums, minus(size, sums.height));
    BoxHead {
        direction: Direction::Vertical,
        width: dimension(sums.width),
        height: dimension(size),
        depth: dimension(sums.depth),
        setting,
    }
}

/// The head of a box of this size.
fn head_of(direction: Direction, sums: &Sums, size: i64) -> BoxHead
    requires small { IsSmall sums.now }
    requires size { IsDimension size }
    ensures value { result ≡ spec.head_of direction sums.now size }
    ensures is_set { IsSet result.setting }
{
    match direction {
        Direction::Horizontal => head_across(sums, size),
        Direction::Vertical => head_down(sums, size),
    }
}

/// A list with a rule of this width at its end, whose other sides run.
fn ended_by(alloc: Global, list: Nodes, width: Option<i64>) -> Result<Nodes, AllocError>
    requires { IfSome width IsDimension }
    ensures { IfOk result (λ more. more ≡ ended_by list width) }
{
    let Some(width) = width else {
        return Ok(list);
    };
    let rule = Rule {
        width: Some(width as i32),
        height: None,
        depth: None,
    };
    let mut list = list;
    list.push(Node::from_shared(alloc, Shared::Rule(rule))?)?;
    Ok(list)
}

/// The list in a box with this head, and what is said of that. Its only error is want of memory.
fn packed_as(
    alloc: Global,
    direction: Direction,
    list: Nodes,
    params: &PackParams,
    head: BoxHead,
    verdict: Verdict,
) -> Result<Packed, AllocError>
    requires rule { IsDimension params.now.overfull_rule }
    requires is_box { IsBox head list }
    ensures { IfOk result (λ made. made ≡ spec.packed_as direction list params.now head verdict) }
{
    let report = report_of(alloc, direction, verdict.told)?;
    let list = ended_by(alloc, list, end_rule(direction, params, verdict.told))?;
    Ok(Packed {
        node: BoxNode::new(alloc, head, list)?,
        badness: i64::from(verdict.badness),
        report,
    })
}

/// How bad a box of this size is, and what is said of it.
fn verdict_for(
    direction: Direction,
    list: &Nodes,
    params: &PackParams,
    sums: &Sums,
    size: i64,
) -> Verdict
    requires small { IsSmall sums.now }
    requires size { IsDimension size }
    ensures { result ≡ verdict_of_list params.now list.now sums.now (size -ℤ spec.along direction sums.now) }
{
    verdict_of(params, list, sums, minus(size, along(direction, sums)))
}

/// The box of a list with these sums, of this size. Its only error is want of memory.
#[tactic(auto, unfolding(crate::specs::Packing::packed))]
fn packed(
    alloc: Global,
    direction: Direction,
    list: Nodes,
    params: &PackParams,
    sums: &Sums,
    size: i64,
) -> Result<Packed, AllocError>
    requires rule { IsDimension params.now.overfull_rule }
    requires nesting { suc (nesting_of (items_of list)) ≤ 500 }
    requires has_sums { is_some (sums_of_list direction list) ≡ true }
    requires small { IsSmall sums.now }
    requires size { IsDimension size }
    ensures { IfOk result (λ made. made ≡ spec.packed direction list params.now sums.now size) }
{
    let head = head_of(direction, sums, size);
    let verdict = verdict_for(direction, &list, params, sums, size);
    packed_as(alloc, direction, list, params, head, verdict)
}

/// The box of a list with these sums, packed to a goal.
fn packed_to(
    alloc: Global,
    direction: Direction,
    list: Nodes,
    goal: Goal,
    params: &PackParams,
    sums: &Sums,
) -> Result<Packed, PackError>
    requires rule { IsDimension params.now.overfull_rule }
    requires goal { spec.IsGoal goal }
    requires has_sums { is_some (sums_of_list direction list) ≡ true }
    requires small { IsSmall sums.now }
    ensures packed { IfOk result (λ made. spec.packing direction list goal params.now (Some sums.now) ≡ Ok made) }
    ensures error { IfErr result (λ e. e ≢ OutOfMemory → spec.packing direction list goal params.now (Some sums.now) ≡ Err e) }
{
    let Some(size) = size_of(goal, along(direction, sums)) else {
        return Err(PackError::SizeOutOfRange);
    };
    if list.nesting() >= MAX_NESTING {
        return Err(PackError::TooDeep);
    }
    Ok(packed(alloc, direction, list, params, sums, size)?)
}

/// A horizontal list in a box. `SizeOutOfRange` exactly where, behind some item, a sum of widths, of stretch or of shrink of
/// one order, or a height or depth that an item asks, is past 2^30-1, either way, or the width is; else `TooDeep` exactly
/// where boxes would nest more than 500 deep.
pub fn hpack(
    alloc: Global,
    list: Nodes,
    goal: Goal,
    params: &PackParams,
) -> Result<Packed, PackError>
    requires goal { spec.IsGoal goal }
    requires rule { IsDimension params.now.overfull_rule }
    ensures packed { IfOk result (λ made. spec.hpacked list goal params.now ≡ Ok made) }
    ensures error { IfErr result (λ e. e ≢ OutOfMemory → spec.hpacked list goal params.now ≡ Err e) }
{
    let Some(sums) = sums_of(Direction::Horizontal, list.as_slice()) else {
        return Err(PackError::SizeOutOfRange);
    };
    packed_to(alloc, Direction::Horizontal, list, goal, params, &sums)
}

/// The extent of a list with these sums.
fn extent_by(list: &Nodes, sums: &Sums) -> Result<Extent, PackError>
    requires { IsSmall sums.now }
    ensures { result ≡ spec.extent_by list.now (Some sums.now) }
{
    if list.nesting() >= MAX_NESTING {
        return Err(PackError::TooDeep);
    }
    Ok(Extent {
        height: dimension(sums.height),
        depth: dimension(sums.depth),
    })
}

/// How high and how deep a horizontal list's box is, which isn't made. The errors are those of `hpack` to the natural size.
pub fn extent_of(list: &Nodes) -> Result<Extent, PackError>
    ensures { result ≡ spec.extent_of list.now }
{
    match sums_of(Direction::Horizontal, list.as_slice()) {
        Some(sums) => extent_by(list, &sums),
        None => Err(PackError::SizeOutOfRange),
    }
}

/// A vertical list in a box that is at most so many sp deep: what is deeper goes into its height. `SizeOutOfRange` exactly
/// where, behind some item, a sum of heights and depths, of stretch or of shrink of one order, the last depth, or a width that
/// an item asks, is past 2^30-1, either way, or the height is; else `TooDeep` exactly where boxes would nest more than 500
/// deep.
pub fn vpack(
    alloc: Global,
    list: Nodes,
    goal: Goal,
    maxdepth: i64,
    params: &PackParams,
) -> Result<Packed, PackError>
    requires goal { spec.IsGoal goal }
    requires most { IsDimension maxdepth }
    requires rule { IsDimension params.now.overfull_rule }
    ensures packed { IfOk result (λ made. spec.vpacked list goal maxdepth params.now ≡ Ok made) }
    ensures error { IfErr result (λ e. e ≢ OutOfMemory → spec.vpacked list goal maxdepth params.now ≡ Err e) }
{
    let Some(sums) = sums_of(Direction::Vertical, list.as_slice()) else {
        return Err(PackError::SizeOutOfRange);
    };
    let Some(sums) = with_depth(maxdepth, &sums) else {
        return Err(PackError::SizeOutOfRange);
    };
    packed_to(alloc, Direction::Vertical, list, goal, params, &sums)
}
