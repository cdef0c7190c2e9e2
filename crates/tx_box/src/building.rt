//! How a box begins and ends (TeX: The Program, sections 1083 to 1087).
ghost use Rattle.std.specs.Prelude.{◌≡◌, ◌≢◌, [], Some, Ok, Err, IfOk, IfErr, OnOk};
ghost use Rattle.tx_eqtb.specs.declared.eqtb.Eqtb.{Eqtb};
ghost use Rattle.tx_num.specs.Glue.{IsDimension};
ghost use Rattle.tx_pack.specs.Packing.{IsGoal};
ghost use Rattle.tx_pack.specs.declared.types.PackError.TheVariants.{OutOfMemory};
ghost use Rattle.tx_box.specs.Building as spec;
ghost use Rattle.tx_box.specs.Effects.{told};

use crate::kinds::{goal_of, group_of, mode_in, most_in, size_in};
use crate::leaving::{all_own, split_list};
use crate::opening::open_group;
use crate::parameters::{across, down};
use crate::parts::{Done, Lists, OpenBox, Target};
use crate::placing::place;
use std::alloc::{AllocError, Global};
use tx_bytes::Bytes;
use tx_eqtb::{Entry, Eqtb, ParShape};
use tx_nest::{ModeList, ModeState, Nest, append_items, go_on_behind};
use tx_node::Nodes;
use tx_num::Range;
use tx_pack::{Goal, PackError, PackParams, Packed, hpack, vpack, vtop};
use tx_par::Line;
use tx_prim::{BoxKind, DimensionParameter, IntegerParameter, ModeTest};
use tx_seen::{Place, TexError};
use tx_shape::BoxContext;

/// What a box's end answers, and the transcript's line of the box, if it has one, also where the box can't go where it is to go.
#[derive(Drop)]
pub struct Ended {
    pub done: Done,
    pub report: Bytes,
}

/// A paragraph has its plain shape, until the group ends (TeX: The Program, section 1070). After want of memory, its only error,
/// the table may only be dropped.
pub fn reset_shape(table: &mut Eqtb) -> Result<(), AllocError>
    ensures { OnOk result (table.new ≡ spec.plain_shape table.old) }
{
    table.assign(
        Place::Integer(IntegerParameter::Looseness),
        Entry::Number(0),
    )?;
    table.assign(
        Place::Dimension(DimensionParameter::Hangindent),
        Entry::Number(0),
    )?;
    table.assign(
        Place::Integer(IntegerParameter::Hangafter),
        Entry::Number(1),
    )?;
    table.assign(Place::ParShape, Entry::Shape(ParShape::none()))
}

/// In a vertical box a paragraph has its plain shape. After want of memory, its only error, the table may only be dropped.
fn shape(table: &mut Eqtb, kind: BoxKind) -> Result<(), AllocError>
    ensures { OnOk result (table.new ≡ spec.shape_in kind table.old) }
{
    match kind {
        BoxKind::Horizontal => Ok(()),
        BoxKind::Vertical | BoxKind::Top => reset_shape(table),
    }
}

/// A list begins in the one that is being built. Its only error is want of memory.
fn open_list(alloc: Global, lists: &mut Lists, new_box: OpenBox) -> Result<(), AllocError>
    ensures { OnOk result (lists.new ≡ spec.with_open lists.old new_box) }
{
    let list = ModeList::within(alloc, mode_in(new_box.kind), lists.nest.innermost());
    lists.nest.push(list)?;
    lists.boxes.push(new_box)
}

/// A box begins, in a group of its own. `TooManyGroups` exactly where 255 are open.
pub fn begin_box(
    alloc: Global,
    lists: &mut Lists,
    table: &mut Eqtb,
    new_box: OpenBox,
) -> Result<Done, AllocError>
    ensures { IfOk result (λ done. spec.beginning new_box lists.old table.old ≡ told done lists.new table.new) }
{
    if !open_group(table, group_of(new_box.kind))? {
        return Ok(Done::Wrong(TexError::TooManyGroups));
    }
    shape(table, new_box.kind)?;
    open_list(alloc, lists, new_box)?;
    Ok(Done::Whole)
}

/// How deep a vertical box may be whose group ends, in sp.
pub fn greatest_depth(table: &Eqtb) -> i64
    ensures { result ≡ spec.greatest_depth table.now.table }
{
    i64::from(table.dimension(DimensionParameter::Boxmaxdepth))
}

/// A list in a box, at most so many sp deep where it is vertical.
fn packed_as(
    alloc: Global,
    kind: BoxKind,
    goal: Goal,
    most: i64,
    table: &Eqtb,
    list: Nodes,
) -> Result<Packed, PackError>
    requires goal { IsGoal goal }
    requires most { IsDimension most }
    requires rule { IsDimension (spec.across table.now.table).overfull_rule }
    ensures packed { IfOk result (λ made. spec.packed_as kind goal most table.now.table list ≡ Ok made) }
    ensures error { IfErr result (λ e. e ≢ OutOfMemory → spec.packed_as kind goal most table.now.table list ≡ Err e) }
{
    match kind {
        BoxKind::Horizontal => hpack(alloc, list, goal, &across(table)),
        BoxKind::Vertical => vpack(alloc, list, goal, most, &down(table)),
        BoxKind::Top => vtop(alloc, list, goal, most, &down(table)),
    }
}

/// The same, where the sizes are dimensions.
fn packed(
    alloc: Global,
    kind: BoxKind,
    goal: Goal,
    most: i64,
    table: &Eqtb,
    list: Nodes,
) -> Result<Packed, PackError>
    ensures packed { IfOk result (λ made. spec.packed_if kind goal most table.now.table list ≡ Ok made) }
    ensures error { IfErr result (λ e. e ≢ OutOfMemory → spec.packed_if kind goal most table.now.table list ≡ Err e) }
{
    let rule = i64::from(table.dimension(DimensionParameter::Overfullrule));
    if Range::Dimen.holds(size_in(goal)) && Range::Dimen.holds(most) && Range::Dimen.holds(rule) {
        packed_as(alloc, kind, goal, most, table, list)
    } else {
        Err(PackError::SizeOutOfRange)
    }
}

/// What comes of an error: nothing is reported.
fn wrong(alloc: Global, error: TexError) -> Ended
    ensures done { result.done ≡ Done.Wrong error }
    ensures report { result.report ≡ [] }
{
    Ended {
        done: Done::Wrong(error),
        report: Bytes::new(alloc),
    }
}

/// A box that is made goes where it is to go, and \badness is how bad it is.
fn use_packed(
    alloc: Global,
    lists: &mut Lists,
    table: &mut Eqtb,
    target: Target,
    made: Packed,
) -> Result<Ended, AllocError>
    ensures { IfOk result (λ ended. spec.boxing target lists.old table.old (Ok made) ≡ spec.reported ended.report (told ended.done lists.new table.new)) }
{
    let Packed {
        node,
        badness,
        report,
    } = made;
    lists.badness = badness;
    let done = place(alloc, lists, table, target, Some(node))?;
    Ok(Ended { done, report })
}

/// Of what stands in a box, at most so many sp deep where it is vertical, the box is made, or can't be.
fn box_own(
    alloc: Global,
    lists: &mut Lists,
    table: &mut Eqtb,
    most: i64,
    ended: OpenBox,
    own: Nodes,
) -> Result<Ended, AllocError>
    ensures { IfOk result (λ made. spec.boxing ended.target lists.old table.old (spec.packed_if ended.kind (spec.goal_of ended.goal) most table.old.table own) ≡ spec.reported made.report (told made.done lists.new table.new)) }
{
    match packed(alloc, ended.kind, goal_of(ended.goal), most, table, own) {
        Ok(made) => use_packed(alloc, lists, table, ended.target, made),
        Err(PackError::SizeOutOfRange) => Ok(wrong(alloc, TexError::SizeOutOfRange)),
        Err(PackError::TooDeep) => Ok(wrong(alloc, TexError::TooDeep)),
        Err(PackError::OutOfMemory) => Err(AllocError),
    }
}

/// What leaves a box follows it, unless the box is wrong. Its only error is want of memory.
fn follow(lists: &mut Lists, ended: Ended, behind: Nodes) -> Result<Ended, AllocError>
    ensures { (table : Eqtb) → IfOk result (λ made. spec.followed behind (spec.reported ended.report (told ended.done lists.old table)) ≡ spec.reported made.report (told made.done lists.new table)) }
{
    if behind.len() > 0 {
        append_items(lists.nest.top(), behind)?;
    }
    Ok(ended)
}

/// What of a list stands in its box, and what leaves it, where the list around is in this mode. Its only error is want of memory.
fn line_in(
    alloc: Global,
    ended: OpenBox,
    around: ModeState,
    list: Nodes,
) -> Result<Line, AllocError>
    ensures { IfOk result (λ line. line ≡ spec.line_in ended.kind ended.target.context around list) }
{
    match (ended.kind, ended.target.context) {
        (BoxKind::Horizontal, BoxContext::Append(_)) if ModeTest::Vertical.holds(around.mode()) => {
            split_list(alloc, list)
        }
        (_, _) => Ok(all_own(alloc, list)),
    }
}

/// Of a list, at most so many sp deep where it is vertical, the box is made, or can't be, and what leaves it follows it.
fn box_list(
    alloc: Global,
    lists: &mut Lists,
    table: &mut Eqtb,
    most: i64,
    ended: OpenBox,
    list: Nodes,
) -> Result<Ended, AllocError>
    ensures { IfOk result (λ made. spec.boxing_line ended most lists.old table.old (spec.line_in ended.kind ended.target.context lists.old.nest.innermost.state list) ≡ spec.reported made.report (told made.done lists.new table.new)) }
{
    let Line { own, behind } = line_in(alloc, ended, lists.nest.innermost().state, list)?;
    let most = most_in(ended.target.context, most);
    let made = box_own(alloc, lists, table, most, ended, own)?;
    follow(lists, made, behind)
}

/// The items of the list that is being built, which ends; the one around it goes on.
pub fn leave_list(nest: &mut Nest) -> Nodes
    requires { nest.old.around ≢ [] }
    ensures nodes { result ≡ nest.old.innermost.nodes }
    ensures left { spec.left_list nest.old.innermost nest.old.around ≡ Some nest.new }
{
    let ModeList {
        state,
        nodes,
        prev_graf,
    } = nest.pop();
    go_on_behind(nest.top(), state, prev_graf);
    nodes
}

/// The innermost open box and its list, which end; None where no box is open, or no list waits around.
fn close_list(lists: &mut Lists) -> Option<(OpenBox, Nodes)>
    ensures { spec.IsClosed (spec.closed_list lists.old) result lists.new }
{
    if lists.nest.is_outermost() {
        return None;
    }
    match lists.boxes.pop() {
        Some(ended) => Some((ended, leave_list(&mut lists.nest))),
        None => None,
    }
}

/// A box ends, whose group has ended: of its list, at most so many sp deep where it is vertical, the box is made, which goes where
/// it is to go. `ExtraGroupEnd` exactly where no box is open, or no list waits around; else `SizeOutOfRange` and `TooDeep` where
/// the list can't be packed, or its leading is no dimension.
pub fn end_box(
    alloc: Global,
    lists: &mut Lists,
    table: &mut Eqtb,
    most: i64,
) -> Result<Ended, AllocError>
    ensures { IfOk result (λ ended. spec.ending most lists.old table.old ≡ spec.reported ended.report (told ended.done lists.new table.new)) }
{
    match close_list(lists) {
        Some((ended, list)) => box_list(alloc, lists, table, most, ended, list),
        None => Ok(wrong(alloc, TexError::ExtraGroupEnd)),
    }
}
