//! Boxes that were made before (TeX: The Program, sections 1079, 1080 and 1110).
ghost use Rattle.std.specs.Prelude.{◌≡◌, IfOk, OnOk};
ghost use Rattle.tx_eqtb.specs.Table.{box_at};
ghost use Rattle.tx_seen.specs.declared.place.Place.TheVariants as place;
ghost use Rattle.tx_box.specs.Effects.{told};
ghost use Rattle.tx_box.specs.Sources as spec;

use crate::parts::{Done, Lists, Target, Work};
use crate::placing::place;
use std::alloc::{AllocError, Global};
use tx_eqtb::{BoxContents, Entry, Eqtb};
use tx_nest::{append_items, has_last, take_last_box};
use tx_node::{BoxNode, Direction};
use tx_prim::{Mode, UnboxKind};
use tx_seen::{Place, TexError};

/// The box of a register, of which one more owner is answered. Its only error is that no more owners can be counted.
fn held(table: &Eqtb, number: u8) -> Result<Option<BoxNode>, AllocError>
    ensures { IfOk result (λ found. found ≡ box_at table.now.table (place.Box number)) }
{
    match table.boxed(&Place::Box(number)) {
        Some(found) => Ok(Some(found.clone()?)),
        None => Ok(None),
    }
}

/// A register is void from now on, at the level at which it was assigned.
fn empty(table: &mut Eqtb, number: u8) -> Result<(), AllocError>
    ensures { OnOk result (table.new ≡ spec.emptied table.old number) }
{
    table.replace(Place::Box(number), Entry::Box(BoxContents::void()))
}

/// \box: the box of a register goes where it is to go, and the register is void from now on.
pub fn use_register(
    alloc: Global,
    lists: &mut Lists,
    table: &mut Eqtb,
    target: Target,
    number: u8,
) -> Result<Done, AllocError>
    ensures { IfOk result (λ done. spec.using target number lists.old table.old ≡ told done lists.new table.new) }
{
    let found = held(table, number)?;
    empty(table, number)?;
    place(alloc, lists, table, target, found)
}

/// \copy: a copy of the box of a register is due, if there is one.
pub fn copy_register(
    alloc: Global,
    lists: &mut Lists,
    table: &mut Eqtb,
    target: Target,
    number: u8,
) -> Result<Done, AllocError>
    ensures { IfOk result (λ done. spec.copying target number lists.old table.old ≡ told done lists.new table.new) }
{
    match held(table, number)? {
        Some(copied) => Ok(Done::Due(Work::Copy(copied, target))),
        None => place(alloc, lists, table, target, None),
    }
}

/// \lastbox: a box that stands last goes where it is to go, without its shift; nothing does where none stands there. `MissingBox`
/// exactly where the last item would be the page's, and in formulas.
pub fn take_last(
    alloc: Global,
    lists: &mut Lists,
    table: &mut Eqtb,
    target: Target,
) -> Result<Done, AllocError>
    ensures { IfOk result (λ done. spec.taking_last target lists.old table.old ≡ told done lists.new table.new) }
{
    if !has_last(lists.nest.innermost()) {
        return Ok(Done::Wrong(TexError::MissingBox));
    }
    let found = take_last_box(&mut lists.nest.top().nodes)?;
    place(alloc, lists, table, target, found)
}

/// Which boxes \unhbox and its kin take.
fn direction_of(kind: UnboxKind) -> Direction
    ensures { result ≡ spec.direction_of kind }
{
    match kind {
        UnboxKind::Horizontal | UnboxKind::HorizontalCopy => Direction::Horizontal,
        UnboxKind::Vertical | UnboxKind::VerticalCopy => Direction::Vertical,
    }
}

/// Whether the box stays in its register.
fn keeps(kind: UnboxKind) -> bool
    ensures { result ≡ spec.keeps kind }
{
    match kind {
        UnboxKind::HorizontalCopy | UnboxKind::VerticalCopy => true,
        UnboxKind::Horizontal | UnboxKind::Vertical => false,
    }
}

/// Whether two lists go the same way.
fn is_same(wanted: Direction, found: Direction) -> bool
    ensures { result ≡ spec.is_same wanted found }
{
    matches!(
        (wanted, found),
        (Direction::Horizontal, Direction::Horizontal) | (Direction::Vertical, Direction::Vertical)
    )
}

/// Whether a list of this mode takes what is in a box.
fn takes_from(mode: Mode, wanted: Direction, found: Direction) -> bool
    ensures { result ≡ spec.takes_from mode wanted found }
{
    match mode {
        Mode::Vertical | Mode::InternalVertical => is_same(wanted, found),
        Mode::Horizontal | Mode::RestrictedHorizontal => is_same(wanted, found),
        Mode::Math | Mode::DisplayMath => false,
    }
}

/// Why a list of this mode doesn't take what is in a box.
fn refusal(mode: Mode) -> TexError
    ensures { result ≡ spec.refusal mode }
{
    match mode {
        Mode::Vertical | Mode::InternalVertical => TexError::MissingBox,
        Mode::Horizontal | Mode::RestrictedHorizontal => TexError::MissingBox,
        Mode::Math | Mode::DisplayMath => TexError::NotAllowed,
    }
}

/// What is in a box stands at the end of the list, or a copy of it is due.
fn unbox_found(
    lists: &mut Lists,
    table: &mut Eqtb,
    kind: UnboxKind,
    number: u8,
    found: BoxNode,
) -> Result<Done, AllocError>
    ensures { IfOk result (λ done. spec.unboxed kind number lists.old table.old found.list ≡ told done lists.new table.new) }
{
    if keeps(kind) {
        return Ok(Done::Due(Work::CopyList(found.into_nodes()?)));
    }
    empty(table, number)?;
    append_items(lists.nest.top(), found.into_nodes()?)?;
    Ok(Done::Whole)
}

/// \unhbox and its kin: what is in the box of a register stands at the end of the list that is being built, if that goes the same
/// way; else `MissingBox`, or `NotAllowed` in a formula. Nothing is done where the register is void.
pub fn unbox(
    lists: &mut Lists,
    table: &mut Eqtb,
    kind: UnboxKind,
    number: u8,
) -> Result<Done, AllocError>
    ensures { IfOk result (λ done. spec.unboxing kind number lists.old table.old ≡ told done lists.new table.new) }
{
    let Some(found) = held(table, number)? else {
        return Ok(Done::Whole);
    };
    if !takes_from(
        lists.nest.innermost().mode(),
        direction_of(kind),
        found.direction(),
    ) {
        return Ok(Done::Wrong(refusal(lists.nest.innermost().mode())));
    }
    unbox_found(lists, table, kind, number, found)
}
