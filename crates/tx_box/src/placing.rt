//! Where a box goes that is made, found or copied (TeX: The Program, sections 1075 to 1078).
ghost use Rattle.std.specs.Prelude.{◌≡◌, Bool, IfOk, OnOk};
ghost use Rattle.tx_eqtb.specs.Stack.{assigned_by};
ghost use Rattle.tx_nest.specs.Appended.{box_appended};
ghost use Rattle.tx_eqtb.specs.declared.entry.Entry.TheVariants as entry;
ghost use Rattle.tx_seen.specs.declared.place.Place.TheVariants as place;
ghost use Rattle.tx_shape.specs.declared.types.BoxContext.TheVariants as context;
ghost use Rattle.tx_box.specs.declared.parts.Lists.{Lists};
ghost use Rattle.tx_eqtb.specs.declared.eqtb.Eqtb.{Eqtb};
ghost use Rattle.tx_box.specs.Effects.{told};
ghost use Rattle.tx_box.specs.Placing as spec;

use crate::formulas::append_atom;
use crate::parameters::leading_of;
use crate::parts::{Done, Lists, Target, Work};
use std::alloc::{AllocError, Global};
use tx_eqtb::{BoxContents, Entry, Eqtb};
use tx_mlist::AtomKind;
use tx_nest::{ModeState, NestError, append_box, append_item};
use tx_node::{BoxNode, Node};
use tx_prim::LeadersKind;
use tx_seen::{Place, TexError};
use tx_shape::BoxContext;

/// A box is appended to the list that is being built, which isn't a formula's, shifted by so many sp.
fn append_there(
    alloc: Global,
    lists: &mut Lists,
    table: &Eqtb,
    shift: i32,
    packed: BoxNode,
) -> Result<Done, AllocError>
    ensures { IfOk result (λ done. spec.appending lists.old table.now (box_appended (spec.leading_of table.now.table) lists.old.nest.innermost shift packed) ≡ told done lists.new table.now) }
{
    match append_box(alloc, lists.nest.top(), &leading_of(table), shift, packed) {
        Ok(()) => Ok(Done::Whole),
        Err(NestError::SizeOutOfRange) => Ok(Done::Wrong(TexError::SizeOutOfRange)),
        Err(NestError::OutOfMemory) => Err(AllocError),
    }
}

/// A box, or none, is appended to the list that is being built, shifted by so many sp; in a formula it is the nucleus of an Ord.
fn append(
    alloc: Global,
    lists: &mut Lists,
    table: &Eqtb,
    shift: i32,
    found: Option<BoxNode>,
) -> Result<Done, AllocError>
    ensures { (global : Bool) → IfOk result (λ done. spec.placed_in (context.Append shift) global lists.old table.now found ≡ told done lists.new table.now) }
{
    let Some(packed) = found else {
        return Ok(Done::Whole);
    };
    match lists.nest.innermost().state {
        ModeState::Math | ModeState::DisplayMath => {
            append_atom(alloc, lists, AtomKind::Ord, shift, packed)?;
            Ok(Done::Whole)
        }
        ModeState::Vertical(_) | ModeState::InternalVertical(_) => {
            append_there(alloc, lists, table, shift, packed)
        }
        ModeState::Horizontal(_) | ModeState::RestrictedHorizontal(_) => {
            append_there(alloc, lists, table, shift, packed)
        }
    }
}

/// A box, or none, is put into a register.
fn assign(
    alloc: Global,
    table: &mut Eqtb,
    global: bool,
    number: u8,
    found: Option<BoxNode>,
) -> Result<(), AllocError>
    ensures { OnOk result (table.new ≡ assigned_by global table.old (place.Box number) (entry.Box found)) }
{
    let contents = BoxContents::new(alloc, found)?;
    if global {
        table.assign_global(Place::Box(number), Entry::Box(contents))
    } else {
        table.assign(Place::Box(number), Entry::Box(contents))
    }
}

/// A box, if there is one, is to be shipped.
fn ship(found: Option<BoxNode>) -> Done
    ensures { (global : Bool) (lists : Lists) (table : Eqtb) → spec.placed_in context.Ship global lists table found ≡ told result lists table }
{
    match found {
        Some(shipped) => Done::Due(Work::Ship(shipped)),
        None => Done::Whole,
    }
}

/// A box, if there is one, is what leaders repeat.
fn lead(kind: LeadersKind, found: Option<BoxNode>) -> Done
    ensures { (global : Bool) (lists : Lists) (table : Eqtb) → spec.placed_in (context.Lead kind) global lists table found ≡ told result lists table }
{
    match found {
        Some(repeated) => Done::Leads(kind, repeated),
        None => Done::Whole,
    }
}

/// The list of a box, if there is one, is one item of the list that is being built.
fn adjust(alloc: Global, lists: &mut Lists, found: Option<BoxNode>) -> Result<Done, AllocError>
    ensures { (global : Bool) (table : Eqtb) → IfOk result (λ done. spec.placed_in context.Adjust global lists.old table found ≡ told done lists.new table) }
{
    let Some(packed) = found else {
        return Ok(Done::Whole);
    };
    let node = Node::from_adjustment(alloc, packed.into_nodes()?)?;
    append_item(lists.nest.top(), node)?;
    Ok(Done::Whole)
}

/// A box, if there is one, is the nucleus of an atom that is centred.
fn center(alloc: Global, lists: &mut Lists, found: Option<BoxNode>) -> Result<Done, AllocError>
    ensures { (global : Bool) (table : Eqtb) → IfOk result (λ done. spec.placed_in context.Center global lists.old table found ≡ told done lists.new table) }
{
    let Some(packed) = found else {
        return Ok(Done::Whole);
    };
    append_atom(alloc, lists, AtomKind::Center, 0, packed)?;
    Ok(Done::Whole)
}

/// A box, or none, goes where it is to go. After want of memory, its only error, lists and table may only be dropped, here and in
/// all that follows.
pub fn place(
    alloc: Global,
    lists: &mut Lists,
    table: &mut Eqtb,
    target: Target,
    found: Option<BoxNode>,
) -> Result<Done, AllocError>
    ensures { IfOk result (λ done. spec.placed target lists.old table.old found ≡ told done lists.new table.new) }
{
    match target.context {
        BoxContext::Append(shift) => append(alloc, lists, table, shift, found),
        BoxContext::Register(number) => {
            assign(alloc, table, target.global, number, found)?;
            Ok(Done::Whole)
        }
        BoxContext::Ship => Ok(ship(found)),
        BoxContext::Adjust => adjust(alloc, lists, found),
        BoxContext::Center => center(alloc, lists, found),
        BoxContext::Lead(kind) => Ok(lead(kind, found)),
    }
}
