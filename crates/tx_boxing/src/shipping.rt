//! Boxes that are due: they are shipped, or copied (TeX: The Program, sections 638 to 644).
ghost use Rattle.std.specs.Prelude.{◌≡◌, IfOk};
ghost use Rattle.tx_boxing.specs.Shipped as spec;
ghost use Rattle.tx_state.specs.declared.parts.Phase.{Phase};
ghost use Rattle.tx_state.specs.Meanings.{IsStepped, state_of};

use std::alloc::{AllocError, Global};
use tx_box::{Target, Work, place};
use tx_building::{build, build_in, carry, page_error};
use tx_event::Event;
use tx_makeup::{discard, ship};
use tx_nest::append_items;
use tx_node::BoxNode;
use tx_state::{State, fail, push_work};

/// Ships a box, which ends what dead cycles there were: the magnification has to be one, and that of the first page. Err is want of
/// memory.
fn ship_box(alloc: Global, s: &mut State, shipped: BoxNode) -> Result<Event, AllocError>
    requires { s.old.phase ≡ Phase.Running }
    ensures { IfOk result (λ event. IsStepped (spec.ships_box (state_of s.old) shipped) s.old event s.new) }
{
    s.lists.pages.dead_cycles = 0;
    match ship(
        alloc,
        shipped,
        s.words.fonts(),
        &s.table,
        &mut s.magnification,
        &mut s.defined,
    ) {
        Ok(page) => Ok(Event::Shipped(page)),
        Err(error) => {
            let error = page_error(error)?;
            Ok(fail(s, error))
        }
    }
}

/// A copy goes where it is to go, behind which the page builder is exercised. Err is want of memory.
fn add_copy(
    alloc: Global,
    s: &mut State,
    target: Target,
    copied: BoxNode,
) -> Result<Event, AllocError>
    requires { s.old.phase ≡ Phase.Running }
    ensures { IfOk result (λ event. IsStepped (spec.works_boxes (state_of s.old) (Work.Copy copied target)) s.old event s.new) }
{
    let done = place(alloc, &mut s.lists, &mut s.table, target, Some(copied))?;
    let event = carry(s, done, b"")?;
    build_in(alloc, s, target.context, event)
}

/// Copies boxes, or ships one; behind that of a page that fired the page builder goes on. Err is want of memory; the event may end
/// the run by an error, as `works_boxes` says.
pub fn work_boxes(alloc: Global, s: &mut State, work: Work) -> Result<Event, AllocError>
    requires { s.old.phase ≡ Phase.Running }
    ensures { IfOk result (λ event. IsStepped (spec.works_boxes (state_of s.old) work) s.old event s.new) }
{
    match work {
        Work::Copy(copied, target) => add_copy(alloc, s, target, copied),
        Work::CopyList(list) => {
            append_items(s.lists.nest.top(), list)?;
            Ok(Event::Went)
        }
        Work::Ship(shipped) => ship_box(alloc, s, shipped),
        Work::ShipPage(shipped) => {
            if let Err(error) = push_work(&mut s.due, Work::Build) {
                discard(shipped);
                return Err(error);
            }
            ship_box(alloc, s, shipped)
        }
        Work::Build => build(alloc, s),
    }
}
