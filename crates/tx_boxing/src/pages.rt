//! The effects of pages: \output's list and that of an \insert begin, \vsplit, \end, and what is assigned to pages (TeX: The Program,
//! sections 1025, 1054, 1082, 1099, 1245 and 1246).
ghost use Rattle.std.specs.Prelude.{◌≡◌, [], IfOk};
ghost use Rattle.tx_boxing.specs.Pages as spec;
ghost use Rattle.tx_galley.specs.Assigning.{setting};
ghost use Rattle.tx_galley.specs.Ending.{is_done as is_run_done};
ghost use Rattle.tx_state.specs.declared.parts.Phase.{Phase};
ghost use Rattle.tx_state.specs.Meanings.{IsStepped, state_of};

use crate::boxes::{register_context, settle};
use std::alloc::{AllocError, Global};
use tx_box::{Ended, begin_vertical};
use tx_building::{build, build_in, carry};
use tx_eqtb::GroupKind;
use tx_event::Event;
use tx_galley::{add_end, is_done, set_quantity};
use tx_prim::PageQuantity;
use tx_shape::BoxContext;
use tx_state::{State, end_assignment, fail, finish};

/// The list of an \insert, or that of \output, begins behind its begin-group token. Err is want of memory; the event may end the
/// run by an error, as `beginning_list` says.
pub fn begin_vertical_list(
    alloc: Global,
    s: &mut State,
    group: GroupKind,
) -> Result<Event, AllocError>
    requires running { s.old.phase ≡ Phase.Running }
    requires between { s.old.scan.taken ≡ [] }
    ensures { IfOk result (λ event. IsStepped (spec.beginning_list (state_of s.old) group) s.old event s.new) }
{
    s.scan.begin_fresh();
    let done = begin_vertical(alloc, &mut s.lists, &mut s.table, group)?;
    carry(s, done, b"")
}

/// An assignment to \deadcycles. Err is want of memory.
pub fn set_dead_cycles(s: &mut State, number: i32) -> Result<Event, AllocError>
    requires { s.old.phase ≡ Phase.Running }
    ensures { IfOk result (λ event. IsStepped (spec.setting_dead_cycles (state_of s.old) number) s.old event s.new) }
{
    s.lists.pages.dead_cycles = number;
    end_assignment(s)
}

/// An assignment to a quantity of the page. Err is want of memory; the event may end the run by an error, as `paged_so` says.
pub fn set_page(s: &mut State, quantity: PageQuantity, value: i32) -> Result<Event, AllocError>
    requires { s.old.phase ≡ Phase.Running }
    ensures { IfOk result (λ event. IsStepped (spec.paged_so (state_of s.old) (setting quantity value s.old.lists.pages)) s.old event s.new) }
{
    match set_quantity(&mut s.lists.pages, quantity, value) {
        Ok(()) => end_assignment(s),
        Err(error) => Ok(fail(s, error)),
    }
}

/// \vsplit of a register to so many sp, behind which the page builder is exercised if the register isn't void. Err is want of
/// memory; the event may end the run by an error, as `splitting_off` says.
pub fn split(
    alloc: Global,
    s: &mut State,
    number: u8,
    size: i32,
    context: BoxContext,
) -> Result<Event, AllocError>
    requires running { s.old.phase ≡ Phase.Running }
    ensures { IfOk result (λ event. IsStepped (spec.splitting_off (state_of s.old) number size context) s.old event s.new) }
{
    let behind = register_context(&s.table, number, context);
    let target = settle(s, context)?;
    let ended = tx_makeup::split(alloc, &mut s.lists, &mut s.table, target, number, size)?;
    let Ended { done, report } = ended;
    let event = carry(s, done, report.as_slice())?;
    build_in(alloc, s, behind, event)
}

/// \end: the run ends, or a page is to be fired before. Err is want of memory; the event may end the run by an error, as
/// `ending_run` says.
pub fn end_run(alloc: Global, s: &mut State) -> Result<Event, AllocError>
    requires { s.old.phase ≡ Phase.Running }
    ensures { IfOk result (λ event. IsStepped (spec.ending_run (state_of s.old) (is_run_done s.old.lists.nest s.old.lists.pages)) s.old event s.new) }
{
    if is_done(&s.lists.nest, &s.lists.pages) {
        return Ok(finish(s));
    }
    add_end(alloc, &mut s.lists.nest, &s.table)?;
    build(alloc, s)
}
