//! The page builder is exercised, and what comes of a page that fires (TeX: The Program, sections 994 and 1025).
ghost use Rattle.std.specs.Prelude.{◌≡◌, ◌≢◌, [], IfOk, OnOk};
ghost use Rattle.tx_event.specs.declared.types.Event.{Event};
ghost use Rattle.tx_galley.specs.declared.errors.GalleyError.TheVariants.{OutOfMemory};
ghost use Rattle.tx_galley.specs.Errors.{error_of};
ghost use Rattle.tx_state.specs.declared.parts.Phase.{Phase};
ghost use Rattle.tx_state.specs.Meanings.{IsStepped, state_of};
ghost use Rattle.tx_state.specs.Outcomes.{Outcome};
ghost use Rattle.tx_building.specs.Building as spec;

use std::alloc::{AllocError, Global};
use tx_box::{Lists, Work};
use tx_command::{CommandScan, Head};
use tx_event::Event;
use tx_galley::{GalleyError, Next, exercise};
use tx_list::Stack;
use tx_nest::Nest;
use tx_pending::Pending;
use tx_prim::Mode;
use tx_seen::TexError;
use tx_shape::{BoxContext, Opener};
use tx_state::{Due, State, fail, push_work};

/// The error of a page by which the run ends, if that isn't want of memory.
pub fn page_error(error: GalleyError) -> Result<TexError, AllocError>
    ensures told { IfOk result (λ told. told ≡ error_of error) }
    ensures memory { IfOk result (λ _. error ≢ OutOfMemory) }
{
    match error {
        GalleyError::Refused(error) => Ok(error),
        GalleyError::OutOfMemory => Err(AllocError),
    }
}

/// What is to come of a page that fired: its box is shipped, or \output's tokens are read. Its only error is want of memory.
pub fn take_page(
    lists: &mut Lists,
    due: &mut Stack<Due>,
    input: &mut Pending,
    scan: &mut CommandScan,
    next: Next,
) -> Result<(), AllocError>
    ensures { (s : State) → OnOk result (state_of (record s { lists = lists.new; due = due.new; input = input.new; scan = scan.new }) ≡ spec.paging next (state_of (record s { lists = lists.old; due = due.old; input = input.old; scan = scan.old }))) }
{
    match next {
        Next::Goes => Ok(()),
        Next::Ships(shipped, badness) => {
            lists.badness = badness;
            push_work(due, Work::ShipPage(shipped))
        }
        Next::Reads(tokens, badness) => {
            lists.badness = badness;
            input.push_list(tokens, true)?;
            scan.begin_behind(Head::Opening(Opener::Output));
            Ok(())
        }
    }
}

/// The page builder is exercised. Err is want of memory; the event may end the run by an error, as `exercising` says.
pub fn build(alloc: Global, s: &mut State) -> Result<Event, AllocError>
    requires { s.old.phase ≡ Phase.Running }
    ensures { IfOk result (λ event. IsStepped (spec.exercising (state_of s.old) []) s.old event s.new) }
{
    match exercise(alloc, &mut s.lists.nest, &mut s.table, &mut s.lists.pages) {
        Ok(next) => {
            take_page(&mut s.lists, &mut s.due, &mut s.input, &mut s.scan, next)?;
            Ok(Event::Went)
        }
        Err(error) => {
            let error = page_error(error)?;
            Ok(fail(s, error))
        }
    }
}

/// The same where the pages' list is being built. Err is want of memory; the event may end the run by an error, as `then_building`
/// says.
pub fn build_here(alloc: Global, s: &mut State) -> Result<Event, AllocError>
    requires { s.old.phase ≡ Phase.Running }
    ensures { IfOk result (λ event. IsStepped (spec.then_building (state_of s.old) []) s.old event s.new) }
{
    if is_pages(s.scan.mode()) {
        build(alloc, s)
    } else {
        Ok(Event::Went)
    }
}

/// Whether this is the mode of the pages' list.
pub fn is_pages(mode: Mode) -> bool
    ensures { result ≡ spec.is_pages mode }
{
    matches!(mode, Mode::Vertical)
}

/// The same behind what changed the list that is being built, with this event. Err is want of memory; the event may end the run by
/// an error, as `built` says.
pub fn build_behind(alloc: Global, s: &mut State, event: Event) -> Result<Event, AllocError>
    requires runs { event ≡ Event.Went → s.old.phase ≡ Phase.Running }
    ensures { (before : State) (outcome : Outcome) → IsStepped outcome before event s.old → IfOk result (λ further. IsStepped (spec.built outcome) before further s.new) }
{
    match event {
        Event::Went => build_here(alloc, s),
        event => Ok(event),
    }
}

/// Whether the pages' list is around the one that is being built.
fn is_within_pages(nest: &Nest) -> bool
    ensures { result ≡ spec.is_within_pages nest.now.around }
{
    match nest.mode_around() {
        Some(mode) => is_pages(mode),
        None => false,
    }
}

/// The page builder is exercised where the pages' list is around the one that is being built. Err is want of memory; the event may end
/// the run by an error, as `then_building_outside` says.
fn build_outside(alloc: Global, s: &mut State) -> Result<Event, AllocError>
    requires { s.old.phase ≡ Phase.Running }
    ensures { IfOk result (λ event. IsStepped (spec.then_building_outside (state_of s.old) []) s.old event s.new) }
{
    if is_within_pages(&s.lists.nest) {
        build(alloc, s)
    } else {
        Ok(Event::Went)
    }
}

/// The same behind a display's begin, or before the paragraph goes on behind one, with this event. Err is want of memory; the event may
/// end the run by an error, as `built_outside` says.
pub fn build_outside_behind(alloc: Global, s: &mut State, event: Event) -> Result<Event, AllocError>
    requires runs { event ≡ Event.Went → s.old.phase ≡ Phase.Running }
    ensures { (before : State) (outcome : Outcome) → IsStepped outcome before event s.old → IfOk result (λ further. IsStepped (spec.built_outside outcome) before further s.new) }
{
    match event {
        Event::Went => build_outside(alloc, s),
        event => Ok(event),
    }
}

/// The same behind a box of which this became, if it was appended. Err is want of memory; the event may end the run by an error, as
/// `built_in` says.
pub fn build_in(
    alloc: Global,
    s: &mut State,
    context: BoxContext,
    event: Event,
) -> Result<Event, AllocError>
    requires runs { event ≡ Event.Went → s.old.phase ≡ Phase.Running }
    ensures { (before : State) (outcome : Outcome) → IsStepped outcome before event s.old → IfOk result (λ further. IsStepped (spec.built_in context outcome) before further s.new) }
{
    match context {
        BoxContext::Append(_) => build_behind(alloc, s, event),
        BoxContext::Register(_) | BoxContext::Ship => Ok(event),
        BoxContext::Adjust | BoxContext::Center | BoxContext::Lead(_) => Ok(event),
    }
}
