//! The effects of the commands of boxes and lists: a part of the state is handed down to the crate that carries them out, and what
//! this answers is taken over (TeX: The Program, part 47).
ghost use Rattle.std.specs.Prelude.{◌≡◌, is_some, IfOk, OnOk};
ghost use Rattle.tx_boxing.specs.Boxes as spec;
ghost use Rattle.tx_building.specs.Building.{built_if, built_in};
ghost use Rattle.tx_eqtb.specs.Table.{box_at};
ghost use Rattle.tx_state.specs.declared.parts.Phase.{Phase};
ghost use Rattle.tx_state.specs.Meanings.{IsStepped, state_of};
ghost use Rattle.tx_state.specs.Outcomes.{Outcome};

use std::alloc::{AllocError, Global};
use tx_assign::is_global;
use tx_box::{Lists, OpenBox, Target, begin_box, copy_register, every_in, take_last, use_register};
use tx_building::{build_in, carry};
use tx_command::{BoxContext, BoxGoal};
use tx_eqtb::Eqtb;
use tx_event::Event;
use tx_nest::{append_rule, has_last_box, is_bare_page, remove_item, set_prev_depth};
use tx_node::Rule;
use tx_output::LastItem;
use tx_pending::Pending;
use tx_prim::{BoxKind, IntegerParameter, ItemKind, UnboxKind};
use tx_seen::{Place, TexError};
use tx_state::{State, end_assignment, fail, finish_assignment};

/// Appends a rule. Err is want of memory.
pub fn add_rule(alloc: Global, s: &mut State, rule: Rule) -> Result<Event, AllocError>
    requires { s.old.phase ≡ Phase.Running }
    ensures { IfOk result (λ event. IsStepped (spec.ruling (state_of s.old) rule) s.old event s.new) }
{
    append_rule(alloc, s.lists.nest.top(), rule)?;
    Ok(Event::Went)
}

/// Whether \unskip would take glue that has gone to the page.
fn takes_of_page(lists: &Lists, kind: ItemKind) -> bool
    ensures { result ≡ spec.takes_of_page kind lists.now }
{
    match kind {
        ItemKind::Skip => {
            is_bare_page(lists.nest.innermost()) && matches!(lists.pages.last, LastItem::Skip(_))
        }
        ItemKind::Penalty | ItemKind::Kern => false,
    }
}

/// \unpenalty and its kin.
pub fn remove(s: &mut State, kind: ItemKind) -> Event
    requires { s.old.phase ≡ Phase.Running }
    ensures { IsStepped (spec.removing (state_of s.old) kind) s.old result s.new }
{
    if takes_of_page(&s.lists, kind) {
        return fail(s, TexError::MissingBox);
    }
    if remove_item(s.lists.nest.top(), kind) {
        Event::Went
    } else {
        fail(s, TexError::MissingBox)
    }
}

/// An assignment to \prevdepth, in sp. Err is want of memory.
pub fn set_depth(s: &mut State, depth: i32) -> Result<Event, AllocError>
    requires { s.old.phase ≡ Phase.Running }
    ensures { IfOk result (λ event. IsStepped (spec.setting_depth (state_of s.old) depth) s.old event s.new) }
{
    set_prev_depth(s.lists.nest.top(), depth);
    end_assignment(s)
}

/// What becomes of a box; \setbox is an assignment that is done as soon as its box begins or is found. Its only error is want of
/// memory.
pub(crate) fn settle(s: &mut State, context: BoxContext) -> Result<Target, AllocError>
    ensures target { IfOk result (λ target. target ≡ spec.target_of (state_of s.old) context) }
    ensures state { OnOk result (state_of s.new ≡ spec.settled context (state_of s.old)) }
    ensures phase { OnOk result (s.new.phase ≡ s.old.phase) }
    ensures said { OnOk result (s.new.said ≡ s.old.said) }
{
    let globaldefs = s.table.integer(IntegerParameter::Globaldefs);
    let target = Target {
        context,
        global: is_global(globaldefs, s.scan.prefixes().global),
    };
    match context {
        BoxContext::Register(_) => {
            finish_assignment(s)?;
            Ok(target)
        }
        BoxContext::Append(_) | BoxContext::Ship => Ok(target),
        BoxContext::Adjust | BoxContext::Center | BoxContext::Lead(_) => Ok(target),
    }
}

/// What becomes of a box, as the page builder has to know it: a void one isn't appended.
pub(crate) fn context_if(found: bool, context: BoxContext) -> BoxContext
    ensures { (outcome : Outcome) → built_in result outcome ≡ built_if found context outcome }
{
    if found { context } else { BoxContext::Ship }
}

/// The same of the box of a register.
pub(crate) fn register_context(table: &Eqtb, number: u8, context: BoxContext) -> BoxContext
    ensures { (outcome : Outcome) → built_in result outcome ≡ built_if (is_some (box_at table.now.table (Place.Box number))) context outcome }
{
    context_if(table.boxed(&Place::Box(number)).is_some(), context)
}

/// The tokens of \everyhbox or \everyvbox are read next. Its only error is want of memory.
fn read_every(input: &mut Pending, table: &Eqtb, kind: BoxKind) -> Result<(), AllocError>
    ensures { (s : State) → OnOk result (state_of (record s { input = input.new; table = table.now }) ≡ spec.with_every kind (state_of (record s { input = input.old; table = table.now }))) }
{
    let every = table.tokens(&Place::Tokens(every_in(kind)))?;
    input.push_list(every, false)?;
    Ok(())
}

/// The same, unless the list is that of a \vadjust.
fn read_every_in(
    input: &mut Pending,
    table: &Eqtb,
    context: BoxContext,
    kind: BoxKind,
) -> Result<(), AllocError>
    ensures { (s : State) → OnOk result (state_of (record s { input = input.new; table = table.now }) ≡ spec.with_every_in context kind (state_of (record s { input = input.old; table = table.now }))) }
{
    match context {
        BoxContext::Append(_) | BoxContext::Register(_) => read_every(input, table, kind),
        BoxContext::Ship | BoxContext::Center | BoxContext::Lead(_) => {
            read_every(input, table, kind)
        }
        BoxContext::Adjust => Ok(()),
    }
}

/// A box begins, in which the tokens of \everyhbox or \everyvbox are read first. Err is want of memory; the event may end the run
/// by an error, as `opening_box` says.
pub fn open_box(
    alloc: Global,
    s: &mut State,
    kind: BoxKind,
    goal: BoxGoal,
    context: BoxContext,
) -> Result<Event, AllocError>
    requires running { s.old.phase ≡ Phase.Running }
    ensures { IfOk result (λ event. IsStepped (spec.opening_box (state_of s.old) kind goal context) s.old event s.new) }
{
    read_every_in(&mut s.input, &s.table, context, kind)?;
    let target = settle(s, context)?;
    let open = OpenBox { kind, goal, target };
    let done = begin_box(alloc, &mut s.lists, &mut s.table, open)?;
    carry(s, done, b"")
}

/// \box: the box of a register, behind which the page builder is exercised unless it is void. Err is want of memory; the event may
/// end the run by an error, as `using_box` says.
pub fn use_box(
    alloc: Global,
    s: &mut State,
    number: u8,
    context: BoxContext,
) -> Result<Event, AllocError>
    requires running { s.old.phase ≡ Phase.Running }
    ensures { IfOk result (λ event. IsStepped (spec.using_box (state_of s.old) number context) s.old event s.new) }
{
    let behind = register_context(&s.table, number, context);
    let target = settle(s, context)?;
    let done = use_register(alloc, &mut s.lists, &mut s.table, target, number)?;
    let event = carry(s, done, b"")?;
    build_in(alloc, s, behind, event)
}

/// \copy: the box of a register, which keeps it. Err is want of memory; the event may end the run by an error, as `copying_box`
/// says.
pub fn copy_box(
    alloc: Global,
    s: &mut State,
    number: u8,
    context: BoxContext,
) -> Result<Event, AllocError>
    requires running { s.old.phase ≡ Phase.Running }
    ensures { IfOk result (λ event. IsStepped (spec.copying_box (state_of s.old) number context) s.old event s.new) }
{
    let target = settle(s, context)?;
    let done = copy_register(alloc, &mut s.lists, &mut s.table, target, number)?;
    carry(s, done, b"")
}

/// \lastbox: the box at the list's end, behind which the page builder is exercised if there is one. Err is want of memory; the
/// event may end the run by an error, as `taking_box` says.
pub fn take_box(alloc: Global, s: &mut State, context: BoxContext) -> Result<Event, AllocError>
    requires running { s.old.phase ≡ Phase.Running }
    ensures { IfOk result (λ event. IsStepped (spec.taking_box (state_of s.old) context) s.old event s.new) }
{
    let behind = context_if(has_last_box(&s.lists.nest.innermost().nodes), context);
    let target = settle(s, context)?;
    let done = take_last(alloc, &mut s.lists, &mut s.table, target)?;
    let event = carry(s, done, b"")?;
    build_in(alloc, s, behind, event)
}

/// \unhbox and its kin. Err is want of memory; the event may end the run by an error, as `unboxing_so` says.
pub fn unbox(s: &mut State, kind: UnboxKind, number: u8) -> Result<Event, AllocError>
    requires { s.old.phase ≡ Phase.Running }
    ensures { IfOk result (λ event. IsStepped (spec.unboxing_so (state_of s.old) kind number) s.old event s.new) }
{
    let done = tx_box::unbox(&mut s.lists, &mut s.table, kind, number)?;
    carry(s, done, b"")
}
