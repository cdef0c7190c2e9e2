//! Displayed formulas begin and end (TeX: The Program, sections 1138, 1140 to 1145, 1194 and 1199 to 1206).
ghost use Rattle.std.specs.Prelude.{◌≡◌, [], Some, IfOk, OnOk};
ghost use Rattle.tx_box.specs.FormulaLists.{with_display};
ghost use Rattle.tx_eqtb.specs.Stack.{kind_of};
ghost use Rattle.tx_eqtb.specs.Table.{tokens_at};
ghost use Rattle.tx_formula.specs.Displays as spec;
ghost use Rattle.tx_pending.specs.Elements.{with_tokens};
ghost use Rattle.tx_state.specs.declared.parts.Phase.{Phase};
ghost use Rattle.tx_state.specs.Meanings.{IsStepped, state_of};

use crate::display_lists::{Numbered, end_number_list, finish};
use crate::error::fail_by_formula;
use crate::groups::go_on;
use crate::shifts::begin_text;
use std::alloc::{AllocError, Global};
use tx_box::Lists;
use tx_command::{CommandScan, Head};
use tx_display::{DisplayPlace, EquationNumber};
use tx_eqtb::{Entry, Eqtb, GroupKind};
use tx_event::Event;
use tx_paragraph::{Interruption, interrupt_paragraph, paragraph_error};
use tx_pending::Pending;
use tx_prim::{DimensionParameter, IntegerParameter, Mode, NumberSide, TokenParameter};
use tx_seen::{Place, TexError};
use tx_state::{State, fail, leave_group, open_group};

/// In a display \fam is no family, and the table has where it stands. After want of memory, its only error, the table may only be
/// dropped.
fn place(table: &mut Eqtb, at: DisplayPlace) -> Result<(), AllocError>
    ensures { OnOk result (table.new ≡ spec.placed table.old at) }
{
    table.assign(Place::Integer(IntegerParameter::Fam), Entry::Number(-1))?;
    table.assign(
        Place::Dimension(DimensionParameter::Predisplaysize),
        Entry::Number(at.size),
    )?;
    table.assign(
        Place::Dimension(DimensionParameter::Displaywidth),
        Entry::Number(at.width),
    )?;
    table.assign(
        Place::Dimension(DimensionParameter::Displayindent),
        Entry::Number(at.indent),
    )
}

/// A display begins in its group, at this place, and what \everydisplay has is read first. Its only error is want of memory.
fn begin(
    alloc: Global,
    table: &mut Eqtb,
    input: &mut Pending,
    lists: &mut Lists,
    scan: &mut CommandScan,
    at: DisplayPlace,
) -> Result<(), AllocError>
    ensures table { OnOk result (table.new ≡ spec.placed table.old at) }
    ensures input { OnOk result (input.new ≡ with_tokens input.old (tokens_at table.old.table (Place.Tokens TokenParameter.Everydisplay))) }
    ensures lists { OnOk result (lists.new ≡ with_display lists.old) }
    ensures scan { OnOk result (scan.new ≡ record { mode = Mode.DisplayMath; head = Head.Fresh; taken = [] }) }
{
    let every = table.tokens(&Place::Tokens(TokenParameter::Everydisplay))?;
    input.push_list(every, false)?;
    place(table, at)?;
    tx_box::begin_display(alloc, lists)?;
    scan.begin_fresh();
    scan.enter(Mode::DisplayMath);
    Ok(())
}

/// A display begins behind the lines of its paragraph, of which this is told, in a group of its own. Err is want of memory.
fn open_display(alloc: Global, s: &mut State, told: Interruption) -> Result<Event, AllocError>
    requires { s.old.phase ≡ Phase.Running }
    ensures { IfOk result (λ event. IsStepped (spec.opening_display (state_of s.old) told.report told.place) s.old event s.new) }
{
    let Interruption { report, place } = told;
    s.said.append(report.as_slice())?;
    if open_group(s, GroupKind::Display)? {
        begin(
            alloc,
            &mut s.table,
            &mut s.input,
            &mut s.lists,
            &mut s.scan,
            place,
        )?;
        Ok(Event::Went)
    } else {
        Ok(fail(s, TexError::TooManyGroups))
    }
}

/// `$$` in a paragraph: its lines so far stand in the list around, and a display begins. Err is want of memory; the event may end the
/// run by an error, as `beginning_display` says.
pub fn begin_display(alloc: Global, s: &mut State) -> Result<Event, AllocError>
    requires { s.old.phase ≡ Phase.Running }
    ensures { IfOk result (λ event. IsStepped (spec.beginning_display (state_of s.old)) s.old event s.new) }
{
    match interrupt_paragraph(
        alloc,
        s.words.fonts(),
        &mut s.hyphenation,
        &s.table,
        &mut s.lists,
    ) {
        Ok(told) => open_display(alloc, s, told),
        Err(error) => {
            let error = paragraph_error(error)?;
            Ok(fail(s, error))
        }
    }
}

/// \eqno and \leqno. `NotAllowed` exactly where no display is the innermost list. Err is want of memory; the event may end the run by
/// an error, as `beginning_number` says.
pub fn begin_number(alloc: Global, s: &mut State, side: NumberSide) -> Result<Event, AllocError>
    requires { s.old.phase ≡ Phase.Running }
    ensures { IfOk result (λ event. IsStepped (spec.beginning_number (state_of s.old) side) s.old event s.new) }
{
    match s.scan.mode() {
        Mode::DisplayMath => match s.table.kind() {
            Some(GroupKind::Display) => begin_text(alloc, s, GroupKind::EquationNumber(side)),
            _ => Ok(fail(s, TexError::ExtraGroupEnd)),
        },
        _ => Ok(fail(s, TexError::NotAllowed)),
    }
}

/// A display ends, with its number, if it has one: it stands in the list around, its group ends, and one space is skipped. Err is want
/// of memory.
fn end_whole(
    alloc: Global,
    s: &mut State,
    number: Option<EquationNumber>,
) -> Result<Event, AllocError>
    requires running { s.old.phase ≡ Phase.Running }
    requires kind { kind_of s.old.table ≡ Some GroupKind.Display }
    ensures { IfOk result (λ event. IsStepped (spec.display_ended (state_of s.old) number) s.old event s.new) }
{
    match finish(
        alloc,
        s.words.fonts(),
        &s.table,
        &mut s.lists,
        &mut s.said,
        number,
    ) {
        Ok(()) => {
            go_on(s, GroupKind::Display)?;
            s.scan.begin_behind(Head::Displayed);
            Ok(Event::Went)
        }
        Err(error) => fail_by_formula(s, error),
    }
}

/// The group of an equation's number, which is set, ends, and the display around it. Err is want of memory.
fn leave_number(
    alloc: Global,
    s: &mut State,
    side: NumberSide,
    made: Numbered,
) -> Result<Event, AllocError>
    requires running { s.old.phase ≡ Phase.Running }
    requires kind { kind_of s.old.table ≡ Some (GroupKind.EquationNumber side) }
    ensures { IfOk result (λ event. IsStepped (spec.number_closed (state_of s.old) made s.old.lists) s.old event s.new) }
{
    let Numbered { number, report } = made;
    s.said.append(report.as_slice())?;
    leave_group(s, GroupKind::EquationNumber(side))?;
    match s.table.kind() {
        Some(GroupKind::Display) => end_whole(alloc, s, Some(number)),
        _ => Ok(fail(s, TexError::ExtraGroupEnd)),
    }
}

/// The formula of an equation's number ends, and the display around it. Err is want of memory.
fn end_number(alloc: Global, s: &mut State, side: NumberSide) -> Result<Event, AllocError>
    requires running { s.old.phase ≡ Phase.Running }
    requires kind { kind_of s.old.table ≡ Some (GroupKind.EquationNumber side) }
    ensures { IfOk result (λ event. IsStepped (spec.number_ended (state_of s.old) side) s.old event s.new) }
{
    match end_number_list(alloc, s.words.fonts(), &s.table, &mut s.lists, side) {
        Ok(made) => leave_number(alloc, s, side, made),
        Err(error) => fail_by_formula(s, error),
    }
}

/// The second `$` at the end of a display. `ExtraGroupEnd` exactly where no display, and no number of an equation in one, is the
/// innermost group. Err is want of memory; the event may end the run by an error, as `ending_display` says.
pub fn end_display(alloc: Global, s: &mut State) -> Result<Event, AllocError>
    requires { s.old.phase ≡ Phase.Running }
    ensures { IfOk result (λ event. IsStepped (spec.ending_display (state_of s.old)) s.old event s.new) }
{
    match s.table.kind() {
        Some(GroupKind::Display) => end_whole(alloc, s, None),
        Some(GroupKind::EquationNumber(side)) => end_number(alloc, s, side),
        _ => Ok(fail(s, TexError::ExtraGroupEnd)),
    }
}

/// The paragraph goes on behind a display, once its space is skipped.
pub fn go_on_behind_display(scan: &mut CommandScan) -> Event
    requires { scan.old.taken ≡ [] }
    ensures { (s : State) → s.phase ≡ Phase.Running → IsStepped (spec.going_on_behind (state_of (record s { scan = scan.old }))) (record s { scan = scan.old }) result (record s { scan = scan.new }) }
{
    scan.begin_fresh();
    Event::Went
}
