//! The lists of groups end: those of boxes, of an \insert, of \output, and the texts of \discretionary (TeX: The Program, sections
//! 1026, 1086, 1100 and 1119).
ghost use Rattle.std.specs.Prelude.{◌≡◌, [], Some, IfOk};
ghost use Rattle.tx_box.specs.Inserts.{left_vertical};
ghost use Rattle.tx_building.specs.Building.{paging};
ghost use Rattle.tx_eqtb.specs.Stack.{kind_of};
ghost use Rattle.tx_grouping.specs.ListEnds as spec;
ghost use Rattle.tx_state.specs.declared.parts.Phase.{Phase};
ghost use Rattle.tx_state.specs.Meanings.{IsStepped, state_of};
ghost use Rattle.tx_state.specs.Outcomes.{leaves};

use std::alloc::{AllocError, Global};
use tx_box::{Ended, OpenBox, end_insert, end_vertical, greatest_depth, insert_params};
use tx_building::{build_behind, build_in, carry, page_error, take_page};
use tx_command::Head;
use tx_eqtb::GroupKind;
use tx_event::Event;
use tx_galley::{Next, end_output};
use tx_list::Stack;
use tx_prim::BreakText;
use tx_seen::TexError;
use tx_shape::{BoxContext, Opener};
use tx_state::{State, fail, leave_group};

/// What is to become of the innermost open box.
fn context_of(boxes: &Stack<OpenBox>) -> BoxContext
    ensures { result ≡ spec.context_of boxes.now }
{
    match boxes.first() {
        Some(open) => open.target.context,
        None => BoxContext::Ship,
    }
}

/// The end of a box, whose group is of this kind, behind which the page builder is exercised if it was appended. Err is want of
/// memory.
pub(crate) fn end_box(alloc: Global, s: &mut State, kind: GroupKind) -> Result<Event, AllocError>
    requires running { s.old.phase ≡ Phase.Running }
    requires kind { kind_of s.old.table ≡ Some kind }
    ensures { IfOk result (λ event. IsStepped (spec.ending_box (state_of s.old)) s.old event s.new) }
{
    let context = context_of(&s.lists.boxes);
    let most = greatest_depth(&s.table);
    leave_group(s, kind)?;
    let ended = tx_box::end_box(alloc, &mut s.lists, &mut s.table, most)?;
    let Ended { done, report } = ended;
    let event = carry(s, done, report.as_slice())?;
    build_in(alloc, s, context, event)
}

/// The list of an \insert of this class, whose group ends, is packed and stands in the list around, behind which the page builder
/// is exercised. Err is want of memory.
pub(crate) fn finish_insert(alloc: Global, s: &mut State, class: u8) -> Result<Event, AllocError>
    requires running { s.old.phase ≡ Phase.Running }
    requires kind { kind_of s.old.table ≡ Some (GroupKind.Insert class) }
    ensures { IfOk result (λ event. IsStepped (spec.ending_insert (state_of s.old) class) s.old event s.new) }
{
    let params = insert_params(&s.table);
    leave_group(s, GroupKind::Insert(class))?;
    let done = end_insert(alloc, &mut s.lists, &s.table, class, params)?;
    let event = carry(s, done, b"")?;
    build_behind(alloc, s, event)
}

/// What is to come of a page that fired: its box is shipped, or \output's tokens are read. Err is want of memory.
fn take_fired(s: &mut State, next: Next) -> Result<Event, AllocError>
    requires { s.old.phase ≡ Phase.Running }
    ensures { IfOk result (λ event. IsStepped (leaves (paging next (state_of s.old))) s.old event s.new) }
{
    take_page(&mut s.lists, &mut s.due, &mut s.input, &mut s.scan, next)?;
    Ok(Event::Went)
}

/// The list of \output, whose group has ended, leaves the lists, and the page builder goes on. Err is want of memory.
pub(crate) fn end_output_list(alloc: Global, s: &mut State) -> Result<Event, AllocError>
    requires { s.old.phase ≡ Phase.Running }
    ensures { IfOk result (λ event. IsStepped (spec.ending_output_in (state_of s.old) (left_vertical s.old.lists)) s.old event s.new) }
{
    let Some(list) = end_vertical(&mut s.lists) else {
        return Ok(fail(s, TexError::ExtraGroupEnd));
    };
    s.scan.enter(s.lists.nest.innermost().mode());
    match end_output(
        alloc,
        &mut s.lists.nest,
        &mut s.table,
        &mut s.lists.pages,
        list,
    ) {
        Ok(next) => take_fired(s, next),
        Err(error) => {
            let error = page_error(error)?;
            Ok(fail(s, error))
        }
    }
}

/// What stands before the command behind a text of \discretionary.
fn head_behind(text: BreakText) -> Head
    ensures { result ≡ spec.head_behind text }
{
    match text {
        BreakText::Before => Head::Opening(Opener::Break(BreakText::Behind)),
        BreakText::Behind => Head::Opening(Opener::Break(BreakText::Instead)),
        BreakText::Instead => Head::Fresh,
    }
}

/// The end of a text of \discretionary. Err is want of memory.
pub(crate) fn end_break(alloc: Global, s: &mut State, text: BreakText) -> Result<Event, AllocError>
    requires running { s.old.phase ≡ Phase.Running }
    requires between { s.old.scan.taken ≡ [] }
    requires kind { kind_of s.old.table ≡ Some (GroupKind.Discretionary text) }
    ensures { IfOk result (λ event. IsStepped (spec.ending_break (state_of s.old) text) s.old event s.new) }
{
    leave_group(s, GroupKind::Discretionary(text))?;
    if let Some(error) = tx_box::end_break(alloc, &mut s.lists, text)? {
        return Ok(fail(s, error));
    }
    s.scan.enter(s.lists.nest.innermost().mode());
    s.scan.begin_behind(head_behind(text));
    Ok(Event::Went)
}
