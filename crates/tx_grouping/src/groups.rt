//! Groups end (TeX: The Program, sections 1026, 1063 to 1068, 1100 and 1133).
ghost use Rattle.std.specs.Prelude.{◌≡◌, [], Some, IfOk};
ghost use Rattle.tx_eqtb.specs.declared.groups.GroupKind.{GroupKind};
ghost use Rattle.tx_eqtb.specs.Stack.{kind_of};
ghost use Rattle.tx_state.specs.declared.parts.Phase.{Phase};
ghost use Rattle.tx_grouping.specs.GroupEnds.{behind_paragraph, ending, ending_semi_simple, list_ending, outputting};
ghost use Rattle.tx_state.specs.Meanings.{IsStepped, state_of};

use crate::lists::{end_box, end_break, end_output_list, finish_insert};
use std::alloc::{AllocError, Global};
use tx_eqtb::GroupKind;
use tx_event::Event;
use tx_makeup::take_marker;
use tx_paragraph::{close_paragraph, paragraph_error};
use tx_seen::TexError;
use tx_state::{State, fail, leave_group, stand_before_row};

/// The end of a list in which no paragraph is open, by the kind of its group: behind that of \noalign rows are read again. Err is
/// want of memory.
fn end_list(alloc: Global, s: &mut State, kind: GroupKind) -> Result<Event, AllocError>
    requires running { s.old.phase ≡ Phase.Running }
    requires kind { kind_of s.old.table ≡ Some kind }
    ensures { IfOk result (λ event. IsStepped (list_ending kind (state_of s.old)) s.old event s.new) }
{
    match kind {
        GroupKind::Insert(class) => finish_insert(alloc, s, class),
        GroupKind::Output => {
            leave_group(s, GroupKind::Output)?;
            end_output_list(alloc, s)
        }
        GroupKind::NoAlign => {
            leave_group(s, GroupKind::NoAlign)?;
            stand_before_row(s);
            Ok(Event::Went)
        }
        _ => end_box(alloc, s, kind),
    }
}

/// The end of a list whose group is of this kind, in which a paragraph may be open: that ends first, and its lines of the transcript
/// stay there whatever comes of the list. Err is want of memory.
fn end_behind_paragraph(alloc: Global, s: &mut State, kind: GroupKind) -> Result<Event, AllocError>
    requires running { s.old.phase ≡ Phase.Running }
    requires kind { kind_of s.old.table ≡ Some kind }
    ensures { IfOk result (λ event. IsStepped (behind_paragraph kind (state_of s.old)) s.old event s.new) }
{
    match close_paragraph(
        alloc,
        s.words.fonts(),
        &mut s.hyphenation,
        &mut s.lists,
        &mut s.table,
    ) {
        Ok(report) => {
            s.said.append(report.as_slice())?;
            end_list(alloc, s, kind)
        }
        Err(error) => {
            let error = paragraph_error(error)?;
            Ok(fail(s, error))
        }
    }
}

/// The end of the group of \output, whose tokens have to end there too: that is looked for before the paragraph in its list ends.
/// Err is want of memory.
fn end_output(alloc: Global, s: &mut State) -> Result<Event, AllocError>
    requires running { s.old.phase ≡ Phase.Running }
    requires kind { kind_of s.old.table ≡ Some GroupKind.Output }
    ensures { IfOk result (λ event. IsStepped (outputting (state_of s.old)) s.old event s.new) }
{
    if take_marker(alloc, &mut s.input, &s.table)? {
        end_behind_paragraph(alloc, s, GroupKind::Output)
    } else {
        Ok(fail(s, TexError::UnbalancedOutput))
    }
}

/// An end-group token: closes the innermost group, which brings back what it changed; of the list of a box a box is made. The
/// groups of formulas end elsewhere. Err is want of memory; the event may end the run by an error, as `ending` says.
pub fn end_group(alloc: Global, s: &mut State) -> Result<Event, AllocError>
    requires running { s.old.phase ≡ Phase.Running }
    requires between { s.old.scan.taken ≡ [] }
    ensures { IfOk result (λ event. IsStepped (ending (state_of s.old) (kind_of s.old.table)) s.old event s.new) }
{
    match s.table.kind() {
        Some(GroupKind::Simple) => {
            leave_group(s, GroupKind::Simple)?;
            Ok(Event::Went)
        }
        Some(GroupKind::HorizontalBox) => end_box(alloc, s, GroupKind::HorizontalBox),
        Some(GroupKind::VerticalBox) => end_behind_paragraph(alloc, s, GroupKind::VerticalBox),
        Some(GroupKind::TopBox) => end_behind_paragraph(alloc, s, GroupKind::TopBox),
        Some(GroupKind::Discretionary(text)) => end_break(alloc, s, text),
        Some(GroupKind::Insert(class)) => {
            end_behind_paragraph(alloc, s, GroupKind::Insert(class))
        }
        Some(GroupKind::Output) => end_output(alloc, s),
        Some(GroupKind::NoAlign) => end_behind_paragraph(alloc, s, GroupKind::NoAlign),
        Some(GroupKind::Entry) => Ok(fail(s, TexError::MisplacedAlignment)),
        Some(GroupKind::MathShift | GroupKind::MathPart(_) | GroupKind::MathChoice(_)) => {
            Ok(fail(s, TexError::ExtraGroupEnd))
        }
        Some(GroupKind::MathLeft(_)) => Ok(fail(s, TexError::ExtraGroupEnd)),
        Some(GroupKind::Display | GroupKind::EquationNumber(_)) => {
            Ok(fail(s, TexError::ExtraGroupEnd))
        }
        Some(GroupKind::SemiSimple | GroupKind::Align) | None => {
            Ok(fail(s, TexError::ExtraGroupEnd))
        }
    }
}

/// \endgroup. Err is want of memory; the event may end the run by an error, as `ending_semi_simple` says.
pub fn end_semi_simple(s: &mut State) -> Result<Event, AllocError>
    requires running { s.old.phase ≡ Phase.Running }
    ensures { IfOk result (λ event. IsStepped (ending_semi_simple (state_of s.old) (kind_of s.old.table)) s.old event s.new) }
{
    match s.table.kind() {
        Some(GroupKind::SemiSimple) => {
            leave_group(s, GroupKind::SemiSimple)?;
            Ok(Event::Went)
        }
        _ => Ok(fail(s, TexError::ExtraGroupEnd)),
    }
}
