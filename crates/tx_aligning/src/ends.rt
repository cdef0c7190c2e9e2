//! Alignments end (TeX: The Program, sections 800 and 812).
ghost use Rattle.std.specs.Prelude.{◌≡◌, Some, IfOk};
ghost use Rattle.tx_eqtb.specs.Stack.{kind_of};
ghost use Rattle.tx_state.specs.declared.parts.Phase.{Phase};
ghost use Rattle.tx_state.specs.Meanings.{IsStepped, state_of};
ghost use Rattle.tx_tabular.specs.Ending.{finishing};
ghost use Rattle.tx_aligning.specs.Ends as spec;

use crate::standing::fail_by_alignment;
use std::alloc::{AllocError, Global};
use tx_box::across;
use tx_command::Head;
use tx_eqtb::{Eqtb, GroupKind};
use tx_event::Event;
use tx_pack::PackParams;
use tx_seen::TexError;
use tx_state::{State, fail, leave_group, stand};
use tx_tabular::{Alignment, end_alignment};

/// How the preamble of an alignment is packed: no rule is put behind it.
fn params_of(table: &Eqtb) -> PackParams
    ensures { result ≡ spec.params_of table.now.table }
{
    PackParams {
        overfull_rule: 0,
        ..across(table)
    }
}

/// An alignment ends, whose groups have ended. Err is want of memory.
fn end_in(alloc: Global, s: &mut State, alignment: Alignment) -> Result<Event, AllocError>
    requires { s.old.phase ≡ Phase.Running }
    ensures { IfOk result (λ event. IsStepped (spec.ended_to (state_of s.old) alignment s.old.alignments (finishing (spec.params_of s.old.table.table) s.old.lists alignment)) s.old event s.new) }
{
    let params = params_of(&s.table);
    let outer = alignment.outer;
    let report = match end_alignment(alloc, &mut s.lists, &params, alignment) {
        Ok(report) => report,
        Err(error) => return fail_by_alignment(s, error),
    };
    stand(s, Head::Fresh);
    s.input.set_level(outer);
    s.said.append(report.as_slice())?;
    Ok(Event::Went)
}

/// The group of an alignment ends, and it. Err is want of memory.
fn end_own(alloc: Global, s: &mut State) -> Result<Event, AllocError>
    requires running { s.old.phase ≡ Phase.Running }
    requires kind { kind_of s.old.table ≡ Some GroupKind.Align }
    ensures { IfOk result (λ event. IsStepped (spec.ended_with (state_of s.old) (kind_of s.old.table)) s.old event s.new) }
{
    leave_group(s, GroupKind::Align)?;
    match s.alignments.pop() {
        Some(alignment) => end_in(alloc, s, alignment),
        None => Ok(fail(s, TexError::MisplacedAlignment)),
    }
}

/// The group of its entries ends, and then its own. Err is want of memory.
fn end_both(alloc: Global, s: &mut State) -> Result<Event, AllocError>
    requires running { s.old.phase ≡ Phase.Running }
    requires kind { kind_of s.old.table ≡ Some GroupKind.Entry }
    ensures { IfOk result (λ event. IsStepped (spec.ending_with (state_of s.old) (kind_of s.old.table)) s.old event s.new) }
{
    leave_group(s, GroupKind::Entry)?;
    match s.table.kind() {
        Some(GroupKind::Align) => end_own(alloc, s),
        _ => Ok(fail(s, TexError::ExtraGroupEnd)),
    }
}

/// The end-group token of an alignment, between rows. Err is want of memory; the event may end the run by an error, as `ending`
/// says.
pub fn end_align(alloc: Global, s: &mut State) -> Result<Event, AllocError>
    requires { s.old.phase ≡ Phase.Running }
    ensures { IfOk result (λ event. IsStepped (spec.ending (state_of s.old)) s.old event s.new) }
{
    match s.table.kind() {
        Some(GroupKind::Entry) => end_both(alloc, s),
        _ => Ok(fail(s, TexError::ExtraGroupEnd)),
    }
}
