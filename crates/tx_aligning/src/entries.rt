//! Entries begin and end (TeX: The Program, sections 786 to 799, and 1131).
ghost use Rattle.std.specs.Prelude.{◌≡◌, ◌≢◌, Some, Ok, Err, IfOk, IfErr, OnOk};
ghost use Rattle.tx_align.specs.declared.error.AlignError.TheVariants.{OutOfMemory};
ghost use Rattle.tx_eqtb.specs.Stack.{kind_of};
ghost use Rattle.tx_state.specs.declared.parts.Phase.{Phase};
ghost use Rattle.tx_state.specs.Groups.{IsOpened, closing};
ghost use Rattle.tx_state.specs.Meanings.{IsStepped, state_of};
ghost use Rattle.tx_tabular.specs.Entries as tabular;
ghost use Rattle.tx_aligning.specs.Entries as spec;

use crate::standing::{fail_by_alignment, put_innermost, read_everycr};
use std::alloc::{AllocError, Global};
use tx_align::AlignError;
use tx_box::leading_of;
use tx_command::Head;
use tx_eqtb::GroupKind;
use tx_event::Event;
use tx_pending::ColumnPart;
use tx_prim::EntryEnd;
use tx_seen::TexError;
use tx_state::{OUTSIDE, State, fail, leave_group, open_group, stand, stand_before_row};
use tx_tabular::{
    Alignment, begin_entry_list, begin_row, ending_of, join_columns, next_column, part_of,
};

/// The u- or the v-part of the entry's column is read next, up to its end. Its only error is want of memory.
fn read_part(
    alloc: Global,
    s: &mut State,
    alignment: &Alignment,
    part: ColumnPart,
) -> Result<(), AllocError>
    ensures state { OnOk result (state_of s.new ≡ spec.with_part part alignment.now (state_of s.old)) }
    ensures phase { OnOk result (s.new.phase ≡ s.old.phase) }
    ensures said { OnOk result (s.new.said ≡ s.old.said) }
{
    let tokens = part_of(alloc, alignment, part)?;
    s.input.push_part_end(part)?;
    s.input.push_list(tokens, false)?;
    Ok(())
}

/// The entry's own text begins at once behind \omit, and else where its column's u-part ends. Its only error is want of memory.
fn enter(
    alloc: Global,
    s: &mut State,
    alignment: &Alignment,
    omitted: bool,
) -> Result<(), AllocError>
    ensures state { OnOk result (state_of s.new ≡ spec.entered_by omitted alignment.now (state_of s.old)) }
    ensures phase { OnOk result (s.new.phase ≡ s.old.phase) }
    ensures said { OnOk result (s.new.said ≡ s.old.said) }
{
    if omitted {
        s.input.set_level(0);
        return Ok(());
    }
    read_part(alloc, s, alignment, ColumnPart::U)
}

/// The row begins whose first entry this is, where one does.
fn lay(alloc: Global, s: &mut State, alignment: &mut Alignment) -> Result<(), AlignError>
    ensures laid { OnOk result (spec.laid_for (state_of s.old) alignment.old ≡ Ok (record { lists = s.new.lists; alignment = alignment.new })) }
    ensures error { IfErr result (λ e. e ≢ OutOfMemory → spec.laid_for (state_of s.old) alignment.old ≡ Err e) }
    ensures state { state_of s.new ≡ record (state_of s.old) { lists = s.new.lists } }
    ensures phase { s.new.phase ≡ s.old.phase }
    ensures said { s.new.said ≡ s.old.said }
{
    if s.scan.is_row() {
        return begin_row(alloc, &mut s.lists, alignment);
    }
    Ok(())
}

/// The first token of an entry: whether it is \omit. Err is want of memory; the event may end the run by an error, as `beginning`
/// says.
pub fn begin_entry(alloc: Global, s: &mut State, omitted: bool) -> Result<Event, AllocError>
    requires { s.old.phase ≡ Phase.Running }
    ensures { IfOk result (λ event. IsStepped (spec.beginning (state_of s.old) omitted) s.old event s.new) }
{
    let Some(alignment) = s.alignments.pop() else {
        return Ok(fail(s, TexError::MisplacedAlignment));
    };
    begin_in(alloc, s, alignment, omitted)
}

/// The same in this alignment, which is the innermost one again. Err is want of memory.
fn begin_in(
    alloc: Global,
    s: &mut State,
    alignment: Alignment,
    omitted: bool,
) -> Result<Event, AllocError>
    requires { s.old.phase ≡ Phase.Running }
    ensures { IfOk result (λ event. IsStepped (spec.begun_in (state_of s.old) omitted s.old.alignments (spec.laid_for (state_of s.old) alignment)) s.old event s.new) }
{
    let mut alignment = alignment;
    if let Err(error) = lay(alloc, s, &mut alignment) {
        return fail_by_alignment(s, error);
    }
    tx_tabular::begin_entry(&mut alignment, omitted);
    stand(s, Head::Fresh);
    enter(alloc, s, &alignment, omitted)?;
    put_innermost(s, alignment)?;
    Ok(Event::Went)
}

/// A word ends an entry: what its column has behind it is read in its place. Err is want of memory; the event may end the run by an
/// error, as `ending` says.
pub fn end_entry(alloc: Global, s: &mut State, word: EntryEnd) -> Result<Event, AllocError>
    requires { s.old.phase ≡ Phase.Running }
    ensures { IfOk result (λ event. IsStepped (spec.ending (state_of s.old) word) s.old event s.new) }
{
    let Some(alignment) = s.alignments.pop() else {
        return Ok(fail(s, TexError::MisplacedAlignment));
    };
    let mut alignment = alignment;
    alignment.ending = Some(word);
    read_part(alloc, s, &alignment, ColumnPart::V)?;
    s.input.set_level(OUTSIDE);
    put_innermost(s, alignment)?;
    Ok(Event::Went)
}

/// The next entry is to come, in this alignment. Err is want of memory.
fn await_entry(s: &mut State, alignment: Alignment) -> Result<Event, AllocError>
    requires { s.old.phase ≡ Phase.Running }
    ensures { IfOk result (λ event. IsStepped (spec.awaiting (state_of s.old) alignment s.old.alignments) s.old event s.new) }
{
    put_innermost(s, alignment)?;
    stand(s, Head::Entry);
    s.input.set_level(OUTSIDE);
    Ok(Event::Went)
}

/// A row ends, whose entries are whole. Err is want of memory.
fn end_row(alloc: Global, s: &mut State, alignment: Alignment) -> Result<Event, AllocError>
    requires { s.old.phase ≡ Phase.Running }
    ensures { IfOk result (λ event. IsStepped (spec.row_ending (state_of s.old) alignment s.old.alignments) s.old event s.new) }
{
    let mut alignment = alignment;
    let params = leading_of(&s.table);
    if let Err(error) = tx_tabular::end_row(alloc, &mut s.lists, &params, &mut alignment) {
        return fail_by_alignment(s, error);
    }
    put_innermost(s, alignment)?;
    read_everycr(s)?;
    stand_before_row(s);
    Ok(Event::Went)
}

/// The next column's entry is to come. Err is want of memory.
fn advance(alloc: Global, s: &mut State, alignment: Alignment) -> Result<Event, AllocError>
    requires { s.old.phase ≡ Phase.Running }
    ensures { IfOk result (λ event. IsStepped (spec.advanced (state_of s.old) alignment s.old.alignments) s.old event s.new) }
{
    let mut alignment = alignment;
    begin_entry_list(alloc, &mut s.lists)?;
    next_column(&mut alignment)?;
    await_entry(s, alignment)
}

/// The list of an entry ends, which this ended, in a group of its own. Err is want of memory.
fn end_cell(
    alloc: Global,
    s: &mut State,
    alignment: Alignment,
    word: EntryEnd,
) -> Result<Event, AllocError>
    requires { s.old.phase ≡ Phase.Running }
    ensures { IfOk result (λ event. IsStepped (spec.in_group (state_of s.old) word alignment s.old.alignments) s.old event s.new) }
{
    let mut alignment = alignment;
    if let Err(error) = tx_tabular::end_entry(alloc, &mut s.lists, &mut alignment) {
        return fail_by_alignment(s, error);
    }
    match word {
        EntryEnd::Tab | EntryEnd::Span => advance(alloc, s, alignment),
        EntryEnd::Cr | EntryEnd::CrCr => end_row(alloc, s, alignment),
    }
}

/// The group of an entry ends and that of the next one begins; the answer is whether it could be opened. Its only error is want of
/// memory.
fn reopen(s: &mut State) -> Result<bool, AllocError>
    requires { kind_of s.old.table ≡ Some GroupKind.Entry }
    ensures opened { IfOk result (λ opened. IsOpened GroupKind.Entry (closing (state_of s.old)) opened (state_of s.new)) }
    ensures phase { OnOk result (s.new.phase ≡ s.old.phase) }
    ensures said { OnOk result (s.new.said ≡ s.old.said) }
{
    leave_group(s, GroupKind::Entry)?;
    open_group(s, GroupKind::Entry)
}

/// The group of an entry ends, that of the next one begins, and in it the entry's list ends. Err is want of memory.
fn regroup(
    alloc: Global,
    s: &mut State,
    alignment: Alignment,
    word: EntryEnd,
) -> Result<Event, AllocError>
    requires running { s.old.phase ≡ Phase.Running }
    requires kind { kind_of s.old.table ≡ Some GroupKind.Entry }
    ensures { IfOk result (λ event. IsStepped (spec.regrouped (state_of s.old) word alignment s.old.alignments) s.old event s.new) }
{
    if !reopen(s)? {
        return Ok(fail(s, TexError::TooManyGroups));
    }
    end_cell(alloc, s, alignment, word)
}

/// What is to come behind the v-part of an entry of this alignment. Err is want of memory.
fn end_in(alloc: Global, s: &mut State, alignment: Alignment) -> Result<Event, AllocError>
    requires running { s.old.phase ≡ Phase.Running }
    requires kind { kind_of s.old.table ≡ Some GroupKind.Entry }
    ensures { IfOk result (λ event. IsStepped (spec.over_by (state_of s.old) alignment s.old.alignments (tabular.ending_of alignment)) s.old event s.new) }
{
    match ending_of(&alignment) {
        Err(error) => fail_by_alignment(s, error),
        Ok(EntryEnd::Span) => {
            let mut alignment = alignment;
            join_columns(&mut alignment)?;
            await_entry(s, alignment)
        }
        Ok(word) => regroup(alloc, s, alignment, word),
    }
}

/// The v-part of an entry is read to its end, and nothing goes on behind it. Err is want of memory; the event may end the run by an
/// error, as `over` says.
pub fn end_part(alloc: Global, s: &mut State) -> Result<Event, AllocError>
    requires { s.old.phase ≡ Phase.Running }
    ensures { IfOk result (λ event. IsStepped (spec.over (state_of s.old)) s.old event s.new) }
{
    match s.table.kind() {
        Some(GroupKind::Entry) => end_innermost(alloc, s),
        _ => Ok(fail(s, TexError::ExtraGroupEnd)),
    }
}

/// The same in the group of an entry. Err is want of memory.
fn end_innermost(alloc: Global, s: &mut State) -> Result<Event, AllocError>
    requires running { s.old.phase ≡ Phase.Running }
    requires kind { kind_of s.old.table ≡ Some GroupKind.Entry }
    ensures { IfOk result (λ event. IsStepped (spec.over_in (state_of s.old) s.old.alignments) s.old event s.new) }
{
    let Some(alignment) = s.alignments.pop() else {
        return Ok(fail(s, TexError::MisplacedAlignment));
    };
    end_in(alloc, s, alignment)
}
