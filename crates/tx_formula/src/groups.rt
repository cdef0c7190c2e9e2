//! Groups of formulas begin and end (TeX: The Program, sections 1136, 1153, 1172 to 1174, and 1186).
ghost use Rattle.std.specs.Prelude.{◌≡◌, [], Some, IfOk, OnOk};
ghost use Rattle.tx_box.specs.FormulaLists.{with_formula};
ghost use Rattle.tx_command.specs.Commands.{part_before};
ghost use Rattle.tx_eqtb.specs.Stack.{kind_of};
ghost use Rattle.tx_formula.specs.Groups as spec;
ghost use Rattle.tx_state.specs.declared.parts.Phase.{Phase};
ghost use Rattle.tx_state.specs.Meanings.{IsStepped, state_of};
ghost use Rattle.tx_state.specs.Outcomes.{leaves};

use crate::error::fail_by_formula;
use crate::kinds::place_of;
use crate::lists::{end_group_list, end_inner_list};
use crate::noads::choose;
use std::alloc::{AllocError, Global};
use tx_box::{Lists, append_noad, begin_formula};
use tx_command::{CommandScan, Head};
use tx_eqtb::GroupKind;
use tx_event::Event;
use tx_mlist::{AtomKind, InnerList, bare};
use tx_prim::{AtomPart, MathStyle, Mode};
use tx_shape::Opener;
use tx_state::{State, leave_group, open};

/// A formula begins in the list that is being built, behind nothing. Its only error is want of memory.
pub(crate) fn begin(
    alloc: Global,
    lists: &mut Lists,
    scan: &mut CommandScan,
) -> Result<(), AllocError>
    ensures lists { OnOk result (lists.new ≡ with_formula lists.old) }
    ensures scan { OnOk result (scan.new ≡ record { mode = Mode.Math; head = Head.Fresh; taken = [] }) }
{
    begin_formula(alloc, lists)?;
    scan.begin_fresh();
    scan.enter(Mode::Math);
    Ok(())
}

/// The same in a group of this kind. `TooManyGroups` exactly where 255 are open. Err is want of memory; the event may end the run
/// by an error, as `opening_formula` says.
pub fn open_formula(alloc: Global, s: &mut State, kind: GroupKind) -> Result<Event, AllocError>
    requires { s.old.phase ≡ Phase.Running }
    ensures { IfOk result (λ event. IsStepped (spec.opening_formula (state_of s.old) kind) s.old event s.new) }
{
    begin(alloc, &mut s.lists, &mut s.scan)?;
    open(s, kind)
}

/// A begin-group token: the list is the part that is awaited, or else the nucleus of an Ord. Err is want of memory; the event may
/// end the run by an error, as `grouping` says.
pub fn begin_group(alloc: Global, s: &mut State) -> Result<Event, AllocError>
    requires running { s.old.phase ≡ Phase.Running }
    requires between { s.old.scan.taken ≡ [] }
    ensures { IfOk result (λ event. IsStepped (spec.grouping (state_of s.old) (part_before s.old.scan.head)) s.old event s.new) }
{
    match s.scan.part() {
        Some(part) => open_formula(alloc, s, GroupKind::MathPart(part)),
        None => {
            let atom = bare(alloc, AtomKind::Ord)?;
            append_noad(alloc, &mut s.lists, atom)?;
            open_formula(alloc, s, GroupKind::MathPart(AtomPart::Nucleus))
        }
    }
}

/// The group of a list, of this kind, ends behind its list, and the list around it goes on. Its only error is want of memory.
pub(crate) fn go_on(s: &mut State, kind: GroupKind) -> Result<(), AllocError>
    requires { kind_of s.old.table ≡ Some kind }
    ensures state { OnOk result (state_of s.new ≡ spec.behind_formula (state_of s.old) s.old.lists) }
    ensures phase { OnOk result (s.new.phase ≡ s.old.phase) }
    ensures said { OnOk result (s.new.said ≡ s.old.said) }
{
    leave_group(s, kind)?;
    s.scan.enter(s.lists.nest.innermost().mode());
    Ok(())
}

/// The end of a group that gives a part of an atom. Err is want of memory; the event may end the run by an error, as `ending_part`
/// says.
pub fn end_part(alloc: Global, s: &mut State, part: AtomPart) -> Result<Event, AllocError>
    requires running { s.old.phase ≡ Phase.Running }
    requires kind { kind_of s.old.table ≡ Some (GroupKind.MathPart part) }
    ensures { IfOk result (λ event. IsStepped (spec.ending_part (state_of s.old) part) s.old event s.new) }
{
    match end_group_list(alloc, &mut s.lists, place_of(part)) {
        Ok(()) => {
            go_on(s, GroupKind::MathPart(part))?;
            Ok(Event::Went)
        }
        Err(error) => fail_by_formula(s, error),
    }
}

/// What stands before the command behind a list of \mathchoice.
fn head_behind(style: MathStyle) -> Head
    ensures { result ≡ spec.head_behind style }
{
    match style {
        MathStyle::Display => Head::Opening(Opener::Choice(MathStyle::Text)),
        MathStyle::Text => Head::Opening(Opener::Choice(MathStyle::Script)),
        MathStyle::Script => Head::Opening(Opener::Choice(MathStyle::ScriptScript)),
        MathStyle::ScriptScript => Head::Fresh,
    }
}

/// A list stands for its style in the choice, behind which the next one is to follow. Err is want of memory.
fn give_choice(s: &mut State, style: MathStyle, list: InnerList) -> Result<Event, AllocError>
    requires running { s.old.phase ≡ Phase.Running }
    requires kind { kind_of s.old.table ≡ Some (GroupKind.MathChoice style) }
    ensures { IfOk result (λ event. IsStepped (leaves (spec.with_choice (state_of s.old) style list s.old.lists)) s.old event s.new) }
{
    choose(&mut s.lists.formulas, style, list)?;
    go_on(s, GroupKind::MathChoice(style))?;
    s.scan.begin_behind(head_behind(style));
    Ok(Event::Went)
}

/// The end of a list of \mathchoice. Err is want of memory; the event may end the run by an error, as `ending_choice` says.
pub fn end_choice(alloc: Global, s: &mut State, style: MathStyle) -> Result<Event, AllocError>
    requires running { s.old.phase ≡ Phase.Running }
    requires kind { kind_of s.old.table ≡ Some (GroupKind.MathChoice style) }
    ensures { IfOk result (λ event. IsStepped (spec.ending_choice (state_of s.old) style) s.old event s.new) }
{
    match end_inner_list(alloc, &mut s.lists) {
        Ok(list) => give_choice(s, style, list),
        Err(error) => fail_by_formula(s, error),
    }
}
