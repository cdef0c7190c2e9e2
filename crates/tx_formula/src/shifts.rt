//! Formulas in a text begin and end (TeX: The Program, sections 1138, 1139, and 1193 to 1196).
ghost use Rattle.std.specs.Prelude.{◌≡◌, ◌≢◌, [], Some, Ok, Err, IfOk, IfErr, OnOk};
ghost use Rattle.tx_box.specs.FormulaLists.{with_formula};
ghost use Rattle.tx_eqtb.specs.Stack.{kind_of};
ghost use Rattle.tx_eqtb.specs.Table.{tokens_at};
ghost use Rattle.tx_formula.specs.declared.error.FormulaError.TheVariants as formula;
ghost use Rattle.tx_formula.specs.Errors.{error_of};
ghost use Rattle.tx_formula.specs.Shifts as spec;
ghost use Rattle.tx_math.specs.declared.error.MathError.TheVariants as math;
ghost use Rattle.tx_node.specs.Nodes.{item_of};
ghost use Rattle.tx_pending.specs.Elements.{with_tokens};
ghost use Rattle.tx_state.specs.declared.parts.Phase.{Phase};
ghost use Rattle.tx_state.specs.Meanings.{IsStepped, state_of};

use crate::error::{FormulaError, fail_by_formula};
use crate::groups::{begin, go_on};
use crate::lists::end_list;
use crate::params::math_params;
use std::alloc::{AllocError, Global};
use tx_box::Lists;
use tx_command::{CommandScan, Head};
use tx_eqtb::{Entry, Eqtb, GroupKind};
use tx_event::Event;
use tx_math::{Formula, MathError, to_hlist};
use tx_mlist::Mlist;
use tx_nest::{ModeState, SpaceFactor, append_item, append_items, set_space_factor};
use tx_node::{KernKind, Node, Nodes, Plain};
use tx_num::Range;
use tx_pending::Pending;
use tx_prim::{DimensionParameter, IntegerParameter, Mode, TokenParameter};
use tx_seen::{Place, TexError};
use tx_state::{State, fail, open_group};
use tx_tfm::Fonts;

/// A formula begins in its group, in which \fam is no family, and what \everymath has is read first. Its only error is want of
/// memory.
fn begin_inside(
    alloc: Global,
    table: &mut Eqtb,
    input: &mut Pending,
    lists: &mut Lists,
    scan: &mut CommandScan,
) -> Result<(), AllocError>
    ensures table { OnOk result (table.new ≡ spec.no_family table.old) }
    ensures input { OnOk result (input.new ≡ with_tokens input.old (tokens_at table.old.table (Place.Tokens TokenParameter.Everymath))) }
    ensures lists { OnOk result (lists.new ≡ with_formula lists.old) }
    ensures scan { OnOk result (scan.new ≡ record { mode = Mode.Math; head = Head.Fresh; taken = [] }) }
{
    let every = table.tokens(&Place::Tokens(TokenParameter::Everymath))?;
    input.push_list(every, false)?;
    table.assign(Place::Integer(IntegerParameter::Fam), Entry::Number(-1))?;
    begin(alloc, lists, scan)
}

/// A formula of a text, or that of an equation's number, begins in a group of its own, of this kind. `TooManyGroups` exactly where 255
/// are open. Err is want of memory; the event may end the run by an error, as `beginning_in` says.
pub fn begin_text(alloc: Global, s: &mut State, kind: GroupKind) -> Result<Event, AllocError>
    requires { s.old.phase ≡ Phase.Running }
    ensures { IfOk result (λ event. IsStepped (spec.beginning_in (state_of s.old) kind) s.old event s.new) }
{
    if open_group(s, kind)? {
        begin_inside(alloc, &mut s.table, &mut s.input, &mut s.lists, &mut s.scan)?;
        Ok(Event::Went)
    } else {
        Ok(fail(s, TexError::TooManyGroups))
    }
}

/// Whether a list is that of a paragraph.
fn is_paragraph(state: ModeState) -> bool
    ensures { result ≡ spec.is_paragraph state }
{
    match state {
        ModeState::Horizontal(_) => true,
        ModeState::Vertical(_) | ModeState::InternalVertical(_) => false,
        ModeState::RestrictedHorizontal(_) | ModeState::Math | ModeState::DisplayMath => false,
    }
}

/// A list in a style, as `tx_math` numbers them, in which lines may be broken or not, if \overfullrule is a dimension.
pub(crate) fn set_in_style(
    alloc: Global,
    fonts: &Fonts,
    table: &Eqtb,
    style: u8,
    breaks: bool,
    list: &Mlist,
) -> Result<Formula, MathError>
    ensures made { IfOk result (λ made. spec.set_in_style fonts.now table.now.table style breaks list.now ≡ Ok made) }
    ensures error { IfErr result (λ e. e ≢ math.OutOfMemory → spec.set_in_style fonts.now table.now.table style breaks list.now ≡ Err e) }
{
    let params = math_params(table);
    if Range::Dimen.holds(params.packing.overfull_rule) {
        to_hlist(alloc, list, style, breaks, fonts, &params)
    } else {
        Err(MathError::SizeOutOfRange)
    }
}

/// The innermost formula, which ends, in text style.
pub(crate) fn end_text_list(
    alloc: Global,
    fonts: &Fonts,
    table: &Eqtb,
    lists: &mut Lists,
) -> Result<Formula, FormulaError>
    ensures made { IfOk result (λ made. spec.ended_text fonts.now table.now.table lists.old ≡ Ok (made, lists.new)) }
    ensures error { IfErr result (λ e. e ≢ formula.OutOfMemory → spec.ended_text fonts.now table.now.table lists.old ≡ Err (error_of e)) }
{
    let list = end_list(alloc, lists)?;
    let breaks = is_paragraph(lists.nest.innermost().state);
    let made = set_in_style(alloc, fonts, table, 2, breaks, &list)?;
    Ok(made)
}

/// An end of a formula, so many sp wide.
fn edge(kind: KernKind, surround: i32) -> Node
    ensures { item_of result ≡ spec.edge kind surround }
{
    Node::Plain(Plain::Kern(kind, surround))
}

/// Nodes stand in the list between the ends of a formula, and the space factor is 1000 behind them. Its only error is want of
/// memory.
fn append_text(lists: &mut Lists, surround: i32, nodes: Nodes) -> Result<(), AllocError>
    ensures { OnOk result (lists.new ≡ spec.with_text lists.old surround nodes) }
{
    append_item(lists.nest.top(), edge(KernKind::MathOn, surround))?;
    append_items(lists.nest.top(), nodes)?;
    append_item(lists.nest.top(), edge(KernKind::MathOff, surround))?;
    set_space_factor(lists.nest.top(), SpaceFactor::plain());
    Ok(())
}

/// A formula that is set stands in the list, with what is told of it, and its group ends. Err is want of memory.
fn put_text(s: &mut State, made: Formula) -> Result<Event, AllocError>
    requires running { s.old.phase ≡ Phase.Running }
    requires kind { kind_of s.old.table ≡ Some GroupKind.MathShift }
    ensures { IfOk result (λ event. IsStepped (spec.text_put (state_of s.old) made s.old.lists) s.old event s.new) }
{
    let surround = s
        .table
        .number(&Place::Dimension(DimensionParameter::Mathsurround));
    let Formula { nodes, report } = made;
    s.said.append(report.as_slice())?;
    append_text(&mut s.lists, surround, nodes)?;
    go_on(s, GroupKind::MathShift)?;
    Ok(Event::Went)
}

/// The end of a formula in a text. Err is want of memory.
fn end_text(alloc: Global, s: &mut State) -> Result<Event, AllocError>
    requires running { s.old.phase ≡ Phase.Running }
    requires kind { kind_of s.old.table ≡ Some GroupKind.MathShift }
    ensures { IfOk result (λ event. IsStepped (spec.ending_text (state_of s.old)) s.old event s.new) }
{
    match end_text_list(alloc, s.words.fonts(), &s.table, &mut s.lists) {
        Ok(made) => put_text(s, made),
        Err(error) => fail_by_formula(s, error),
    }
}

/// A `$` in a formula, which ends it, or begins the end of a display. `ExtraGroupEnd` exactly where another group is the innermost
/// one. Err is want of memory.
fn end_shift(alloc: Global, s: &mut State) -> Result<Event, AllocError>
    requires running { s.old.phase ≡ Phase.Running }
    requires between { s.old.scan.taken ≡ [] }
    ensures { IfOk result (λ event. IsStepped (spec.ending_by (state_of s.old) (kind_of s.old.table)) s.old event s.new) }
{
    match s.table.kind() {
        Some(GroupKind::MathShift) => end_text(alloc, s),
        Some(GroupKind::Display | GroupKind::EquationNumber(_)) => {
            s.scan.begin_behind(Head::SecondShift);
            Ok(Event::Went)
        }
        _ => Ok(fail(s, TexError::ExtraGroupEnd)),
    }
}

/// A `$`: in a formula it ends it, and in another list a formula begins behind it. Err is want of memory; the event may end the run
/// by an error, as `shifting` says.
pub fn shift(alloc: Global, s: &mut State) -> Result<Event, AllocError>
    requires running { s.old.phase ≡ Phase.Running }
    requires between { s.old.scan.taken ≡ [] }
    ensures { IfOk result (λ event. IsStepped (spec.shifting (state_of s.old)) s.old event s.new) }
{
    match s.scan.mode() {
        Mode::Math | Mode::DisplayMath => end_shift(alloc, s),
        _ => {
            s.scan.begin_behind(Head::Shift);
            Ok(Event::Went)
        }
    }
}
