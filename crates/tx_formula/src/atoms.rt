//! Atoms, scripts, limits, choices and fractions begin (TeX: The Program, sections 1156 to 1184).
ghost use Rattle.std.specs.Prelude.{◌≡◌, ◌≢◌, [], Ok, Err, IfOk, IfErr, OnOk};
ghost use Rattle.tx_box.specs.Formulas.{with_noad};
ghost use Rattle.tx_formula.specs.Atoms as spec;
ghost use Rattle.tx_formula.specs.declared.error.FormulaError.TheVariants.{OutOfMemory};
ghost use Rattle.tx_formula.specs.Errors.{error_of};
ghost use Rattle.tx_mlist.specs.Building as building;
ghost use Rattle.tx_state.specs.declared.parts.Phase.{Phase};
ghost use Rattle.tx_state.specs.Meanings.{IsStepped, state_of};

use crate::error::{FormulaError, fail_by_formula};
use crate::kinds::{kind_from, limits_of, place_of};
use crate::noads::{limit, prepare_script};
use std::alloc::{AllocError, Global};
use tx_box::{Lists, OpenFormula, append_noad, settle};
use tx_command::{CommandScan, Head};
use tx_event::Event;
use tx_list::Stack;
use tx_mlist::{Above, AtomKind, FractionHead, Mlist, bare, no_choice};
use tx_prim::{AtomClass, AtomPart, LimitsKind, MathStyle};
use tx_seen::TexError;
use tx_shape::Opener;
use tx_state::{State, fail};

/// An atom of this kind, whose nucleus is to follow. Its only error is want of memory.
pub(crate) fn begin_of_kind(
    alloc: Global,
    lists: &mut Lists,
    scan: &mut CommandScan,
    kind: AtomKind,
) -> Result<(), AllocError>
    ensures lists { OnOk result (lists.new ≡ with_noad (building.bare kind) lists.old) }
    ensures scan { OnOk result (scan.new ≡ record { mode = scan.old.mode; head = Head.Part AtomPart.Nucleus; taken = [] }) }
{
    let atom = bare(alloc, kind)?;
    append_noad(alloc, lists, atom)?;
    scan.begin_behind(Head::Part(AtomPart::Nucleus));
    Ok(())
}

/// \mathord or its kin: an atom, whose nucleus is to follow. Its only error is want of memory.
pub fn begin_atom(
    alloc: Global,
    lists: &mut Lists,
    scan: &mut CommandScan,
    class: AtomClass,
) -> Result<Event, AllocError>
    requires { scan.old.taken ≡ [] }
    ensures { (s : State) → s.phase ≡ Phase.Running → IfOk result (λ event. IsStepped (spec.beginning_atom (state_of (record s { lists = lists.old; scan = scan.old })) class) (record s { lists = lists.old; scan = scan.old }) event (record s { lists = lists.new; scan = scan.new })) }
{
    begin_of_kind(alloc, lists, scan, kind_from(class))?;
    Ok(Event::Went)
}

/// `^` or `_`: a script is to follow. `BadFormula` exactly where the atom before has one there. Err is want of memory; the event
/// may end the run by an error, as `scripting` says.
pub fn begin_script(alloc: Global, s: &mut State, part: AtomPart) -> Result<Event, AllocError>
    requires running { s.old.phase ≡ Phase.Running }
    requires between { s.old.scan.taken ≡ [] }
    ensures { IfOk result (λ event. IsStepped (spec.scripting (state_of s.old) part) s.old event s.new) }
{
    settle(alloc, &mut s.lists)?;
    if prepare_script(alloc, &mut s.lists.formulas, place_of(part))? {
        return Ok(fail(s, TexError::BadFormula));
    }
    s.scan.begin_behind(Head::Part(part));
    Ok(Event::Went)
}

/// \limits or its kin. `BadFormula` exactly where no large operator stands before it. Err is want of memory; the event may end the
/// run by an error, as `limiting` says.
pub fn set_limits(alloc: Global, s: &mut State, kind: LimitsKind) -> Result<Event, AllocError>
    requires running { s.old.phase ≡ Phase.Running }
    ensures { IfOk result (λ event. IsStepped (spec.limiting (state_of s.old) kind) s.old event s.new) }
{
    settle(alloc, &mut s.lists)?;
    if limit(&mut s.lists.formulas, limits_of(kind))? {
        Ok(Event::Went)
    } else {
        Ok(fail(s, TexError::BadFormula))
    }
}

/// \mathchoice, whose lists are to follow. Err is want of memory.
pub fn begin_choice(alloc: Global, s: &mut State) -> Result<Event, AllocError>
    requires running { s.old.phase ≡ Phase.Running }
    requires between { s.old.scan.taken ≡ [] }
    ensures { IfOk result (λ event. IsStepped (spec.beginning_choice (state_of s.old)) s.old event s.new) }
{
    let choice = no_choice(alloc)?;
    append_noad(alloc, &mut s.lists, choice)?;
    s.scan
        .begin_behind(Head::Opening(Opener::Choice(MathStyle::Display)));
    Ok(Event::Went)
}

/// What a formula becomes by \over or its kin.
fn divided(
    alloc: Global,
    formula: OpenFormula,
    head: FractionHead,
) -> Result<OpenFormula, FormulaError>
    ensures made { IfOk result (λ made. spec.divided head formula ≡ Ok made) }
    ensures error { IfErr result (λ e. e ≢ OutOfMemory → spec.divided head formula ≡ Err (error_of e)) }
{
    let OpenFormula { noads, above } = formula;
    match above {
        Some(_) => Err(FormulaError::Refused(TexError::BadFormula)),
        None => {
            let numerator = noads.into_inner()?;
            Ok(OpenFormula {
                noads: Mlist::new(alloc),
                above: Some(Above { head, numerator }),
            })
        }
    }
}

/// The same of the innermost formula.
fn divide_first(
    alloc: Global,
    formulas: &mut Stack<OpenFormula>,
    head: FractionHead,
) -> Result<(), FormulaError>
    ensures made { OnOk result (spec.first_divided head formulas.old ≡ Ok formulas.new) }
    ensures error { IfErr result (λ e. e ≢ OutOfMemory → spec.first_divided head formulas.old ≡ Err (error_of e)) }
{
    match formulas.pop() {
        Some(formula) => {
            let formula = divided(alloc, formula, head)?;
            formulas.push(formula)?;
            Ok(())
        }
        None => Err(FormulaError::Refused(TexError::BadFormula)),
    }
}

/// \over or its kin: all that the formula has stands above the line of a fraction that is this beside its lists. `BadFormula` where
/// a line came already. Err is want of memory; the event may end the run by an error, as `dividing` says.
pub fn divide(alloc: Global, s: &mut State, head: FractionHead) -> Result<Event, AllocError>
    requires { s.old.phase ≡ Phase.Running }
    ensures { IfOk result (λ event. IsStepped (spec.dividing (state_of s.old) head) s.old event s.new) }
{
    settle(alloc, &mut s.lists)?;
    match divide_first(alloc, &mut s.lists.formulas, head) {
        Ok(()) => Ok(Event::Went),
        Err(error) => fail_by_formula(s, error),
    }
}
