//! Noads join the formula that is being built, or change the last of it (TeX: The Program, sections 1150 to 1177).
ghost use Rattle.std.specs.Prelude.{◌≡◌, IfOk, OnOk};
ghost use Rattle.tx_box.specs.Formulas.{with_first};
ghost use Rattle.tx_formula.specs.Noads as spec;
ghost use Rattle.tx_mlist.specs.Building as building;
ghost use Rattle.tx_mlist.specs.Choices.{chosen};
ghost use Rattle.tx_mlist.specs.Noads.{math_of, part_of};
ghost use Rattle.tx_state.specs.declared.parts.Phase.{Phase};
ghost use Rattle.tx_state.specs.Meanings.{IsStepped, state_of};

use std::alloc::{AllocError, Global};
use tx_box::{OpenFormula, append_noad};
use tx_event::Event;
use tx_list::Stack;
use tx_mlist::{Field, InnerList, Limits, Noad, Place};
use tx_prim::MathStyle;
use tx_state::State;

/// A noad stands behind all that the formula has. Err is want of memory.
pub fn add_noad(alloc: Global, s: &mut State, noad: Noad) -> Result<Event, AllocError>
    requires { s.old.phase ≡ Phase.Running }
    ensures { IfOk result (λ event. IsStepped (spec.adding_noad (state_of s.old) (math_of noad)) s.old event s.new) }
{
    append_noad(alloc, &mut s.lists, noad)?;
    Ok(Event::Went)
}

/// A formula with a part at a place of its last noad. Its only error is want of memory.
fn filled(formula: OpenFormula, place: Place, part: Field) -> Result<OpenFormula, AllocError>
    ensures { IfOk result (λ more. more ≡ spec.with_noads (building.filled place (part_of part)) formula) }
{
    let mut formula = formula;
    formula.noads.fill(place, part)?;
    Ok(formula)
}

/// A part stands at a place of the last noad. After want of memory, its only error, the formulas may only be dropped, here and in
/// all that follows.
pub(crate) fn fill(
    formulas: &mut Stack<OpenFormula>,
    place: Place,
    part: Field,
) -> Result<(), AllocError>
    ensures { OnOk result (formulas.new ≡ with_first (spec.with_noads (building.filled place (part_of part))) formulas.old) }
{
    match formulas.pop() {
        Some(formula) => formulas.push(filled(formula, place, part)?),
        None => Ok(()),
    }
}

/// A formula with a list for a style in its last noad. Its only error is want of memory.
fn with_choice(
    formula: OpenFormula,
    style: MathStyle,
    list: InnerList,
) -> Result<OpenFormula, AllocError>
    ensures { IfOk result (λ more. more ≡ spec.with_noads (chosen style list) formula) }
{
    let mut formula = formula;
    formula.noads.choose(style, list)?;
    Ok(formula)
}

/// A list stands for a style in the last noad.
pub(crate) fn choose(
    formulas: &mut Stack<OpenFormula>,
    style: MathStyle,
    list: InnerList,
) -> Result<(), AllocError>
    ensures { OnOk result (formulas.new ≡ with_first (spec.with_noads (chosen style list)) formulas.old) }
{
    match formulas.pop() {
        Some(formula) => formulas.push(with_choice(formula, style, list)?),
        None => Ok(()),
    }
}

/// The last noad can have a script; the answer is whether it has one at this place already.
pub(crate) fn prepare_script(
    alloc: Global,
    formulas: &mut Stack<OpenFormula>,
    place: Place,
) -> Result<bool, AllocError>
    ensures formulas { OnOk result (formulas.new ≡ with_first (spec.with_noads building.for_script) formulas.old) }
    ensures second { IfOk result (λ second. second ≡ building.is_second place (spec.noads_of formulas.old)) }
{
    match formulas.pop() {
        Some(formula) => {
            let mut formula = formula;
            let second = formula.noads.begin_script(alloc, place)?;
            formulas.push(formula)?;
            Ok(second)
        }
        None => Ok(false),
    }
}

/// The limits of the last noad stand elsewhere; the answer is whether it is an operator.
pub(crate) fn limit(formulas: &mut Stack<OpenFormula>, limits: Limits) -> Result<bool, AllocError>
    ensures formulas { OnOk result (formulas.new ≡ with_first (spec.with_noads (building.limited limits)) formulas.old) }
    ensures found { IfOk result (λ found. found ≡ building.ends_with_operator (spec.noads_of formulas.old)) }
{
    match formulas.pop() {
        Some(formula) => {
            let mut formula = formula;
            let found = formula.noads.ends_with_operator();
            formula.noads.set_limits(limits)?;
            formulas.push(formula)?;
            Ok(found)
        }
        None => Ok(false),
    }
}
