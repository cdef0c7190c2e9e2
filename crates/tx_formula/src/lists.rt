//! What the lists of formulas come to when they end (TeX: The Program, sections 1184 and 1185).
ghost use Rattle.std.specs.Prelude.{◌≡◌, ◌≢◌, Ok, Err, map, IfOk, IfErr, OnOk};
ghost use Rattle.tx_box.specs.Formulas.{with_more};
ghost use Rattle.tx_formula.specs.declared.error.FormulaError.TheVariants.{OutOfMemory};
ghost use Rattle.tx_formula.specs.Errors.{error_of};
ghost use Rattle.tx_formula.specs.Lists as spec;
ghost use Rattle.tx_mlist.specs.Items.{material};

use crate::error::FormulaError;
use std::alloc::Global;
use tx_box::{Lists, OpenFormula, end_formula, with_nodes};
use tx_list::Stack;
use tx_mlist::{InnerList, Mlist, Place};
use tx_node::Nodes;
use tx_seen::TexError;

/// All of a formula, with the nodes behind its noads.
fn whole_list(alloc: Global, formula: OpenFormula, nodes: Nodes) -> Result<Mlist, FormulaError>
    ensures made { IfOk result (λ list. spec.whole_list (with_more (map material nodes) formula) ≡ Ok list) }
    ensures error { IfErr result (λ e. e ≢ OutOfMemory → spec.whole_list (with_more (map material nodes) formula) ≡ Err (error_of e)) }
{
    let OpenFormula { noads, above } = with_nodes(formula, nodes)?;
    let list = noads.finished(alloc, above)?;
    Ok(list)
}

/// The innermost formula, which ends. `ExtraGroupEnd` exactly where none is open, which no command makes.
pub(crate) fn end_list(alloc: Global, lists: &mut Lists) -> Result<Mlist, FormulaError>
    ensures made { IfOk result (λ list. spec.ended_list lists.old ≡ Ok (list, lists.new)) }
    ensures error { IfErr result (λ e. e ≢ OutOfMemory → spec.ended_list lists.old ≡ Err (error_of e)) }
{
    match end_formula(lists) {
        Some((formula, nodes)) => whole_list(alloc, formula, nodes),
        None => Err(FormulaError::Refused(TexError::ExtraGroupEnd)),
    }
}

/// A formula with what a group gives in it at a place of its last noad.
fn grouped(formula: OpenFormula, place: Place, group: Mlist) -> Result<OpenFormula, FormulaError>
    ensures made { IfOk result (λ made. spec.formula_grouped place group formula ≡ Ok made) }
    ensures error { IfErr result (λ e. e ≢ OutOfMemory → spec.formula_grouped place group formula ≡ Err (error_of e)) }
{
    let mut formula = formula;
    formula.noads.fill_group(place, group)?;
    Ok(formula)
}

/// The same of the innermost formula.
fn group_first(
    formulas: &mut Stack<OpenFormula>,
    place: Place,
    group: Mlist,
) -> Result<(), FormulaError>
    ensures made { OnOk result (spec.first_grouped place group formulas.old ≡ Ok formulas.new) }
    ensures error { IfErr result (λ e. e ≢ OutOfMemory → spec.first_grouped place group formulas.old ≡ Err (error_of e)) }
{
    match formulas.pop() {
        Some(formula) => {
            let formula = grouped(formula, place, group)?;
            formulas.push(formula)?;
            Ok(())
        }
        None => Ok(()),
    }
}

/// The innermost formula, which ends, gives what stands at a place of the last noad of the one around it.
pub(crate) fn end_group_list(
    alloc: Global,
    lists: &mut Lists,
    place: Place,
) -> Result<(), FormulaError>
    ensures made { OnOk result (spec.ended_group place lists.old ≡ Ok lists.new) }
    ensures error { IfErr result (λ e. e ≢ OutOfMemory → spec.ended_group place lists.old ≡ Err (error_of e)) }
{
    let group = end_list(alloc, lists)?;
    group_first(&mut lists.formulas, place, group)
}

/// The same, as a list of \mathchoice.
pub(crate) fn end_inner_list(alloc: Global, lists: &mut Lists) -> Result<InnerList, FormulaError>
    ensures made { IfOk result (λ list. spec.ended_inner lists.old ≡ Ok (list, lists.new)) }
    ensures error { IfErr result (λ e. e ≢ OutOfMemory → spec.ended_inner lists.old ≡ Err (error_of e)) }
{
    let list = end_list(alloc, lists)?;
    let list = list.into_inner()?;
    Ok(list)
}
