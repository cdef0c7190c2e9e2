//! Formulas begin and end (TeX: The Program, sections 1136, 1145, 1184 and 1185).
ghost use Rattle.std.specs.Prelude.{◌≡◌, OnOk};
ghost use Rattle.tx_box.specs.FormulaLists as spec;

use crate::building::leave_list;
use crate::parts::{Lists, OpenFormula};
use std::alloc::{AllocError, Global};
use tx_mlist::Mlist;
use tx_nest::ModeList;
use tx_node::Nodes;
use tx_prim::Mode;

/// A formula begins in the list that is being built, as a list of this mode. Its only error is want of memory.
fn begin_in(alloc: Global, lists: &mut Lists, mode: Mode) -> Result<(), AllocError>
    ensures { OnOk result (lists.new ≡ spec.with_formula_in mode lists.old) }
{
    let list = ModeList::within(alloc, mode, lists.nest.innermost());
    lists.nest.push(list)?;
    lists.formulas.push(OpenFormula {
        noads: Mlist::new(alloc),
        above: None,
    })
}

/// A formula begins in the list that is being built. Its only error is want of memory.
pub fn begin_formula(alloc: Global, lists: &mut Lists) -> Result<(), AllocError>
    ensures { OnOk result (lists.new ≡ spec.with_formula lists.old) }
{
    begin_in(alloc, lists, Mode::Math)
}

/// A displayed formula does. Its only error is want of memory.
pub fn begin_display(alloc: Global, lists: &mut Lists) -> Result<(), AllocError>
    ensures { OnOk result (lists.new ≡ spec.with_display lists.old) }
{
    begin_in(alloc, lists, Mode::DisplayMath)
}

/// The innermost formula and the nodes in its list, which leave the lists; None where no formula is open or no list waits around
/// it, which no command makes.
pub fn end_formula(lists: &mut Lists) -> Option<(OpenFormula, Nodes)>
    ensures { spec.IsFormulaLeft (spec.left_formula lists.old) result lists.new }
{
    if lists.nest.is_outermost() {
        return None;
    }
    match lists.formulas.pop() {
        Some(formula) => Some((formula, leave_list(&mut lists.nest))),
        None => None,
    }
}
