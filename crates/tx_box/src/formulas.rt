//! The noads of the formula that is being built (TeX: The Program, sections 1076 and 1093).
ghost use Rattle.std.specs.Prelude.{◌≡◌, ◌∷◌, ◌++◌, [], map, IfOk, OnOk};
ghost use Rattle.tx_mlist.specs.Items.{material};
ghost use Rattle.tx_mlist.specs.Noads.{math_of};
ghost use Rattle.tx_box.specs.Formulas as spec;

use crate::parts::{Lists, OpenFormula};
use std::alloc::{AllocError, Global};
use std::mem::replace;
use tx_list::Stack;
use tx_mlist::{Atom, AtomKind, Field, Mlist, Noad};
use tx_node::{BoxNode, Nodes};

/// Puts nodes behind noads. Its only error is want of memory.
fn append_nodes(noads: &mut Mlist, nodes: Nodes) -> Result<(), AllocError>
    ensures { OnOk result (noads.new ≡ noads.old ++ map material nodes) }
{
    for node in nodes.into_vec() {
        noads.push(Noad::Node(node))?;
    }
    Ok(())
}

/// A formula with nodes behind its noads. Its only error is want of memory.
pub fn with_nodes(formula: OpenFormula, nodes: Nodes) -> Result<OpenFormula, AllocError>
    ensures { IfOk result (λ more. more ≡ spec.with_more (map material nodes) formula) }
{
    let mut formula = formula;
    append_nodes(&mut formula.noads, nodes)?;
    Ok(formula)
}

/// A formula with one noad more. Its only error is want of memory.
fn with_noad(formula: OpenFormula, noad: Noad) -> Result<OpenFormula, AllocError>
    ensures { IfOk result (λ more. more ≡ spec.with_more (math_of noad ∷ []) formula) }
{
    let mut formula = formula;
    formula.noads.push(noad)?;
    Ok(formula)
}

/// Puts nodes behind the noads of the innermost formula, if there is one. After want of memory, its only error, the formulas may
/// only be dropped, here and in all that follows.
fn settle_nodes(formulas: &mut Stack<OpenFormula>, nodes: Nodes) -> Result<(), AllocError>
    ensures { OnOk result (formulas.new ≡ spec.with_first (spec.with_more (map material nodes)) formulas.old) }
{
    match formulas.pop() {
        Some(formula) => formulas.push(with_nodes(formula, nodes)?),
        None => Ok(()),
    }
}

/// Puts a noad behind those of the innermost formula, if there is one.
fn push_noad(formulas: &mut Stack<OpenFormula>, noad: Noad) -> Result<(), AllocError>
    ensures { OnOk result (formulas.new ≡ spec.with_first (spec.with_more (math_of noad ∷ [])) formulas.old) }
{
    match formulas.pop() {
        Some(formula) => formulas.push(with_noad(formula, noad)?),
        None => Ok(()),
    }
}

/// The nodes in the list of the innermost formula become noads.
pub fn settle(alloc: Global, lists: &mut Lists) -> Result<(), AllocError>
    ensures { OnOk result (lists.new ≡ spec.settled lists.old) }
{
    let nodes = replace(&mut lists.nest.top().nodes, Nodes::new(alloc));
    settle_nodes(&mut lists.formulas, nodes)
}

/// A noad stands behind all that the innermost formula has.
pub fn append_noad(alloc: Global, lists: &mut Lists, noad: Noad) -> Result<(), AllocError>
    ensures { OnOk result (lists.new ≡ spec.with_noad (math_of noad) lists.old) }
{
    settle(alloc, lists)?;
    push_noad(&mut lists.formulas, noad)
}

/// A box that is shifted down by so many sp is the nucleus of an atom behind all that.
pub fn append_atom(
    alloc: Global,
    lists: &mut Lists,
    kind: AtomKind,
    shift: i32,
    packed: BoxNode,
) -> Result<(), AllocError>
    ensures { OnOk result (lists.new ≡ spec.with_box kind shift packed lists.old) }
{
    let noad = Noad::from_atom(
        alloc,
        Atom {
            kind,
            nucleus: Field::Packed(shift, packed),
            superscript: Field::Empty,
            subscript: Field::Empty,
        },
    )?;
    append_noad(alloc, lists, noad)
}
