//! Contributions go to the page (TeX: The Program, sections 994 to 1000).
ghost use Rattle.std.specs.Prelude.{◌≡◌, ◌≢◌, ◌∷◌, [], List, Ok, Err, IfOk, IfErr};
ghost use Rattle.tx_node.specs.Items.{Item};
ghost use Rattle.tx_node.specs.Nodes.{item_of};
ghost use Rattle.tx_pagebuilder.specs.declared.measures.Built.TheVariants.{Went};
ghost use Rattle.tx_galley.specs.declared.errors.GalleyError.TheVariants.{OutOfMemory};
ghost use Rattle.tx_galley.specs.Contributing as spec;
ghost use Rattle.tx_galley.specs.Errors.{error_of};

use crate::errors::GalleyError;
use crate::params::node_params;
use std::alloc::Global;
use tx_eqtb::Eqtb;
use tx_node::{Node, Nodes};
use tx_num::fits;
use tx_output::{Pages, last_item};
use tx_pagebuilder::Built;
use tx_prim::DimensionParameter;
use tx_seen::TexError;

/// Whether \vsize and \maxdepth are dimensions.
fn may_build(table: &Eqtb) -> bool
    ensures { result ≡ spec.may_build table.now.table }
{
    fits(i64::from(table.dimension(DimensionParameter::Vsize)))
        && fits(i64::from(table.dimension(DimensionParameter::Maxdepth)))
}

/// One contribution.
fn contribute(
    alloc: Global,
    table: &Eqtb,
    pages: &mut Pages,
    node: Node,
) -> Result<Built, GalleyError>
    ensures ok { IfOk result (λ built. spec.contributing table.now.table pages.old (item_of node) ≡ Ok (spec.contributed pages.new built)) }
    ensures error { IfErr result (λ e. e ≢ OutOfMemory → spec.contributing table.now.table pages.old (item_of node) ≡ Err (error_of e)) }
{
    if !may_build(table) {
        return Err(GalleyError::Refused(TexError::SizeOutOfRange));
    }
    let params = node_params(alloc, table, &node);
    let last = last_item(&node);
    let built = pages.page.contribute(node, &params)?;
    pages.last = last;
    Ok(built)
}

/// The next node of a list is contributed, unless the page is to be fired: then it stands behind those that are left.
fn go_on(
    alloc: Global,
    table: &Eqtb,
    pages: &mut Pages,
    built: Built,
    node: Node,
    rest: &mut Nodes,
) -> Result<Built, GalleyError>
    requires { built ≡ Went → rest.old ≡ [] }
    ensures ok { (list : List Item) → IfOk result (λ now. spec.going_on table.now.table pages.old rest.old (item_of node ∷ list) built ≡ spec.going_on table.now.table pages.new rest.new list now) }
    ensures rest { IfOk result (λ now. now ≡ Went → rest.new ≡ []) }
    ensures error { (list : List Item) → IfErr result (λ e. e ≢ OutOfMemory → spec.going_on table.now.table pages.old rest.old (item_of node ∷ list) built ≡ Err (error_of e)) }
{
    match built {
        Built::Went => contribute(alloc, table, pages, node),
        Built::Fires => {
            rest.push(node)?;
            Ok(Built::Fires)
        }
    }
}

/// Contributes the nodes of a list in order, until the page is to be fired or none is left: those that are left stand in `rest`,
/// where none stood.
pub(crate) fn contribute_all(
    alloc: Global,
    table: &Eqtb,
    pages: &mut Pages,
    list: Nodes,
    rest: &mut Nodes,
) -> Result<Built, GalleyError>
    requires { rest.old ≡ [] }
    ensures ok { IfOk result (λ built. spec.contributing_all table.now.table pages.old list ≡ Ok (record { pages = pages.new; rest = rest.new; built = built })) }
    ensures rest { IfOk result (λ built. built ≡ Went → rest.new ≡ []) }
    ensures error { IfErr result (λ e. e ≢ OutOfMemory → spec.contributing_all table.now.table pages.old list ≡ Err (error_of e)) }
{
    let mut built = Built::Went;
    for node in list.into_vec() {
        built = go_on(alloc, table, pages, built, node, rest)?;
    }
    Ok(built)
}
