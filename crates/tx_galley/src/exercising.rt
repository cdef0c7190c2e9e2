//! The page builder is exercised: all contributions of the pages' list go to the page, until it fires (TeX: The Program, section
//! 994).
ghost use Rattle.std.specs.Prelude.{◌≡◌, ◌≢◌, [], Ok, Err, IfOk, IfErr, OnOk};
ghost use Rattle.tx_galley.specs.declared.errors.GalleyError.TheVariants.{OutOfMemory};
ghost use Rattle.tx_galley.specs.Contributing.{contributing_all};
ghost use Rattle.tx_galley.specs.Errors.{error_of};
ghost use Rattle.tx_galley.specs.Exercising as spec;
ghost use Rattle.tx_pagebuilder.specs.Fired.{waiting_items};
ghost use Rattle.tx_pagebuilder.specs.declared.measures.Built.TheVariants.{Went};

use crate::contributing::contribute_all;
use crate::errors::GalleyError;
use crate::firing::{Next, fire};
use std::alloc::{AllocError, Global};
use std::mem::replace;
use tx_eqtb::Eqtb;
use tx_nest::{ModeList, Nest};
use tx_node::{Node, Nodes, Plain};
use tx_output::Pages;
use tx_pagebuilder::{Built, Kern};

/// A kern that waits for what comes behind it stays on the list, where nothing is left. Its only error is want of memory.
fn keep_kern(pages: &mut Pages, left: &mut Nodes) -> Result<(), AllocError>
    requires { left.old ≡ [] }
    ensures list { OnOk result (left.new ≡ waiting_items pages.old.page.waiting) }
    ensures pages { OnOk result (pages.new ≡ spec.without_kern pages.old) }
{
    match pages.page.take_kern() {
        Some(Kern { kind, size }) => left.push(Node::Plain(Plain::Kern(kind, size))),
        None => Ok(()),
    }
}

/// The page is fired, or isn't, where these contributions are left.
fn fire_if(
    alloc: Global,
    table: &mut Eqtb,
    pages: &mut Pages,
    built: Built,
    left: &mut Nodes,
) -> Result<Next, GalleyError>
    requires { built ≡ Went → left.old ≡ [] }
    ensures ok { IfOk result (λ next. spec.built_by table.old (record { pages = pages.old; rest = left.old; built = built }) built ≡ Ok (record { next = next; list = left.new; table = table.new; pages = pages.new })) }
    ensures error { IfErr result (λ e. e ≢ OutOfMemory → spec.built_by table.old (record { pages = pages.old; rest = left.old; built = built }) built ≡ Err (error_of e)) }
{
    match built {
        Built::Went => {
            keep_kern(pages, left)?;
            Ok(Next::Goes)
        }
        Built::Fires => fire(alloc, table, pages, left),
    }
}

/// The contributions of a list go to the page, where no output is under way; those that are left stay.
fn build_page(
    alloc: Global,
    table: &mut Eqtb,
    pages: &mut Pages,
    list: &mut Nodes,
) -> Result<Next, GalleyError>
    ensures ok { IfOk result (λ next. spec.built table.old (contributing_all table.old.table pages.old list.old) ≡ Ok (record { next = next; list = list.new; table = table.new; pages = pages.new })) }
    ensures error { IfErr result (λ e. e ≢ OutOfMemory → spec.built table.old (contributing_all table.old.table pages.old list.old) ≡ Err (error_of e)) }
{
    let given = replace(list, Nodes::new(alloc));
    let built = contribute_all(alloc, table, pages, given, list)?;
    fire_if(alloc, table, pages, built, list)
}

/// The contributions of a list go to the page; what is left of them behind a page that fired stays.
fn build(
    alloc: Global,
    table: &mut Eqtb,
    pages: &mut Pages,
    list: &mut Nodes,
) -> Result<Next, GalleyError>
    ensures ok { IfOk result (λ next. spec.building list.old table.old pages.old ≡ Ok (record { next = next; list = list.new; table = table.new; pages = pages.new })) }
    ensures error { IfErr result (λ e. e ≢ OutOfMemory → spec.building list.old table.old pages.old ≡ Err (error_of e)) }
{
    if pages.output.is_active() {
        Ok(Next::Goes)
    } else {
        build_page(alloc, table, pages, list)
    }
}

/// The page builder is exercised on the list that is being built, which is the pages' list (TeX: The Program, section 994).
fn exercise_innermost(
    alloc: Global,
    nest: &mut Nest,
    table: &mut Eqtb,
    pages: &mut Pages,
) -> Result<Next, GalleyError>
    ensures ok { IfOk result (λ next. spec.exercising_innermost nest.old table.old pages.old ≡ Ok (record { next = next; nest = nest.new; table = table.new; pages = pages.new })) }
    ensures error { IfErr result (λ e. e ≢ OutOfMemory → spec.exercising_innermost nest.old table.old pages.old ≡ Err (error_of e)) }
{
    build(alloc, table, pages, &mut nest.top().nodes)
}

/// The page builder is exercised on the list around the one that is being built, which waits.
fn exercise_around(
    alloc: Global,
    nest: &mut Nest,
    table: &mut Eqtb,
    pages: &mut Pages,
    inner: ModeList,
) -> Result<Next, GalleyError>
    ensures ok { IfOk result (λ next. spec.within inner (spec.exercising_innermost nest.old table.old pages.old) ≡ Ok (record { next = next; nest = nest.new; table = table.new; pages = pages.new })) }
    ensures error { IfErr result (λ e. e ≢ OutOfMemory → spec.within inner (spec.exercising_innermost nest.old table.old pages.old) ≡ Err (error_of e)) }
{
    let next = exercise_innermost(alloc, nest, table, pages)?;
    nest.push(inner)?;
    Ok(next)
}

/// The page builder is exercised on the pages' list: the one that is being built, or the one around a paragraph. Lists, table and
/// pages may only be dropped behind an error.
///
/// The errors: those of contributions and of firing (`NumberOutOfRange`, `SizeOutOfRange`, `TooDeep`, `InfiniteShrink`,
/// `MissingBox`), then `OccupiedPageBox`, `SizeOutOfRange` and `TooDeep` of the page's box, and `TooManyDeadCycles`; and want of
/// memory.
pub fn exercise(
    alloc: Global,
    nest: &mut Nest,
    table: &mut Eqtb,
    pages: &mut Pages,
) -> Result<Next, GalleyError>
    ensures ok { IfOk result (λ next. spec.exercising nest.old table.old pages.old ≡ Ok (record { next = next; nest = nest.new; table = table.new; pages = pages.new })) }
    ensures error { IfErr result (λ e. e ≢ OutOfMemory → spec.exercising nest.old table.old pages.old ≡ Err (error_of e)) }
{
    if nest.is_outermost() {
        exercise_innermost(alloc, nest, table, pages)
    } else {
        let inner = nest.pop();
        exercise_around(alloc, nest, table, pages, inner)
    }
}
