//! A page is fired: its box, the boxes of insertions, the marks, and whether \output reads it (TeX: The Program, sections 1012 to
//! 1025).
ghost use Rattle.std.specs.Prelude.{◌≡◌, ◌≢◌, ◌<ℤ◌, Ok, Err, IfOk, IfErr, OnOk};
ghost use Rattle.tx_output.specs.declared.begun.Begun.TheVariants.{Read};
ghost use Rattle.tx_pack.specs.declared.types.Packed.{Packed};
ghost use Rattle.tx_galley.specs.declared.errors.GalleyError.TheVariants.{OutOfMemory};
ghost use Rattle.tx_eqtb.specs.Table.{tokens_at};
ghost use Rattle.tx_prim.specs.declared.tokens.TokenParameter.TheVariants.{Output};
ghost use Rattle.tx_seen.specs.declared.place.Place.TheVariants.{Tokens};
ghost use Rattle.tx_galley.specs.declared.firing.Next.TheVariants.{Ships};
ghost use Rattle.tx_galley.specs.Errors.{error_of};
ghost use Rattle.tx_galley.specs.Firing as spec;

use crate::errors::GalleyError;
use crate::params::fire_params;
use std::alloc::{AllocError, Global};
use std::mem::{replace, swap};
use tx_eqtb::{BoxContents, Entry, Eqtb};
use tx_node::{BoxNode, Nodes};
use tx_output::{Begun, LastItem, Pages};
use tx_pack::Packed;
use tx_pagebuilder::{BoxList, ClassBox, Fired};
use tx_prim::{IntegerParameter, TokenParameter};
use tx_seen::Place;
use tx_toklist::TokList;

/// What becomes of the box of a page that was fired.
#[derive(Drop)]
pub enum Next {
    /// Nothing: no page was fired.
    Goes,
    /// It is to be shipped, and then the page builder goes on. This is \badness behind it.
    Ships(BoxNode, i64),
    /// It stands in \box255, and these tokens of \output are to be read. This is \badness then.
    Reads(TokList, i64),
}

/// The box of a register is this one from now on, at the level at which the register was assigned. Its only error is want of
/// memory.
pub(crate) fn put_box(
    alloc: Global,
    table: &mut Eqtb,
    number: u8,
    node: BoxNode,
) -> Result<(), AllocError>
    ensures { OnOk result (table.new ≡ spec.with_box table.old number node) }
{
    let contents = BoxContents::new(alloc, Some(node))?;
    table.replace(Place::Box(number), Entry::Box(contents))
}

/// The box of a class stands in its register. Its only error is want of memory.
fn put_class_box(alloc: Global, table: &mut Eqtb, found: ClassBox) -> Result<(), AllocError>
    ensures { OnOk result (table.new ≡ spec.with_box table.old found.class found.node) }
{
    let ClassBox { class, node } = found;
    put_box(alloc, table, class, node)
}

/// The boxes of classes stand in their registers. Its only error is want of memory.
fn put_boxes(alloc: Global, table: &mut Eqtb, boxes: BoxList) -> Result<(), AllocError>
    ensures { OnOk result (table.new ≡ spec.with_boxes boxes table.old) }
{
    for found in boxes.into_vec() {
        put_class_box(alloc, table, found)?;
    }
    Ok(())
}

/// \outputpenalty is this one from now on, in all groups. Its only error is want of memory.
fn set_penalty(table: &mut Eqtb, penalty: i32) -> Result<(), AllocError>
    ensures { OnOk result (table.new ≡ spec.with_penalty penalty table.old) }
{
    table.assign_global(
        Place::Integer(IntegerParameter::Outputpenalty),
        Entry::Number(penalty),
    )
}

/// What the table is behind a page that was fired: the boxes of classes stand in it, and \outputpenalty. Its only error is want of
/// memory.
fn change_table(
    alloc: Global,
    table: &mut Eqtb,
    boxes: BoxList,
    penalty: i32,
) -> Result<(), AllocError>
    ensures { OnOk result (table.new ≡ spec.table_behind boxes penalty table.old) }
{
    put_boxes(alloc, table, boxes)?;
    set_penalty(table, penalty)
}

/// What firing a page gives. The page begins anew.
fn fired(alloc: Global, table: &Eqtb, pages: &mut Pages) -> Result<Fired, GalleyError>
    ensures ok { IfOk result (λ f. spec.page_fired table.now.table pages.old ≡ Ok f) }
    ensures pages { IfOk result (λ f. pages.new ≡ spec.page_behind f.insert_penalties pages.old) }
    ensures error { IfErr result (λ e. e ≢ OutOfMemory → spec.page_fired table.now.table pages.old ≡ Err (error_of e)) }
{
    let params = fire_params(alloc, table, pages.page.classes())?;
    let fired = pages.page.fire(alloc, &params)?;
    pages.last = LastItem::Other;
    Ok(fired)
}

/// Whether a register is void.
pub(crate) fn is_void(table: &Eqtb, number: u8) -> bool
    ensures { result ≡ spec.is_void table.now.table number }
{
    table.boxed(&Place::Box(number)).is_none()
}

/// \deadcycles behind a page that goes to \output, of which so many pages have in a row; the most that may are \maxdeadcycles.
fn count_dead(pages: &mut Pages, begun: &Begun, most: i32)
    requires { (packed : Packed) → begun.now ≡ Read packed → pages.old.dead_cycles <ℤ most }
    ensures { pages.new ≡ spec.counted begun.now pages.old }
{
    match begun {
        Begun::Ship(_) => {}
        Begun::Read(_) => pages.dead_cycles += 1,
    }
}

/// The output of a page begins: what becomes of its box.
fn begin_output(
    alloc: Global,
    table: &Eqtb,
    pages: &mut Pages,
    fired: Fired,
    output: &TokList,
) -> Result<Begun, GalleyError>
    ensures ok { IfOk result (λ begun. spec.output_begun fired output.now table.now.table pages.old ≡ Ok begun) }
    ensures pages { IfOk result (λ begun. pages.new ≡ spec.counted begun (spec.waiting fired pages.old)) }
    ensures error { IfErr result (λ e. e ≢ OutOfMemory → spec.output_begun fired output.now table.now.table pages.old ≡ Err (error_of e)) }
{
    let dead = i64::from(pages.dead_cycles);
    let most = table.integer(IntegerParameter::Maxdeadcycles);
    let void255 = is_void(table, 255);
    let begun = pages
        .output
        .begin(alloc, fired, output, dead, i64::from(most), void255)?;
    count_dead(pages, &begun, most);
    Ok(begun)
}

/// A page is to be shipped: what was held over and what remained stand before the contributions that are left. Its only error is
/// want of memory.
fn remain(alloc: Global, pages: &mut Pages, left: &mut Nodes) -> Result<(), GalleyError>
    ensures list { OnOk result (left.new ≡ spec.remaining pages.old left.old) }
    ensures pages { OnOk result (pages.new ≡ spec.nothing_waits pages.old) }
    ensures error { IfErr result (λ e. e ≡ OutOfMemory) }
{
    let mut list = pages.output.finish(Nodes::new(alloc), true, true)?;
    list.append(left)?;
    pages.page.ship();
    swap(left, &mut list);
    Ok(())
}

/// A page with this box is to be shipped. Its only error is want of memory.
fn ship(
    alloc: Global,
    pages: &mut Pages,
    packed: Packed,
    left: &mut Nodes,
) -> Result<Next, GalleyError>
    ensures next { IfOk result (λ next. next ≡ Ships packed.node packed.badness) }
    ensures list { OnOk result (left.new ≡ spec.remaining pages.old left.old) }
    ensures pages { OnOk result (pages.new ≡ spec.nothing_waits pages.old) }
    ensures error { IfErr result (λ e. e ≡ OutOfMemory) }
{
    remain(alloc, pages, left)?;
    Ok(Next::Ships(packed.node, packed.badness))
}

/// What becomes of the box of a page, and of the contributions that are left behind it.
fn put_out(
    alloc: Global,
    table: &mut Eqtb,
    pages: &mut Pages,
    begun: Begun,
    output: TokList,
    left: &mut Nodes,
) -> Result<Next, GalleyError>
    ensures ok { IfOk result (λ next. spec.put_out begun output left.old table.old pages.old ≡ record { next = next; list = left.new; table = table.new; pages = pages.new }) }
    ensures error { IfErr result (λ e. e ≡ OutOfMemory) }
{
    match begun {
        Begun::Ship(packed) => ship(alloc, pages, packed, left),
        Begun::Read(packed) => {
            put_box(alloc, table, 255, packed.node)?;
            Ok(Next::Reads(output, packed.badness))
        }
    }
}

/// The output of a page begins: what becomes of its box, and the tokens of \output.
fn begin_with_output(
    alloc: Global,
    table: &Eqtb,
    pages: &mut Pages,
    fired: Fired,
) -> Result<(Begun, TokList), GalleyError>
    ensures output { IfOk result (λ begun. begun.1 ≡ tokens_at table.now.table (Tokens Output)) }
    ensures ok { IfOk result (λ begun. spec.output_begun fired (tokens_at table.now.table (Tokens Output)) table.now.table pages.old ≡ Ok begun.0) }
    ensures pages { IfOk result (λ begun. pages.new ≡ spec.counted begun.0 (spec.waiting fired pages.old)) }
    ensures error { IfErr result (λ e. e ≢ OutOfMemory → spec.output_begun fired (tokens_at table.now.table (Tokens Output)) table.now.table pages.old ≡ Err (error_of e)) }
{
    let output = table.tokens(&Place::Tokens(TokenParameter::Output))?;
    let begun = begin_output(alloc, table, pages, fired, &output)?;
    Ok((begun, output))
}

/// The output of a page that was fired begins, which has left its boxes and marks.
fn put_out_fired(
    alloc: Global,
    table: &mut Eqtb,
    pages: &mut Pages,
    fired: Fired,
    left: &mut Nodes,
) -> Result<Next, GalleyError>
    ensures ok { IfOk result (λ next. spec.fired_in fired left.old table.old pages.old ≡ Ok (record { next = next; list = left.new; table = table.new; pages = pages.new })) }
    ensures error { IfErr result (λ e. e ≢ OutOfMemory → spec.fired_in fired left.old table.old pages.old ≡ Err (error_of e)) }
{
    let (begun, output) = begin_with_output(alloc, table, pages, fired)?;
    put_out(alloc, table, pages, begun, output, left)
}

/// What a page that was fired leaves in the table and in the marks, which it loses. Its only error is want of memory.
fn leave(
    alloc: Global,
    table: &mut Eqtb,
    pages: &mut Pages,
    fired: &mut Fired,
) -> Result<(), AllocError>
    ensures table { OnOk result (table.new ≡ spec.table_behind fired.old.boxes fired.old.penalty table.old) }
    ensures pages { OnOk result (pages.new ≡ spec.turned fired.old pages.old) }
    ensures fired { OnOk result (fired.new ≡ spec.bared fired.old) }
{
    let boxes = replace(&mut fired.boxes, BoxList::new(alloc));
    change_table(alloc, table, boxes, fired.penalty)?;
    pages.marks.turn_page(fired.first.take(), fired.last.take())
}

/// A page that was fired is put out, where these contributions are left.
fn put_page_out(
    alloc: Global,
    table: &mut Eqtb,
    pages: &mut Pages,
    fired: Fired,
    left: &mut Nodes,
) -> Result<Next, GalleyError>
    ensures ok { IfOk result (λ next. spec.firing_at fired left.old table.old pages.old ≡ Ok (record { next = next; list = left.new; table = table.new; pages = pages.new })) }
    ensures error { IfErr result (λ e. e ≢ OutOfMemory → spec.firing_at fired left.old table.old pages.old ≡ Err (error_of e)) }
{
    let mut fired = fired;
    leave(alloc, table, pages, &mut fired)?;
    put_out_fired(alloc, table, pages, fired, left)
}

/// The page is fired, where these contributions are left: what is to come of its box; the contributions are those that
/// are left then.
pub(crate) fn fire(
    alloc: Global,
    table: &mut Eqtb,
    pages: &mut Pages,
    left: &mut Nodes,
) -> Result<Next, GalleyError>
    ensures ok { IfOk result (λ next. spec.firing left.old table.old pages.old ≡ Ok (record { next = next; list = left.new; table = table.new; pages = pages.new })) }
    ensures error { IfErr result (λ e. e ≢ OutOfMemory → spec.firing left.old table.old pages.old ≡ Err (error_of e)) }
{
    let fired = fired(alloc, table, pages)?;
    put_page_out(alloc, table, pages, fired, left)
}
