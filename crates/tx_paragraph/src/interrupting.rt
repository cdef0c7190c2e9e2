//! How a display interrupts a paragraph.
ghost use Rattle.std.specs.Prelude.{◌≡◌, ◌≢◌, ◌≤◌, ◌^◌, [], Ok, Err, IfOk, IfErr, slice_get, unsigned_abs};
ghost use Rattle.tx_display.specs.Edges.{least_size};
ghost use Rattle.tx_par.specs.declared.error.ParError.TheVariants.{OutOfMemory};
ghost use Rattle.tx_paragraph.specs.Ending.{depth_of};
ghost use Rattle.tx_paragraph.specs.Interrupting as spec;

use crate::ending::{append_lines, lines_if};
use crate::last_line::LastLine;
use crate::shapes::line_at;
use std::alloc::Global;
use tx_box::Lists;
use tx_bytes::Bytes;
use tx_display::{DisplayPlace, LEAST_SIZE, size_behind};
use tx_eqtb::Eqtb;
use tx_hyphenate::Hyphenation;
use tx_linebreak::LineShape;
use tx_nest::{ModeList, raised_graf, set_prev_graf};
use tx_node::Nodes;
use tx_num::fits;
use tx_par::{Lines, ParError};
use tx_tfm::Fonts;

/// What the transcript gets of the hyphens and lines of a paragraph that a display interrupts, and where the display stands.
#[derive(Drop)]
pub struct Interruption {
    pub report: Bytes,
    pub place: DisplayPlace,
}

/// A size that is stored, in sp. `SizeOutOfRange` exactly where it is no dimension.
fn stored(size: i64) -> Result<i32, ParError>
    ensures { result ≡ spec.stored size }
{
    if fits(size) {
        Ok(size as i32)
    } else {
        Err(ParError::SizeOutOfRange)
    }
}

/// Where a display stands behind a line that reaches so far, in sp, on a line of this shape.
#[tactic(auto, unfolding(crate::specs::Interrupting::place_on))]
fn place_on(size: i32, line: LineShape) -> Result<DisplayPlace, ParError>
    ensures { result ≡ spec.place_on size line }
{
    let width = stored(line.width)?;
    let indent = stored(line.indent)?;
    Ok(DisplayPlace {
        size,
        width,
        indent,
    })
}

/// The same behind so many lines of its paragraph.
#[tactic(auto, unfolding(crate::specs::Interrupting::place_in))]
fn place_in(alloc: Global, table: &Eqtb, graf: u32, size: i32) -> Result<DisplayPlace, ParError>
    ensures place { IfOk result (λ place. spec.place_in table.now.table graf size ≡ Ok place) }
    ensures error { IfErr result (λ e. e ≢ OutOfMemory → spec.place_in table.now.table graf size ≡ Err e) }
{
    let line = line_at(alloc, table, graf as usize + 2)?;
    let place = place_on(size, line)?;
    Ok(place)
}

/// The same, if that line's reach is a dimension.
fn place_if(
    alloc: Global,
    table: &Eqtb,
    graf: u32,
    size: Option<i32>,
) -> Result<DisplayPlace, ParError>
    ensures place { IfOk result (λ place. spec.place_if table.now.table graf size ≡ Ok place) }
    ensures error { IfErr result (λ e. e ≢ OutOfMemory → spec.place_if table.now.table graf size ≡ Err e) }
{
    match size {
        Some(size) => place_in(alloc, table, graf, size),
        None => Err(ParError::SizeOutOfRange),
    }
}

/// The quad of the current font, in sp.
fn quad_of(fonts: &Fonts, table: &Eqtb) -> i64
    ensures value { result ≡ spec.quad_of fonts.now table.now.table }
    ensures bound { unsigned_abs result ≤ 2 ^ 31 }
{
    fonts.parameter(table.font(), 6)
}

/// How far the line reaches that is the node at this place of a list, in sp, None where that is no dimension.
#[tactic(auto, unfolding(crate::specs::Interrupting::reach_of))]
fn reach_of(fonts: &Fonts, table: &Eqtb, nodes: &Nodes, last: usize) -> Option<i32>
    ensures { result ≡ spec.reach_of fonts.now table.now.table (slice_get nodes.now last) }
{
    size_behind(nodes.as_slice(), last, quad_of(fonts, table))
}

/// Where a display stands behind that line, and behind so many lines of its paragraph.
#[tactic(auto, unfolding(crate::specs::Interrupting::place_behind))]
fn place_behind(
    alloc: Global,
    fonts: &Fonts,
    table: &Eqtb,
    graf: u32,
    nodes: &Nodes,
    last: usize,
) -> Result<DisplayPlace, ParError>
    ensures place { IfOk result (λ place. spec.place_behind fonts.now table.now.table graf (slice_get nodes.now last) ≡ Ok place) }
    ensures error { IfErr result (λ e. e ≢ OutOfMemory → spec.place_behind fonts.now table.now.table graf (slice_get nodes.now last) ≡ Err e) }
{
    let size = reach_of(fonts, table, nodes, last);
    place_if(alloc, table, graf, size)
}

/// No line stands before the display, behind so many that have passed.
fn cut_empty(alloc: Global, table: &Eqtb, graf: u32) -> Result<Interruption, ParError>
    ensures place { IfOk result (λ told. spec.place_in table.now.table graf least_size ≡ Ok told.place) }
    ensures report { IfOk result (λ told. told.report ≡ []) }
    ensures error { IfErr result (λ e. e ≢ OutOfMemory → spec.place_in table.now.table graf least_size ≡ Err e) }
{
    let place = place_in(alloc, table, graf, LEAST_SIZE)?;
    Ok(Interruption {
        report: Bytes::new(alloc),
        place,
    })
}

/// Lines stand in the list around, before a display, with this \prevgraf.
#[tactic(auto, unfolding(crate::specs::Interrupting::lines_put))]
fn put_lines(
    alloc: Global,
    fonts: &Fonts,
    table: &Eqtb,
    lists: &mut Lists,
    graf: u32,
    set: Lines,
) -> Result<Interruption, ParError>
    ensures cut { IfOk result (λ told. spec.lines_put fonts.now table.now.table lists.old set graf ≡ spec.seat lists.new told.report told.place) }
    ensures error { IfErr result (λ e. e ≢ OutOfMemory → spec.lines_put fonts.now table.now.table lists.old set graf ≡ Err e) }
{
    let Lines {
        nodes,
        last,
        chosen: _,
        depth,
        badness,
        report,
    } = set;
    let place = place_behind(alloc, fonts, table, graf, &nodes, last)?;
    append_lines(lists, nodes, depth, graf, badness)?;
    Ok(Interruption { report, place })
}

/// The same, if they can be counted.
fn use_lines(
    alloc: Global,
    fonts: &Fonts,
    table: &Eqtb,
    lists: &mut Lists,
    graf: Option<u32>,
    set: Lines,
) -> Result<Interruption, ParError>
    ensures cut { IfOk result (λ told. spec.lines_counted fonts.now table.now.table lists.old set graf ≡ spec.seat lists.new told.report told.place) }
    ensures error { IfErr result (λ e. e ≢ OutOfMemory → spec.lines_counted fonts.now table.now.table lists.old set graf ≡ Err e) }
{
    match graf {
        Some(graf) => put_lines(alloc, fonts, table, lists, graf, set),
        None => Err(ParError::SizeOutOfRange),
    }
}

/// The same behind so many lines that have passed.
fn count_lines(
    alloc: Global,
    fonts: &Fonts,
    table: &Eqtb,
    lists: &mut Lists,
    passed: u32,
    set: Lines,
) -> Result<Interruption, ParError>
    ensures cut { IfOk result (λ told. spec.cutting fonts.now table.now.table lists.old passed (Ok set) ≡ spec.seat lists.new told.report told.place) }
    ensures error { IfErr result (λ e. e ≢ OutOfMemory → spec.cutting fonts.now table.now.table lists.old passed (Ok set) ≡ Err e) }
{
    let graf = raised_graf(passed, set.chosen.chain.len());
    use_lines(alloc, fonts, table, lists, graf, set)
}

/// A list is set as lines for the list around, before a display, or can't be.
#[tactic(auto, unfolding(crate::specs::Interrupting::cut_set))]
fn cut_set(
    alloc: Global,
    fonts: &Fonts,
    known: &mut Hyphenation,
    table: &Eqtb,
    lists: &mut Lists,
    passed: u32,
    list: Nodes,
) -> Result<Interruption, ParError>
    ensures cut { IfOk result (λ told. spec.cut_set (record { fonts = fonts.now; known = known.old }) table.now.table (depth_of lists.old.nest.innermost.state) passed list lists.old ≡ spec.cut lists.new known.new told.report told.place) }
    ensures error { IfErr result (λ e. e ≢ OutOfMemory → spec.cut_set (record { fonts = fonts.now; known = known.old }) table.now.table (depth_of lists.old.nest.innermost.state) passed list lists.old ≡ Err e) }
{
    let prev_depth = lists.nest.innermost().state.prev_depth().unwrap_or(0);
    let set = lines_if(
        alloc,
        fonts,
        known,
        LastLine::BeforeDisplay,
        table,
        prev_depth,
        passed,
        list,
    )?;
    count_lines(alloc, fonts, table, lists, passed, set)
}

/// What a display leaves of a paragraph's list in the lists around it, where so many lines have passed.
fn cut_list(
    alloc: Global,
    fonts: &Fonts,
    known: &mut Hyphenation,
    table: &Eqtb,
    lists: &mut Lists,
    passed: u32,
    list: Nodes,
) -> Result<Interruption, ParError>
    ensures cut { IfOk result (λ told. spec.cut_list (record { fonts = fonts.now; known = known.old }) table.now.table passed list lists.old ≡ spec.cut lists.new known.new told.report told.place) }
    ensures error { IfErr result (λ e. e ≢ OutOfMemory → spec.cut_list (record { fonts = fonts.now; known = known.old }) table.now.table passed list lists.old ≡ Err e) }
{
    if list.len() == 0 {
        set_prev_graf(lists.nest.top(), passed);
        let told = cut_empty(alloc, table, passed)?;
        Ok(told)
    } else {
        cut_set(alloc, fonts, known, table, lists, passed, list)
    }
}

/// A display interrupts the paragraph that is being built: its list is set as lines at the end of the list around, as at its end,
/// but the penalty before its last line is \displaywidowpenalty, and its shape stays. `known` keeps whether a second pass began.
/// The answer is what the transcript gets of the paragraph, and where the display stands.
/// Its errors are those of the lines, `SizeOutOfRange` too where \predisplaysize, \displaywidth or \displayindent would be no
/// dimension, and want of memory, after which lists and `known` may only be dropped.
pub fn interrupt_paragraph(
    alloc: Global,
    fonts: &Fonts,
    known: &mut Hyphenation,
    table: &Eqtb,
    lists: &mut Lists,
) -> Result<Interruption, ParError>
    ensures cut { IfOk result (λ told. spec.interrupting (record { fonts = fonts.now; known = known.old }) table.now.table lists.old ≡ spec.cut lists.new known.new told.report told.place) }
    ensures error { IfErr result (λ e. e ≢ OutOfMemory → spec.interrupting (record { fonts = fonts.now; known = known.old }) table.now.table lists.old ≡ Err e) }
{
    if lists.nest.is_outermost() {
        let told = cut_empty(alloc, table, 0)?;
        return Ok(told);
    }
    let ModeList {
        state: _,
        nodes,
        prev_graf,
    } = lists.nest.pop();
    cut_list(alloc, fonts, known, table, lists, prev_graf, nodes)
}
