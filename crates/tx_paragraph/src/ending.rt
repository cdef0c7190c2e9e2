//! How a paragraph ends.
ghost use Rattle.std.specs.Prelude.{◌≡◌, ◌≢◌, ◌++◌, [], None, Some, Ok, Err, IfOk, IfErr, IfNone, IfSome, OnOk};
ghost use Rattle.tx_box.specs.Building.{across, plain_shape};
ghost use Rattle.tx_num.specs.Glue.{IsDimension};
ghost use Rattle.tx_par.specs.declared.error.ParError.TheVariants.{OutOfMemory};
ghost use Rattle.tx_hyphenate.specs.declared.known.Hyphenation.{Hyphenation as Known};
ghost use Rattle.tx_hyphenate.specs.Hyphenated.{hyphenated as hyphenated_list};
ghost use Rattle.tx_paragraph.specs.Ending as spec;
ghost use Rattle.tx_paragraph.specs.Hyphens.{ways_of};

use crate::hyphens::{hyphen_params, lower_codes};
use crate::last_line::LastLine;
use crate::parameters::{later_params, params_of};
use crate::shapes::shape_of;
use std::alloc::{AllocError, Global};
use tx_box::{Lists, reset_shape};
use tx_bytes::Bytes;
use tx_eqtb::Eqtb;
use tx_hyphenate::{Hyphenation, hyphenated};
use tx_nest::{ModeList, append_items, raised_graf, set_prev_depth, set_prev_graf};
use tx_node::Nodes;
use tx_num::Range;
use tx_par::{Lines, ParError, first_lines, paragraph};
use tx_prim::{DimensionParameter, Mode};
use tx_seen::TexError;
use tx_tfm::Fonts;

/// What the first pass makes of a list of which this is the last line, behind so much \prevdepth, in sp, and so many lines that have
/// passed.
fn lines_first(
    alloc: Global,
    last: LastLine,
    table: &Eqtb,
    prev_depth: i32,
    passed: u32,
    list: &Nodes,
) -> Result<Option<Lines>, ParError>
    requires rule { IsDimension (across table.now.table).overfull_rule }
    ensures none { IfOk result (λ found. IfNone found (spec.first_of last table.now.table prev_depth passed list.now ≡ None)) }
    ensures some { IfOk result (λ found. IfSome found (λ set. spec.first_of last table.now.table prev_depth passed list.now ≡ Some (Ok set))) }
    ensures error { IfErr result (λ e. e ≢ OutOfMemory → spec.first_of last table.now.table prev_depth passed list.now ≡ Some (Err e)) }
{
    let shape = shape_of(alloc, table, passed, list)?;
    first_lines(alloc, list, &shape, &params_of(last, table, prev_depth))
}

/// What the others make of a list whose words are hyphenated.
fn lines_later(
    alloc: Global,
    last: LastLine,
    table: &Eqtb,
    prev_depth: i32,
    passed: u32,
    list: Nodes,
) -> Result<Lines, ParError>
    requires rule { IsDimension (across table.now.table).overfull_rule }
    ensures lines { IfOk result (λ set. spec.later_of last table.now.table prev_depth passed list ≡ Ok set) }
    ensures error { IfErr result (λ e. e ≢ OutOfMemory → spec.later_of last table.now.table prev_depth passed list ≡ Err e) }
{
    let shape = shape_of(alloc, table, passed, &list)?;
    paragraph(
        alloc,
        list,
        &shape,
        &later_params(params_of(last, table, prev_depth)),
    )
}

/// A list with its words hyphenated; `report` gets a line for each hyphen that its font lacks. Its only error is want of memory.
fn hyphenate(
    alloc: Global,
    fonts: &Fonts,
    known: &Hyphenation,
    table: &Eqtb,
    list: Nodes,
    report: &mut Bytes,
) -> Result<Nodes, AllocError>
    ensures list { IfOk result (λ made. made ≡ (hyphenated_list (ways_of (record { fonts = fonts.now; known = known.now }) table.now.table) list).items) }
    ensures report { OnOk result (report.new ≡ report.old ++ (hyphenated_list (ways_of (record { fonts = fonts.now; known = known.now }) table.now.table) list).report) }
{
    let lower = lower_codes(alloc, table)?;
    hyphenated(
        alloc,
        list,
        fonts,
        &known.hyphens,
        lower.as_slice(),
        hyphen_params(table),
        report,
    )
}

/// Lines of which this is told before what is told of them already. Its only error is want of memory.
fn tell_first(mut report: Bytes, mut set: Lines) -> Result<Lines, AllocError>
    ensures { IfOk result (λ told. told ≡ record set { report = report ++ set.report }) }
{
    report.append(set.report.as_slice())?;
    set.report = report;
    Ok(set)
}

/// What the others make of a list whose words are hyphenated, where this was told of the hyphens.
fn lines_told(
    alloc: Global,
    last: LastLine,
    table: &Eqtb,
    prev_depth: i32,
    passed: u32,
    list: Nodes,
    report: Bytes,
) -> Result<Lines, ParError>
    requires rule { IsDimension (across table.now.table).overfull_rule }
    ensures lines { IfOk result (λ set. spec.told_first report (spec.later_of last table.now.table prev_depth passed list) ≡ Ok set) }
    ensures error { IfErr result (λ e. e ≢ OutOfMemory → spec.told_first report (spec.later_of last table.now.table prev_depth passed list) ≡ Err e) }
{
    let set = lines_later(alloc, last, table, prev_depth, passed, list)?;
    Ok(tell_first(report, set)?)
}

/// The lines of a list: its words are hyphenated where the first pass makes none of it.
fn lines_of(
    alloc: Global,
    fonts: &Fonts,
    known: &mut Hyphenation,
    last: LastLine,
    table: &Eqtb,
    prev_depth: i32,
    passed: u32,
    list: Nodes,
) -> Result<Lines, ParError>
    requires rule { IsDimension (across table.now.table).overfull_rule }
    ensures lines { IfOk result (λ set. spec.lines_of (record { fonts = fonts.now; known = known.old }) last table.now.table prev_depth passed list ≡ Ok set) }
    ensures error { IfErr result (λ e. e ≢ OutOfMemory → spec.lines_of (record { fonts = fonts.now; known = known.old }) last table.now.table prev_depth passed list ≡ Err e) }
    ensures known { OnOk result (known.new ≡ spec.used_after (spec.first_of last table.now.table prev_depth passed list) known.old) }
{
    if let Some(set) = lines_first(alloc, last, table, prev_depth, passed, &list)? {
        return Ok(set);
    }
    known.used = true;
    let mut report = Bytes::new(alloc);
    let list = hyphenate(alloc, fonts, known, table, list, &mut report)?;
    lines_told(alloc, last, table, prev_depth, passed, list, report)
}

/// The same, where \overfullrule is a dimension.
pub(crate) fn lines_if(
    alloc: Global,
    fonts: &Fonts,
    known: &mut Hyphenation,
    last: LastLine,
    table: &Eqtb,
    prev_depth: i32,
    passed: u32,
    list: Nodes,
) -> Result<Lines, ParError>
    ensures lines { IfOk result (λ set. spec.lines_if (record { fonts = fonts.now; known = known.old }) last table.now.table prev_depth passed list ≡ Ok set) }
    ensures error { IfErr result (λ e. e ≢ OutOfMemory → spec.lines_if (record { fonts = fonts.now; known = known.old }) last table.now.table prev_depth passed list ≡ Err e) }
    ensures known { OnOk result (known.new ≡ spec.used_after (spec.first_of last table.now.table prev_depth passed list) known.old) }
{
    let rule = i64::from(table.dimension(DimensionParameter::Overfullrule));
    if Range::Dimen.holds(rule) {
        lines_of(alloc, fonts, known, last, table, prev_depth, passed, list)
    } else {
        Err(ParError::SizeOutOfRange)
    }
}

/// Lines stand at the end of the list around, with so much \prevdepth behind them, in sp, this \prevgraf, and \badness. After want of
/// memory, its only error, lists and table may only be dropped, here and in all that follows.
pub(crate) fn append_lines(
    lists: &mut Lists,
    nodes: Nodes,
    depth: i32,
    graf: u32,
    badness: i64,
) -> Result<(), AllocError>
    ensures { OnOk result (lists.new ≡ spec.with_lines lists.old nodes depth graf badness) }
{
    append_items(lists.nest.top(), nodes)?;
    set_prev_depth(lists.nest.top(), depth);
    set_prev_graf(lists.nest.top(), graf);
    lists.badness = badness;
    Ok(())
}

/// What comes of lines that can be counted: the next paragraph has the plain shape. The answer is what the transcript gets of them.
fn use_lines(
    lists: &mut Lists,
    table: &mut Eqtb,
    graf: u32,
    set: Lines,
) -> Result<Bytes, AllocError>
    ensures { IfOk result (λ report. (known : Known) → spec.counted known lists.old table.old set (Some graf) ≡ spec.left lists.new table.new known report) }
{
    let Lines {
        nodes,
        last: _,
        chosen: _,
        depth,
        badness,
        report,
    } = set;
    append_lines(lists, nodes, depth, graf, badness)?;
    reset_shape(table)?;
    Ok(report)
}

/// What comes of lines that could be set, behind so many that have passed.
fn count_lines(
    lists: &mut Lists,
    table: &mut Eqtb,
    passed: u32,
    set: Lines,
) -> Result<Bytes, ParError>
    ensures left { IfOk result (λ report. (known : Known) → spec.setting known lists.old table.old passed (Ok set) ≡ spec.left lists.new table.new known report) }
    ensures error { IfErr result (λ e. e ≢ OutOfMemory → (known : Known) → spec.setting known lists.old table.old passed (Ok set) ≡ Err e) }
{
    match raised_graf(passed, set.chosen.chain.len()) {
        Some(graf) => Ok(use_lines(lists, table, graf, set)?),
        None => Err(ParError::SizeOutOfRange),
    }
}

/// A list is set as lines for the list around, or can't be.
fn set_list(
    alloc: Global,
    fonts: &Fonts,
    known: &mut Hyphenation,
    lists: &mut Lists,
    table: &mut Eqtb,
    passed: u32,
    list: Nodes,
) -> Result<Bytes, ParError>
    ensures left { IfOk result (λ report. spec.set_list (record { fonts = fonts.now; known = known.old }) (spec.depth_of lists.old.nest.innermost.state) passed list lists.old table.old ≡ spec.left lists.new table.new known.new report) }
    ensures error { IfErr result (λ e. e ≢ OutOfMemory → spec.set_list (record { fonts = fonts.now; known = known.old }) (spec.depth_of lists.old.nest.innermost.state) passed list lists.old table.old ≡ Err e) }
{
    let prev_depth = lists.nest.innermost().state.prev_depth().unwrap_or(0);
    let set = lines_if(
        alloc,
        fonts,
        known,
        LastLine::OfParagraph,
        table,
        prev_depth,
        passed,
        list,
    )?;
    count_lines(lists, table, passed, set)
}

/// The next paragraph has the plain shape, and nothing else comes of it.
fn only_reset(alloc: Global, table: &mut Eqtb) -> Result<Bytes, AllocError>
    ensures report { IfOk result (λ report. report ≡ []) }
    ensures table { OnOk result (table.new ≡ plain_shape table.old) }
{
    reset_shape(table)?;
    Ok(Bytes::new(alloc))
}

/// What comes of a paragraph's list in the lists around it, where so many lines have passed.
fn end_list(
    alloc: Global,
    fonts: &Fonts,
    known: &mut Hyphenation,
    lists: &mut Lists,
    table: &mut Eqtb,
    passed: u32,
    list: Nodes,
) -> Result<Bytes, ParError>
    ensures left { IfOk result (λ report. spec.ended_list (record { fonts = fonts.now; known = known.old }) passed list lists.old table.old ≡ spec.left lists.new table.new known.new report) }
    ensures error { IfErr result (λ e. e ≢ OutOfMemory → spec.ended_list (record { fonts = fonts.now; known = known.old }) passed list lists.old table.old ≡ Err e) }
{
    if list.len() == 0 {
        set_prev_graf(lists.nest.top(), passed);
        Ok(only_reset(alloc, table)?)
    } else {
        set_list(alloc, fonts, known, lists, table, passed, list)
    }
}

/// A paragraph's list leaves the lists around it.
fn leave(
    alloc: Global,
    fonts: &Fonts,
    known: &mut Hyphenation,
    lists: &mut Lists,
    table: &mut Eqtb,
) -> Result<Bytes, ParError>
    ensures left { IfOk result (λ report. spec.leaving (record { fonts = fonts.now; known = known.old }) lists.old.nest.around lists.old table.old ≡ spec.left lists.new table.new known.new report) }
    ensures error { IfErr result (λ e. e ≢ OutOfMemory → spec.leaving (record { fonts = fonts.now; known = known.old }) lists.old.nest.around lists.old table.old ≡ Err e) }
{
    if lists.nest.is_outermost() {
        return Ok(Bytes::new(alloc));
    }
    let ModeList {
        state: _,
        nodes,
        prev_graf,
    } = lists.nest.pop();
    end_list(alloc, fonts, known, lists, table, prev_graf, nodes)
}

/// Ends the paragraph that is open, as at the end of a vertical box: its list is set as lines at the end of the list around, unless
/// it is empty, and the next paragraph has the plain shape. Words are hyphenated where the first pass makes no lines of it, and
/// `known` keeps that a second pass began. Where no paragraph is open, nothing happens. The answer is what the transcript gets: a
/// line for each hyphen that was put in and that its font lacks, then what is told of the lines.
/// Its errors are those of the lines, and want of memory, after which lists, table and `known` may only be dropped.
pub fn close_paragraph(
    alloc: Global,
    fonts: &Fonts,
    known: &mut Hyphenation,
    lists: &mut Lists,
    table: &mut Eqtb,
) -> Result<Bytes, ParError>
    ensures left { IfOk result (λ report. spec.closing (record { fonts = fonts.now; known = known.old }) lists.old table.old ≡ spec.left lists.new table.new known.new report) }
    ensures error { IfErr result (λ e. e ≢ OutOfMemory → spec.closing (record { fonts = fonts.now; known = known.old }) lists.old table.old ≡ Err e) }
{
    match lists.nest.innermost().mode() {
        Mode::Horizontal => leave(alloc, fonts, known, lists, table),
        Mode::Vertical | Mode::InternalVertical => Ok(Bytes::new(alloc)),
        Mode::RestrictedHorizontal | Mode::Math | Mode::DisplayMath => Ok(Bytes::new(alloc)),
    }
}

/// \par: the same, and in vertical lists, where no paragraph is open, the next one has the plain shape.
pub fn end_paragraph(
    alloc: Global,
    fonts: &Fonts,
    known: &mut Hyphenation,
    lists: &mut Lists,
    table: &mut Eqtb,
) -> Result<Bytes, ParError>
    ensures left { IfOk result (λ report. spec.ending (record { fonts = fonts.now; known = known.old }) lists.old table.old ≡ spec.left lists.new table.new known.new report) }
    ensures error { IfErr result (λ e. e ≢ OutOfMemory → spec.ending (record { fonts = fonts.now; known = known.old }) lists.old table.old ≡ Err e) }
{
    match lists.nest.innermost().mode() {
        Mode::Horizontal => leave(alloc, fonts, known, lists, table),
        Mode::Vertical | Mode::InternalVertical => Ok(only_reset(alloc, table)?),
        Mode::RestrictedHorizontal | Mode::Math | Mode::DisplayMath => Ok(Bytes::new(alloc)),
    }
}

/// The error of a paragraph's lines by which the run ends, if that isn't want of memory.
pub fn paragraph_error(error: ParError) -> Result<TexError, AllocError>
    ensures told { IfOk result (λ told. told ≡ spec.par_error error) }
    ensures memory { IfOk result (λ _. error ≢ OutOfMemory) }
{
    match error {
        ParError::SizeOutOfRange => Ok(TexError::SizeOutOfRange),
        ParError::TooDeep => Ok(TexError::TooDeep),
        ParError::EndlessShrink => Ok(TexError::InfiniteShrink),
        ParError::OutOfMemory => Err(AllocError),
    }
}
