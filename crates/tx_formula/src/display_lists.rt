//! What the lists of a display come to when it ends (TeX: The Program, sections 1194 and 1199 to 1206).
ghost use Rattle.std.specs.Prelude.{◌≡◌, ◌≢◌, ◌≤◌, ◌^◌, unsigned_abs, Ok, Err, IfOk, IfErr, OnOk};
ghost use Rattle.tx_formula.specs.declared.error.FormulaError.TheVariants.{OutOfMemory};
ghost use Rattle.tx_formula.specs.DisplayLists as spec;
ghost use Rattle.tx_formula.specs.Errors.{error_of};

use crate::error::FormulaError;
use crate::lists::end_list;
use crate::params::font_at;
use crate::shifts::{end_text_list, set_in_style};
use std::alloc::{AllocError, Global};
use tx_box::{Lists, across, leading_of, split_list};
use tx_bytes::Bytes;
use tx_display::{DisplayParams, DisplayPlace, EquationNumber, Told, append_display, number_of};
use tx_eqtb::Eqtb;
use tx_math::Formula;
use tx_nest::{ModeList, ModeState, raised_graf};
use tx_node::Nodes;
use tx_par::Line;
use tx_prim::{DimensionParameter, GlueParameter, IntegerParameter, MathSize, Mode, NumberSide};
use tx_seen::TexError;
use tx_tfm::Fonts;

/// The number of an equation, and the transcript's lines of its formula.
#[derive(Drop)]
pub(crate) struct Numbered {
    pub number: EquationNumber,
    pub report: Bytes,
}

/// Where a display stands, as the table has it.
fn place_of(table: &Eqtb) -> DisplayPlace
    ensures { result ≡ spec.place_of table.now.table }
{
    DisplayPlace {
        size: table.dimension(DimensionParameter::Predisplaysize),
        width: table.dimension(DimensionParameter::Displaywidth),
        indent: table.dimension(DimensionParameter::Displayindent),
    }
}

/// The quad of the symbol font of text size, in sp.
fn symbol_quad(fonts: &Fonts, table: &Eqtb) -> i64
    ensures value { result ≡ spec.symbol_quad fonts.now table.now.table }
    ensures bound { unsigned_abs result ≤ 2 ^ 31 }
{
    fonts.parameter(font_at(table, MathSize::Text, 2), 6)
}

/// What a display is set by.
fn display_params(fonts: &Fonts, table: &Eqtb) -> DisplayParams
    ensures value { result ≡ spec.display_params fonts.now table.now.table }
    ensures bound { unsigned_abs result.quad ≤ 2 ^ 31 }
{
    DisplayParams {
        place: place_of(table),
        pre_penalty: table.integer(IntegerParameter::Predisplaypenalty),
        post_penalty: table.integer(IntegerParameter::Postdisplaypenalty),
        above_skip: table.glue_parameter(GlueParameter::Abovedisplayskip),
        above_short_skip: table.glue_parameter(GlueParameter::Abovedisplayshortskip),
        below_skip: table.glue_parameter(GlueParameter::Belowdisplayskip),
        below_short_skip: table.glue_parameter(GlueParameter::Belowdisplayshortskip),
        leading: leading_of(table),
        packing: across(table),
        quad: symbol_quad(fonts, table),
    }
}

/// The box of an equation's number, of which the list is set.
fn make_number(
    alloc: Global,
    table: &Eqtb,
    side: NumberSide,
    formula: Formula,
) -> Result<Numbered, FormulaError>
    ensures made { IfOk result (λ made. spec.number_made table.now.table side formula ≡ Ok made) }
    ensures error { IfErr result (λ e. e ≢ OutOfMemory → spec.number_made table.now.table side formula ≡ Err (error_of e)) }
{
    let Formula { nodes, report } = formula;
    let number = number_of(alloc, side, &across(table), nodes)?;
    Ok(Numbered { number, report })
}

/// The innermost formula, which ends, as the number of an equation.
pub(crate) fn end_number_list(
    alloc: Global,
    fonts: &Fonts,
    table: &Eqtb,
    lists: &mut Lists,
    side: NumberSide,
) -> Result<Numbered, FormulaError>
    ensures made { IfOk result (λ made. spec.ended_number fonts.now table.now.table side lists.old ≡ Ok (made, lists.new)) }
    ensures error { IfErr result (λ e. e ≢ OutOfMemory → spec.ended_number fonts.now table.now.table side lists.old ≡ Err (error_of e)) }
{
    let formula = end_text_list(alloc, fonts, table, lists)?;
    let made = make_number(alloc, table, side, formula)?;
    Ok(made)
}

/// The innermost formula, which ends, in display style.
fn end_display_list(
    alloc: Global,
    fonts: &Fonts,
    table: &Eqtb,
    lists: &mut Lists,
) -> Result<Formula, FormulaError>
    ensures made { IfOk result (λ made. spec.ended_display fonts.now table.now.table lists.old ≡ Ok (made, lists.new)) }
    ensures error { IfErr result (λ e. e ≢ OutOfMemory → spec.ended_display fonts.now table.now.table lists.old ≡ Err (error_of e)) }
{
    let list = end_list(alloc, lists)?;
    let made = set_in_style(alloc, fonts, table, 0, false, &list)?;
    Ok(made)
}

/// What stands in a display's box, and what leaves it, stand at the end of the vertical list around, with the number of the
/// equation. The answer is what the transcript gets.
fn append(
    alloc: Global,
    lists: &mut Lists,
    params: &DisplayParams,
    number: Option<EquationNumber>,
    line: Line,
) -> Result<Bytes, FormulaError>
    requires quad { unsigned_abs params.now.quad ≤ 2 ^ 31 }
    ensures made { IfOk result (λ report. spec.appended params.now number line lists.old ≡ Ok (report, lists.new)) }
    ensures error { IfErr result (λ e. e ≢ OutOfMemory → spec.appended params.now number line lists.old ≡ Err (error_of e)) }
{
    let Line { own, behind } = line;
    let told = append_display(alloc, lists.nest.top(), params, number, own, behind)?;
    let Told { badness, report } = told;
    lists.badness = badness;
    Ok(report)
}

/// The list of a paragraph of which so many lines have passed; takes no memory.
fn going_on(alloc: Global, graf: u32) -> ModeList
    ensures { result ≡ spec.going_on graf }
{
    ModeList {
        state: ModeState::begun(Mode::Horizontal),
        nodes: Nodes::new(alloc),
        prev_graf: graf,
    }
}

/// A paragraph goes on, of which so many lines have passed. Its only error is want of memory.
fn begin_behind(alloc: Global, lists: &mut Lists, graf: u32) -> Result<(), AllocError>
    ensures { OnOk result (spec.gone_on lists.old (Some graf) ≡ Ok lists.new) }
{
    lists.nest.push(going_on(alloc, graf))
}

/// The same, if so many can be counted.
fn begin_if(alloc: Global, lists: &mut Lists, graf: Option<u32>) -> Result<(), FormulaError>
    ensures made { OnOk result (spec.gone_on lists.old graf ≡ Ok lists.new) }
    ensures error { IfErr result (λ e. e ≢ OutOfMemory → spec.gone_on lists.old graf ≡ Err (error_of e)) }
{
    match graf {
        Some(graf) => {
            begin_behind(alloc, lists, graf)?;
            Ok(())
        }
        None => Err(FormulaError::Refused(TexError::SizeOutOfRange)),
    }
}

/// The paragraph goes on behind a display, which counts as three lines.
fn go_on(alloc: Global, lists: &mut Lists) -> Result<(), FormulaError>
    ensures made { OnOk result (spec.paragraph_on lists.old ≡ Ok lists.new) }
    ensures error { IfErr result (λ e. e ≢ OutOfMemory → spec.paragraph_on lists.old ≡ Err (error_of e)) }
{
    let graf = raised_graf(lists.nest.innermost().prev_graf, 3);
    begin_if(alloc, lists, graf)
}

/// The paragraph goes on behind a display of which this is told, which the transcript gets.
fn go_on_telling(
    alloc: Global,
    lists: &mut Lists,
    said: &mut Bytes,
    report: &[u8],
) -> Result<(), FormulaError>
    ensures made { OnOk result (spec.IsShown (spec.on_behind report.now (spec.paragraph_on lists.old)) said.old said.new (Ok lists.new)) }
    ensures error { IfErr result (λ e. e ≢ OutOfMemory → spec.IsShown (spec.on_behind report.now (spec.paragraph_on lists.old)) said.old said.new (Err (error_of e))) }
{
    go_on(alloc, lists)?;
    said.append(report)?;
    Ok(())
}

/// A display stands at the end of the vertical list around, with the number of its equation, and the paragraph goes on behind it. The
/// transcript gets what is told of it.
fn put(
    alloc: Global,
    lists: &mut Lists,
    said: &mut Bytes,
    params: &DisplayParams,
    number: Option<EquationNumber>,
    line: Line,
) -> Result<(), FormulaError>
    requires quad { unsigned_abs params.now.quad ≤ 2 ^ 31 }
    ensures made { OnOk result (spec.IsShown (spec.shown_by (spec.appended params.now number line lists.old)) said.old said.new (Ok lists.new)) }
    ensures error { IfErr result (λ e. e ≢ OutOfMemory → spec.IsShown (spec.shown_by (spec.appended params.now number line lists.old)) said.old said.new (Err (error_of e))) }
{
    let report = append(alloc, lists, params, number, line)?;
    go_on_telling(alloc, lists, said, report.as_slice())
}

/// The same of a formula that is set.
fn show(
    alloc: Global,
    fonts: &Fonts,
    table: &Eqtb,
    lists: &mut Lists,
    said: &mut Bytes,
    number: Option<EquationNumber>,
    nodes: Nodes,
) -> Result<(), FormulaError>
    ensures made { OnOk result (spec.IsShown (spec.shown fonts.now table.now.table number nodes lists.old) said.old said.new (Ok lists.new)) }
    ensures error { IfErr result (λ e. e ≢ OutOfMemory → spec.IsShown (spec.shown fonts.now table.now.table number nodes lists.old) said.old said.new (Err (error_of e))) }
{
    let params = display_params(fonts, table);
    let line = split_list(alloc, nodes)?;
    put(alloc, lists, said, &params, number, line)
}

/// The innermost formula, which ends, stands as a display at the end of the vertical list around, with the number of its equation, and
/// the paragraph goes on behind it. The transcript gets what is told of the formula and of the display, up to an error.
pub(crate) fn finish(
    alloc: Global,
    fonts: &Fonts,
    table: &Eqtb,
    lists: &mut Lists,
    said: &mut Bytes,
    number: Option<EquationNumber>,
) -> Result<(), FormulaError>
    ensures made { OnOk result (spec.IsShown (spec.finished fonts.now table.now.table number lists.old) said.old said.new (Ok lists.new)) }
    ensures error { IfErr result (λ e. e ≢ OutOfMemory → spec.IsShown (spec.finished fonts.now table.now.table number lists.old) said.old said.new (Err (error_of e))) }
{
    let made = end_display_list(alloc, fonts, table, lists)?;
    let Formula { nodes, report } = made;
    said.append(report.as_slice())?;
    show(alloc, fonts, table, lists, said, number, nodes)
}
