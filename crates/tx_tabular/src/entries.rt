//! Entries begin and end (TeX: The Program, sections 786 to 796).
ghost use Rattle.std.specs.Prelude.{◌≡◌, ◌≢◌, [], Ok, Err, IfOk, IfErr, OnOk};
ghost use Rattle.tx_align.specs.declared.error.AlignError.TheVariants.{OutOfMemory};
ghost use Rattle.tx_par.specs.LineLists.{line_of};
ghost use Rattle.tx_tabular.specs.Entries as spec;

use crate::alignment::Alignment;
use crate::lists::{begin_entry_list, between, take_nodes};
use std::alloc::{AllocError, Global};
use tx_align::{AlignError, RowItem};
use tx_box::{Lists, leave_list, split_list};
use tx_node::Nodes;
use tx_par::Line;
use tx_pending::ColumnPart;
use tx_prim::EntryEnd;
use tx_toklist::{TokList, Toks};

/// A row begins with its first entry: what stood before it is kept. `MisplacedAlignment` exactly where a row is open, which none
/// is. After an error both may only be dropped.
pub fn begin_row(
    alloc: Global,
    lists: &mut Lists,
    alignment: &mut Alignment,
) -> Result<(), AlignError>
    ensures begun { OnOk result (spec.rowing lists.old alignment.old ≡ Ok (record { lists = lists.new; alignment = alignment.new })) }
    ensures error { IfErr result (λ e. e ≢ OutOfMemory → spec.rowing lists.old alignment.old ≡ Err e) }
{
    let nodes = take_nodes(alloc, lists.nest.top());
    let nodes = between(alloc, alignment.behind_row, nodes)?;
    alignment
        .rows
        .push(RowItem::NoAlign(nodes), &alignment.preamble)?;
    alignment.column = 0;
    alignment.span = 1;
    begin_entry_list(alloc, lists)?;
    Ok(())
}

/// An entry begins: whether with \omit.
pub fn begin_entry(alignment: &mut Alignment, omitted: bool)
    ensures { alignment.new ≡ spec.beginning_entry omitted alignment.old }
{
    alignment.omitted = omitted;
    alignment.ending = None;
}

/// What the column of the entry has before its text, or behind it; nothing where the entry begins with \omit. Its only error is
/// that no more owners can be counted.
pub fn part_of(
    alloc: Global,
    alignment: &Alignment,
    part: ColumnPart,
) -> Result<TokList, AllocError>
    ensures { IfOk result (λ tokens. tokens ≡ spec.part_of part alignment.now) }
{
    if alignment.omitted {
        return no_tokens(alloc);
    }
    match (alignment.preamble.parts(alignment.column), part) {
        (Some((u_part, _)), ColumnPart::U) => u_part.share(),
        (Some((_, v_part)), ColumnPart::V) => v_part.share(),
        (None, _) => no_tokens(alloc),
    }
}

/// No tokens. Its only error is want of memory.
fn no_tokens(alloc: Global) -> Result<TokList, AllocError>
    ensures { IfOk result (λ tokens. tokens ≡ []) }
{
    TokList::from_toks(alloc, Toks::new(alloc))
}

/// Whether behind this another column has to come.
fn needs_next(word: EntryEnd) -> bool
    ensures { result ≡ spec.needs_next word }
{
    match word {
        EntryEnd::Tab | EntryEnd::Span => true,
        EntryEnd::Cr | EntryEnd::CrCr => false,
    }
}

/// Whether the preamble has a further column. Its only error is that it can't be counted.
fn has_next(alignment: &Alignment) -> Result<bool, AllocError>
    ensures { IfOk result (λ found. found ≡ spec.has_next alignment.now) }
{
    match alignment.column.checked_add(1) {
        Some(column) => Ok(alignment.preamble.parts(column).is_some()),
        None => Err(AllocError),
    }
}

/// What ends the entry, whose v-part is read. `MisplacedAlignment` exactly where nothing does, or another column has to come that
/// the preamble hasn't.
pub fn ending_of(alignment: &Alignment) -> Result<EntryEnd, AlignError>
    ensures ok { IfOk result (λ word. spec.ending_of alignment.now ≡ Ok word) }
    ensures error { IfErr result (λ e. e ≢ OutOfMemory → spec.ending_of alignment.now ≡ Err e) }
{
    let Some(word) = alignment.ending else {
        return Err(AlignError::MisplacedAlignment);
    };
    if !needs_next(word) {
        return Ok(word);
    }
    if has_next(alignment)? {
        Ok(word)
    } else {
        Err(AlignError::MisplacedAlignment)
    }
}

/// The entry goes on in the next column, which the preamble has.
pub fn join_columns(alignment: &mut Alignment) -> Result<(), AllocError>
    ensures { OnOk result (alignment.new ≡ spec.spanning alignment.old) }
{
    let (Some(column), Some(span)) = (
        alignment.column.checked_add(1),
        alignment.span.checked_add(1),
    ) else {
        return Err(AllocError);
    };
    alignment.column = column;
    alignment.span = span;
    Ok(())
}

/// An entry is whole: its list ends, and what leaves a box of it is kept beside; \badness is 0. `MisplacedAlignment` exactly where
/// no list waits around. After an error both may only be dropped.
pub fn end_entry(
    alloc: Global,
    lists: &mut Lists,
    alignment: &mut Alignment,
) -> Result<(), AlignError>
    ensures ended { OnOk result (spec.celling lists.old alignment.old ≡ Ok (record { lists = lists.new; alignment = alignment.new })) }
    ensures error { IfErr result (λ e. e ≢ OutOfMemory → spec.celling lists.old alignment.old ≡ Err e) }
{
    if lists.nest.is_outermost() {
        return Err(AlignError::MisplacedAlignment);
    }
    let nodes = leave_list(&mut lists.nest);
    lists.badness = 0;
    add_cell(alloc, alignment, nodes)?;
    Ok(())
}

/// An entry with this list joins the row. Its only error is want of memory.
fn add_cell(alloc: Global, alignment: &mut Alignment, nodes: Nodes) -> Result<(), AllocError>
    ensures { OnOk result (alignment.new ≡ spec.with_cell alignment.old (line_of nodes)) }
{
    let Line { own, behind } = split_list(alloc, nodes)?;
    alignment.cells.push(RowItem::Cell {
        span: alignment.span,
        list: own,
    })?;
    let mut behind = behind;
    alignment.leaving.append(&mut behind)
}

/// The next column's entry is to come. Its only error is that no more columns can be counted.
pub fn next_column(alignment: &mut Alignment) -> Result<(), AllocError>
    ensures { OnOk result (alignment.new ≡ spec.advancing alignment.old) }
{
    let Some(column) = alignment.column.checked_add(1) else {
        return Err(AllocError);
    };
    alignment.column = column;
    alignment.span = 1;
    Ok(())
}
