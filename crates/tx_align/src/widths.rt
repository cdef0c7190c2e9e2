//! How wide columns are (TeX: The Program, sections 801 to 803).
ghost use Rattle.std.specs.Prelude.{◌≡◌, ◌≢◌, slice_get, Some, IfOk, IfErr, Ok, Err, OnOk};
ghost use Rattle.tx_align.specs.declared.error.AlignError.TheVariants.{OutOfMemory};
ghost use Rattle.tx_align.specs.Widths as spec;

use crate::entry::Entry;
use crate::error::AlignError;
use crate::grouping::{count_of, endings};
use crate::preamble::Preamble;
use crate::sized::{SizedColumn, Sizing};
use crate::sizes::{dimension, minus, plus, wide};
use std::alloc::{AllocError, Global};
use tx_list::Items;
use tx_num::Glue;

/// Where a column begins naturally, in sp, the one whose width is looked for behind all others.
fn begin_of(columns: &[SizedColumn], column: usize, begins: i32) -> i32
    ensures { result ≡ spec.begin_of (slice_get columns.now column) begins }
{
    match columns.get(column) {
        Some(found) => found.begins,
        None => begins,
    }
}

/// What an entry leaves to the column in which it ends, in sp.
fn left_over(sizing: &Sizing, entry: &Entry) -> i64
    ensures { result ≡ spec.left_over sizing.now entry.now }
{
    let first = begin_of(sizing.columns.as_slice(), entry.first, sizing.begins);
    minus(wide(entry.width), minus(wide(sizing.begins), wide(first)))
}

/// The greater of two widths, the first of which there may not be.
fn greater(most: Option<i64>, width: i64) -> i64
    ensures { result ≡ spec.greater most width }
{
    match most {
        None => width,
        Some(most) => most.max(width),
    }
}

/// The greatest that an entry leaves to the column in which these end, in sp, None where none does.
fn widest(sizing: &Sizing, entries: &[Entry]) -> Option<i64>
    ensures { result ≡ spec.widest sizing.now entries.now }
{
    let mut most = None;
    for entry in entries {
        most = Some(greater(most, left_over(sizing, entry)));
    }
    most
}

/// Puts a column behind the others, and lets the next one begin there, in sp. Its only error is want of memory.
fn put_column(sizing: &mut Sizing, width: i32, skip: Glue, begins: i32) -> Result<(), AllocError>
    ensures { OnOk result (Ok sizing.new ≡ spec.with_next sizing.old width skip (Some begins)) }
{
    let column = SizedColumn {
        begins: sizing.begins,
        width,
        skip,
    };
    sizing.columns.push(column)?;
    sizing.begins = begins;
    Ok(())
}

/// Puts a column of this width, in sp, behind the others, with the skip behind it.
fn put_narrow(sizing: &mut Sizing, width: i32, skip: Glue) -> Result<(), AlignError>
    ensures ok { OnOk result (spec.with_narrow sizing.old skip (Some width) ≡ Ok sizing.new) }
    ensures error { IfErr result (λ e. e ≢ OutOfMemory → spec.with_narrow sizing.old skip (Some width) ≡ Err e) }
{
    let begins = plus(plus(wide(sizing.begins), wide(width)), skip.width());
    let Some(begins) = dimension(begins) else {
        return Err(AlignError::SizeOutOfRange);
    };
    Ok(put_column(sizing, width, skip, begins)?)
}

/// The same of a width that may be no dimension.
fn put_sized(sizing: &mut Sizing, width: i64, skip: Glue) -> Result<(), AlignError>
    ensures ok { OnOk result (spec.with_sized sizing.old width skip ≡ Ok sizing.new) }
    ensures error { IfErr result (λ e. e ≢ OutOfMemory → spec.with_sized sizing.old width skip ≡ Err e) }
{
    let Some(width) = dimension(width) else {
        return Err(AlignError::SizeOutOfRange);
    };
    put_narrow(sizing, width, skip)
}

/// The same of a column in which an entry ends, or none, which has no width, and no skip behind it.
fn put_width(sizing: &mut Sizing, skip: Glue, width: Option<i64>) -> Result<(), AlignError>
    ensures ok { OnOk result (spec.with_width sizing.old skip width ≡ Ok sizing.new) }
    ensures error { IfErr result (λ e. e ≢ OutOfMemory → spec.with_width sizing.old skip width ≡ Err e) }
{
    match width {
        None => put_sized(sizing, 0, Glue::zero()),
        Some(width) => put_sized(sizing, width, skip),
    }
}

/// Puts the column behind the others in which these entries end.
fn put_ending(preamble: &Preamble, sizing: &mut Sizing, ending: &[Entry]) -> Result<(), AlignError>
    ensures ok { OnOk result (spec.with_ending preamble.now sizing.old ending.now ≡ Ok sizing.new) }
    ensures error { IfErr result (λ e. e ≢ OutOfMemory → spec.with_ending preamble.now sizing.old ending.now ≡ Err e) }
{
    let skip = preamble.skip_behind(sizing.columns.len());
    let width = widest(sizing, ending);
    put_width(sizing, skip, width)
}

/// Puts all columns behind others, by the entries that end in each.
fn put_all(
    preamble: &Preamble,
    sizing: &mut Sizing,
    groups: &[Items<Entry>],
) -> Result<(), AlignError>
    ensures ok { OnOk result (spec.sized_from preamble.now sizing.old groups.now ≡ Ok sizing.new) }
    ensures error { IfErr result (λ e. e ≢ OutOfMemory → spec.sized_from preamble.now sizing.old groups.now ≡ Err e) }
{
    for ending in groups {
        put_ending(preamble, sizing, ending.as_slice())?;
    }
    Ok(())
}

/// No column has its width yet; takes no memory.
fn none_sized(alloc: Global, preamble: &Preamble) -> Sizing
    ensures { result ≡ spec.none_sized preamble.now }
{
    let first = preamble.first();
    Sizing {
        columns: Items::new(alloc),
        begins: narrow_width(&first),
    }
}

/// The width of glue, in 32 bits, in sp.
fn narrow_width(skip: &Glue) -> i32
    ensures { result ≡ skip.now.width }
{
    skip.width() as i32
}

/// The columns of an alignment with their widths, by what its cells ask.
pub(crate) fn sized(
    alloc: Global,
    preamble: &Preamble,
    entries: &[Entry],
) -> Result<Sizing, AlignError>
    ensures ok { IfOk result (λ sizing. spec.sized preamble.now entries.now ≡ Ok sizing) }
    ensures error { IfErr result (λ e. e ≢ OutOfMemory → spec.sized preamble.now entries.now ≡ Err e) }
{
    let groups = endings(alloc, count_of(preamble.count(), entries), entries)?;
    let mut sizing = none_sized(alloc, preamble);
    put_all(preamble, &mut sizing, groups.as_slice())?;
    Ok(sizing)
}
