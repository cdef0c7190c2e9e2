//! \vsplit (TeX: The Program, sections 977 to 979).
ghost use Rattle.std.specs.Prelude.{◌≡◌, ◌≢◌, Ok, Err, IfOk, IfErr, OnOk, Some};
ghost use Rattle.tx_num.specs.Glue.{IsDimension};
ghost use Rattle.tx_galley.specs.declared.errors.GalleyError.TheVariants.{OutOfMemory};
ghost use Rattle.tx_galley.specs.Errors.{error_of};
ghost use Rattle.tx_galley.specs.Splitting as spec;

use crate::errors::GalleyError;
use crate::firing::put_box;
use std::alloc::Global;
use tx_box::down;
use tx_eqtb::{BoxContents, Entry, Eqtb};
use tx_insert::{Split, split};
use tx_node::{BoxNode, Direction, Nodes};
use tx_num::{GREATEST_DIMENSION, fits};
use tx_output::Pages;
use tx_pack::{Goal, PackParams, Packed, vpack};
use tx_prim::{DimensionParameter, GlueParameter};
use tx_seen::{Place, TexError};

/// What remains of a box that is split stands in its register, naturally packed; the register is void where nothing remains.
fn keep_rest(alloc: Global, table: &mut Eqtb, register: u8, rest: Nodes) -> Result<(), GalleyError>
    ensures ok { OnOk result (spec.rest_kept register rest table.old ≡ Ok table.new) }
    ensures error { IfErr result (λ e. e ≢ OutOfMemory → spec.rest_kept register rest table.old ≡ Err (error_of e)) }
{
    if rest.len() == 0 {
        return Ok(table.replace(Place::Box(register), Entry::Box(BoxContents::void()))?);
    }
    let packed = vpack(alloc, rest, Goal::Natural, GREATEST_DIMENSION, &down(table))?;
    Ok(put_box(alloc, table, register, packed.node)?)
}

/// What a split takes off a list, packed to so many sp, at most so many sp deep.
fn pack_top(
    alloc: Global,
    params: &PackParams,
    top: Nodes,
    size: i64,
    most: i64,
) -> Result<Packed, GalleyError>
    requires size { IsDimension size }
    requires most { IsDimension most }
    requires rule { IsDimension params.now.overfull_rule }
    ensures ok { IfOk result (λ packed. spec.top_packed params.now size most top ≡ Ok packed) }
    ensures error { IfErr result (λ e. e ≢ OutOfMemory → spec.top_packed params.now size most top ≡ Err (error_of e)) }
{
    Ok(vpack(alloc, top, Goal::To(size), most, params)?)
}

/// A list is split, where the sizes are dimensions.
fn split_nodes(
    alloc: Global,
    table: &Eqtb,
    list: Nodes,
    size: i64,
    most: i64,
) -> Result<Split, GalleyError>
    requires size { IsDimension size }
    requires most { IsDimension most }
    ensures ok { IfOk result (λ made. spec.nodes_split table.now.table size most list ≡ Ok made) }
    ensures error { IfErr result (λ e. e ≢ OutOfMemory → spec.nodes_split table.now.table size most list ≡ Err (error_of e)) }
{
    let top_skip = table.glue_parameter(GlueParameter::Splittopskip);
    Ok(split(alloc, list, size, most, top_skip)?)
}

/// The list of a box is split, where the sizes are dimensions.
fn split_list(
    alloc: Global,
    table: &mut Eqtb,
    pages: &mut Pages,
    register: u8,
    list: Nodes,
    size: i64,
    most: i64,
) -> Result<Packed, GalleyError>
    requires size { IsDimension size }
    requires most { IsDimension most }
    ensures ok { IfOk result (λ packed. spec.list_split_to register size most list table.old pages.old ≡ Ok (record { packed = packed; table = table.new; pages = pages.new })) }
    ensures error { IfErr result (λ e. e ≢ OutOfMemory → spec.list_split_to register size most list table.old pages.old ≡ Err (error_of e)) }
{
    let params = down(table);
    let Split {
        top,
        rest,
        first,
        last,
    } = split_nodes(alloc, table, list, size, most)?;
    pages.marks.split(first, last);
    keep_rest(alloc, table, register, rest)?;
    pack_top(alloc, &params, top, size, most)
}

/// The list of a box is split, if the size and \splitmaxdepth are dimensions.
fn split_vertical(
    alloc: Global,
    table: &mut Eqtb,
    pages: &mut Pages,
    register: u8,
    list: Nodes,
    size: i64,
) -> Result<Packed, GalleyError>
    ensures ok { IfOk result (λ packed. spec.list_split register size list table.old pages.old ≡ Ok (record { packed = packed; table = table.new; pages = pages.new })) }
    ensures error { IfErr result (λ e. e ≢ OutOfMemory → spec.list_split register size list table.old pages.old ≡ Err (error_of e)) }
{
    let most = i64::from(table.dimension(DimensionParameter::Splitmaxdepth));
    if fits(size) && fits(most) {
        split_list(alloc, table, pages, register, list, size, most)
    } else {
        Err(GalleyError::Refused(TexError::SizeOutOfRange))
    }
}

/// The list of a box that stood in a register is split, unless it is an \hbox.
fn split_found(
    alloc: Global,
    table: &mut Eqtb,
    pages: &mut Pages,
    register: u8,
    found: BoxNode,
    size: i64,
) -> Result<Packed, GalleyError>
    ensures ok { IfOk result (λ packed. spec.splitting_in register size found.list table.old pages.old found.head.direction ≡ Ok (record { packed = Some packed; table = table.new; pages = pages.new })) }
    ensures error { IfErr result (λ e. e ≢ OutOfMemory → spec.splitting_in register size found.list table.old pages.old found.head.direction ≡ Err (error_of e)) }
{
    match found.head().direction {
        Direction::Horizontal => Err(GalleyError::Refused(TexError::MissingBox)),
        Direction::Vertical => {
            let list = found.into_nodes()?;
            split_vertical(alloc, table, pages, register, list, size)
        }
    }
}

/// \vsplit of a register to so many sp (TeX: The Program, section 977): what stands in its box up to the best break is answered as
/// a box, None where the register is void; what remains stands in the register, and the marks of the split are those of what was
/// split off. Table and marks may only be dropped behind an error.
///
/// The errors: `MissingBox` where the register has an \hbox; `SizeOutOfRange` and `InfiniteShrink` of the split; `SizeOutOfRange`
/// and `TooDeep` of the boxes; and want of memory.
pub fn split_box(
    alloc: Global,
    table: &mut Eqtb,
    pages: &mut Pages,
    register: u8,
    size: i32,
) -> Result<Option<Packed>, GalleyError>
    ensures ok { IfOk result (λ packed. spec.splitting register size table.old pages.old ≡ Ok (record { packed = packed; table = table.new; pages = pages.new })) }
    ensures error { IfErr result (λ e. e ≢ OutOfMemory → spec.splitting register size table.old pages.old ≡ Err (error_of e)) }
{
    pages.marks.split(None, None);
    let found = match table.boxed(&Place::Box(register)) {
        Some(found) => found.clone()?,
        None => return Ok(None),
    };
    let size = i64::from(size);
    let packed = split_found(alloc, table, pages, register, found, size)?;
    Ok(Some(packed))
}
