//! Vertical lists in groups of their own that become no box: those of \insert (TeX: The Program, sections 1099 and 1100), and that
//! of \output (section 1025).
ghost use Rattle.std.specs.Prelude.{◌≡◌, ◌∷◌, [], IfOk, OnOk};
ghost use Rattle.tx_eqtb.specs.declared.eqtb.Eqtb.{Eqtb};
ghost use Rattle.tx_node.specs.Items.{insertion, items_of};
ghost use Rattle.tx_box.specs.Effects.{told};
ghost use Rattle.tx_box.specs.Inserts as spec;
ghost use Rattle.tx_box.specs.Sources.{appended};

use crate::building::{leave_list, reset_shape};
use crate::opening::open_group;
use crate::parameters::down;
use crate::parts::{Done, Lists};
use std::alloc::{AllocError, Global};
use tx_eqtb::{Eqtb, GroupKind};
use tx_nest::{ModeList, append_item};
use tx_node::{BoxNode, InsertHead, Node, Nodes};
use tx_num::{GREATEST_DIMENSION, Glue, Range};
use tx_pack::{Goal, PackError, Packed, vpack};
use tx_prim::{DimensionParameter, GlueParameter, IntegerParameter, Mode};
use tx_seen::TexError;

/// What an insertion takes from the table inside its group, in sp (TeX: The Program, section 1100).
#[derive(Clone, Copy)]
pub struct InsertParams {
    /// \splittopskip, \splitmaxdepth and \floatingpenalty.
    pub split_top_skip: Glue,
    pub split_max_depth: i32,
    pub floating_penalty: i32,
}

/// What an insertion takes from the table, where its group is about to end.
pub fn insert_params(table: &Eqtb) -> InsertParams
    ensures { result ≡ spec.insert_params table.now.table }
{
    InsertParams {
        split_top_skip: table.glue_parameter(GlueParameter::Splittopskip),
        split_max_depth: table.dimension(DimensionParameter::Splitmaxdepth),
        floating_penalty: table.integer(IntegerParameter::Floatingpenalty),
    }
}

/// A vertical list begins in the list that is being built, in a group of this kind, and paragraphs in it have the plain shape.
/// `TooManyGroups` exactly where 255 are open. After want of memory, its only further error, lists and table may only be dropped,
/// here and in what follows.
pub fn begin_vertical(
    alloc: Global,
    lists: &mut Lists,
    table: &mut Eqtb,
    group: GroupKind,
) -> Result<Done, AllocError>
    ensures { IfOk result (λ done. spec.beginning_vertical group lists.old table.old ≡ told done lists.new table.new) }
{
    if !open_group(table, group)? {
        return Ok(Done::Wrong(TexError::TooManyGroups));
    }
    reset_shape(table)?;
    let list = ModeList::within(alloc, Mode::InternalVertical, lists.nest.innermost());
    lists.nest.push(list)?;
    Ok(Done::Whole)
}

/// The vertical list of such a group, which has ended, leaves the lists; None where no list waits around it, which no command
/// makes.
pub fn end_vertical(lists: &mut Lists) -> Option<Nodes>
    ensures { spec.IsLeft (spec.left_vertical lists.old) result lists.new }
{
    if lists.nest.is_outermost() {
        return None;
    }
    Some(leave_list(&mut lists.nest))
}

/// The height and depth of a box together, in sp.
pub fn whole_size(found: &BoxNode) -> i64
    ensures { result ≡ spec.whole_size found.now.head }
{
    let head = found.head();
    i64::from(head.height) + i64::from(head.depth)
}

/// What an insertion of this class keeps, of so many sp.
fn insert_head(class: u8, params: InsertParams, size: i32) -> InsertHead
    ensures { result ≡ spec.insert_head class params size }
{
    InsertHead {
        class,
        size,
        split_top_skip: params.split_top_skip,
        split_max_depth: params.split_max_depth,
        floating_penalty: params.floating_penalty,
    }
}

/// An insertion stands at the end of the list that is being built. Its only error is want of memory.
fn append_headed(
    alloc: Global,
    lists: &mut Lists,
    head: InsertHead,
    list: Nodes,
) -> Result<(), AllocError>
    ensures { OnOk result (lists.new ≡ appended lists.old (insertion head (items_of list) ∷ [])) }
{
    let node = Node::from_insertion(alloc, head, list)?;
    append_item(lists.nest.top(), node)
}

/// The same of one of so many sp, if that is a dimension.
fn append_sized(
    alloc: Global,
    lists: &mut Lists,
    class: u8,
    params: InsertParams,
    list: Nodes,
    size: i64,
) -> Result<Done, AllocError>
    ensures { (table : Eqtb) → IfOk result (λ done. spec.inserting_sized class params lists.old table list size ≡ told done lists.new table) }
{
    if !Range::Dimen.holds(size) {
        return Ok(Done::Wrong(TexError::SizeOutOfRange));
    }
    append_headed(alloc, lists, insert_head(class, params, size as i32), list)?;
    Ok(Done::Whole)
}

/// An insertion of a list that is packed stands at the end of the list that is being built, if its size is a dimension; \badness is
/// that of the packing.
fn append_insertion(
    alloc: Global,
    lists: &mut Lists,
    class: u8,
    params: InsertParams,
    packed: Packed,
) -> Result<Done, AllocError>
    ensures { (table : Eqtb) → IfOk result (λ done. spec.inserting class params lists.old table packed ≡ told done lists.new table) }
{
    let Packed { node, badness, .. } = packed;
    lists.badness = badness;
    let size = whole_size(&node);
    append_sized(alloc, lists, class, params, node.into_nodes()?, size)
}

/// A list becomes an insertion at the end of the list that is being built, as large as it is when it is packed naturally.
fn insert_list(
    alloc: Global,
    lists: &mut Lists,
    table: &Eqtb,
    class: u8,
    params: InsertParams,
    list: Nodes,
) -> Result<Done, AllocError>
    ensures { IfOk result (λ done. spec.inserting_list class params lists.old table.now list ≡ told done lists.new table.now) }
{
    match vpack(alloc, list, Goal::Natural, GREATEST_DIMENSION, &down(table)) {
        Ok(packed) => append_insertion(alloc, lists, class, params, packed),
        Err(PackError::SizeOutOfRange) => Ok(Done::Wrong(TexError::SizeOutOfRange)),
        Err(PackError::TooDeep) => Ok(Done::Wrong(TexError::TooDeep)),
        Err(PackError::OutOfMemory) => Err(AllocError),
    }
}

/// The list of an \insert of this class ends, whose group has ended: this is the table around it. Packed naturally it tells the
/// size of the insertion that is appended to the list around. `ExtraGroupEnd` where no list waits around, which no command makes;
/// else `SizeOutOfRange` and `TooDeep` where the list can't be packed, or where its size is no dimension.
pub fn end_insert(
    alloc: Global,
    lists: &mut Lists,
    table: &Eqtb,
    class: u8,
    params: InsertParams,
) -> Result<Done, AllocError>
    ensures { IfOk result (λ done. spec.ending_insert class params lists.old table.now ≡ told done lists.new table.now) }
{
    match end_vertical(lists) {
        Some(list) => insert_list(alloc, lists, table, class, params, list),
        None => Ok(Done::Wrong(TexError::ExtraGroupEnd)),
    }
}
