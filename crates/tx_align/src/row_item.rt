//! What stands in the rows of an alignment.
use std::alloc::AllocError;
use tx_list::Kept;
use tx_node::Nodes;

/// An item of an alignment behind its preamble (TeX: The Program, sections 785 to 799).
#[derive(Drop)]
pub enum RowItem {
    /// A cell of so many columns, at least 1, with its horizontal list.
    Cell { span: u32, list: Nodes },
    /// The end of a row.
    RowEnd,
    /// The vertical list of a \noalign, or other vertical material between rows: leading, and what left the cells of a row.
    NoAlign(Nodes),
}

impl Kept for RowItem {
    fn share(&self) -> Result<Self, AllocError> {
        match self {
            RowItem::Cell { span, list } => Ok(RowItem::Cell {
                span: *span,
                list: list.clone()?,
            }),
            RowItem::RowEnd => Ok(RowItem::RowEnd),
            RowItem::NoAlign(list) => Ok(RowItem::NoAlign(list.clone()?)),
        }
    }

    fn same(&self, other: &Self) -> bool {
        match (self, other) {
            (
                RowItem::Cell { span, list },
                RowItem::Cell {
                    span: other_span,
                    list: other_list,
                },
            ) => span == other_span && list.same(other_list),
            (RowItem::RowEnd, RowItem::RowEnd) => true,
            (RowItem::NoAlign(list), RowItem::NoAlign(other_list)) => list.same(other_list),
            _ => false,
        }
    }
}
