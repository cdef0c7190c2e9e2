//! What is known of an alignment while it is read.
ghost use Rattle.std.specs.Prelude.{◌≡◌, ◌↔◌, IsTrue, IfOk};
ghost use Rattle.tx_tabular.specs.Alignments as spec;

use std::alloc::{AllocError, Global};
use tx_align::{Preamble, RowItem, Rows};
use tx_list::{Items, Kept, both};
use tx_node::Nodes;
use tx_num::Glue;
use tx_prim::EntryEnd;
use tx_shape::BoxGoal;

/// An alignment that is being read.
pub struct Alignment {
    pub preamble: Preamble,
    /// What stands behind the preamble, up to the row that is being read.
    pub rows: Rows,
    /// What the preamble is set to.
    pub goal: BoxGoal,
    /// The column in which the entry stands, counted from 0; of those that it spans the last.
    pub column: u32,
    /// How many columns the entry spans so far.
    pub span: u32,
    /// What ends the entry, while its v-part is read.
    pub ending: Option<EntryEnd>,
    /// Whether the entry begins with \omit.
    pub omitted: bool,
    /// Whether the list that is being built between rows begins with what stands for a row.
    pub behind_row: bool,
    /// The entries of the row that are whole, and what leaves them.
    pub cells: Items<RowItem>,
    pub leaving: Nodes,
    /// The level of braces around the alignment.
    pub outer: i64,
}

// (by hand, so that crates above call this and don't prove again how each part is dropped)
impl Drop for Alignment {
    fn drop(self) {
        let Alignment {
            preamble: _,
            rows: _,
            goal: _,
            column: _,
            span: _,
            ending: _,
            omitted: _,
            behind_row: _,
            cells: _,
            leaving: _,
            outer: _,
        } = self;
    }
}

impl Alignment {
    /// An alignment of which nothing is read, where \tabskip is this glue. It takes no memory.
    pub fn new(alloc: Global, goal: BoxGoal, tabskip: Glue, outer: i64) -> Alignment
        ensures { result ≡ spec.nothing_read goal tabskip outer }
    {
        Alignment {
            preamble: Preamble::new(alloc, tabskip),
            rows: Rows::new(alloc),
            goal,
            column: 0,
            span: 1,
            ending: None,
            omitted: false,
            behind_row: false,
            cells: Items::new(alloc),
            leaving: Nodes::new(alloc),
            outer,
        }
    }

    /// The preamble and the rows.
    pub(crate) fn into_rows(self) -> (Preamble, Rows)
        ensures { result ≡ (self.preamble, self.rows) }
    {
        let Alignment {
            preamble,
            rows,
            goal: _,
            column: _,
            span: _,
            ending: _,
            omitted: _,
            behind_row: _,
            cells: _,
            leaving: _,
            outer: _,
        } = self;
        (preamble, rows)
    }
}

/// Whether both entries stand in the same place, and end alike.
fn same_place(one: &Alignment, other: &Alignment) -> bool
    ensures { IsTrue result ↔ spec.IsSamePlace one.now other.now }
{
    one.goal == other.goal
        && one.column == other.column
        && one.span == other.span
        && one.ending == other.ending
        && one.omitted == other.omitted
        && one.behind_row == other.behind_row
        && one.outer == other.outer
}

/// Whether both have read the same.
fn same_parts(one: &Alignment, other: &Alignment) -> bool
    ensures { IsTrue result ↔ spec.AreSameParts one.now other.now }
{
    one.preamble.same(&other.preamble)
        && one.rows.same(&other.rows)
        && one.cells.same(&other.cells)
        && one.leaving.same(&other.leaving)
}

impl Kept for Alignment {
    fn share(&self) -> Result<Self, AllocError> {
        let (preamble, rows) = both(self.preamble.share(), self.rows.share())?;
        let (cells, leaving) = both(self.cells.share(), self.leaving.clone())?;
        Ok(Alignment {
            preamble,
            rows,
            goal: self.goal,
            column: self.column,
            span: self.span,
            ending: self.ending,
            omitted: self.omitted,
            behind_row: self.behind_row,
            cells,
            leaving,
            outer: self.outer,
        })
    }

    fn same(&self, other: &Self) -> bool {
        same_place(self, other) && same_parts(self, other)
    }
}
