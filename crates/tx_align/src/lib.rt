//! Alignments (TeX: The Program, part 37; The TeXbook, chapter 22): a preamble, which is read item by item, with the u- and v-parts
//! of its columns; the rows, which are kept until the alignment ends; and what they become then: columns get their widths, the
//! preamble's box is packed to them, and each row is set by that.
//!
//! Proved: each answer to an item of a preamble, and what is read of it then, is as defined, so that a preamble is read as it is
//! written; a column past the last has the parts of the one that it repeats; which items may stand in rows; and the widths of
//! columns, the preamble's box, the rows set by it, and each error are exactly as defined. Only tested: that the definitions are
//! TeX's, on alignments that Knuth's TeX sets so.
//!
//! Modules in reading order: `part`, `pre_item`, `column`, `preamble`; `row_item`, `error`, `rows`; `sizes`, `entry`, `meeting`,
//! `grouping`, `sized`, `widths`; `prototype`, `placing`; `cell`, `cells`, `row_boxes`, `between`; `aligned`, `finishing`; `laws`.
#![tactic(auto)]

mod aligned;
mod between;
mod cell;
mod cells;
mod column;
mod entry;
mod error;
mod finishing;
mod grouping;
mod laws;
mod meeting;
mod part;
mod placing;
mod pre_item;
mod preamble;
mod prototype;
mod row_boxes;
mod row_item;
mod rows;
mod sized;
mod sizes;
mod widths;

pub use aligned::Aligned;
pub use column::Column;
pub use error::AlignError;
pub use laws::{entries_leave_room, preambles_are_read_as_written};
pub use part::Part;
pub use pre_item::PreItem;
pub use preamble::Preamble;
pub use row_item::RowItem;
pub use rows::Rows;
