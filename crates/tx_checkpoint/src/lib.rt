//! A run as rows, a page each: what its turns read of the files, and the state after it. After changes of files, formatting
//! resumes at the last row up to which they leave all reads as they are, over any machine.
//!
//! Proved: the laws by which formatting may resume, over any machine, that `Rows::resume_at` and `Rows::stands` find exactly
//! these places, and `Rows::locate` and `locate_between` the page by which a place of a file is first read. Nothing is left to tests.
//!
//! Read `row`, `format` and `behind` (how rows are made, and where a page begins behind some), `rows` (where to resume),
//! `located` and `laws` (why that is right); the definitions are in specs/.
#![tactic(auto)]

pub mod behind;
pub mod format;
pub mod laws;
pub mod located;
pub mod row;
pub mod rows;

pub use behind::{fresh_rows, spot_behind};
pub use format::{format_row, format_rows};
pub use located::Located;
pub use row::{Formatted, Last, Row, Rows};
pub use rows::locate_between;
