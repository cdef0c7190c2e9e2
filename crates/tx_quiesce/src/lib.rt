//! Why a list of changes is done at some page, and how: from a new row that meets an old one on, the rest comes out the same, and
//! is reused with its offsets moved.
//!
//! Proved: the laws that equal states with files that read on alike give the same rest, and that the run on the changed files is
//! made of the rows that the changes leave, new ones up to the first meeting and old ones, moved; `meets` exactly as defined,
//! `relocate` exactly the shift, formatting exactly up to the first meeting, and the rows that are then made. Nothing is left to
//! tests.
//!
//! Read `meeting` (when two rows meet), `tails`, `search` and `front` (formatting until they do), `moving` (how the reused rows
//! move with changes), `further` and `later` (what comes behind them), `splice` and `carry` (the rows after changes), and `laws`
//! (why that is right); the definitions are in specs/.
#![tactic(auto)]

pub mod carry;
pub mod front;
pub mod further;
pub mod later;
pub mod laws;
pub mod meeting;
pub mod moving;
pub mod search;
pub mod splice;
pub mod tails;

pub use carry::reuse_rows;
pub use further::Further;
pub use later::{Later, format_later};
pub use meeting::meets;
pub use moving::relocate;
