//! TeX's table of equivalents: what every name, active character, register, box register, character code and parameter stands
//! for, and the groups that are open. Contracts see the table as it stands and, for each open group, its kind and the table outside
//! it: a group begins with a copy, and what was outside comes back when it ends. A box register keeps the level at which it was
//! assigned, for what is used up or resized is so in each group that was opened since.
//!
//! Proved: it is a stack of tables: assignments, groups, `same` and `share` are exactly as defined, and so are the values that
//! scans find in it. Only tested: that it begins as INITEX's table does, by what documents show that Knuth's TeX reads alike (the
//! documents of call_cases, tools/check-tex).
//!
//! Read `entry`, what stands at a place; `cells`, `contents`, `boxes`, `shape` and `table`; `seldom` and `parts`, in which the
//! table is shared; `writing`; `initex`, the table at the beginning; `error`, `groups` and `nesting`; and then `eqtb` with
//! `reading`, `stack`, `values` and `known`. Places and meanings are tx_seen's.
#![tactic(auto)]

mod boxes;
mod cells;
mod contents;
mod entry;
mod eqtb;
mod error;
mod groups;
mod initex;
mod known;
mod nesting;
mod parts;
mod reading;
mod seldom;
mod shape;
mod stack;
mod table;
mod values;
mod writing;

pub use contents::BoxContents;
pub use entry::Entry;
pub use eqtb::Eqtb;
pub use error::{CloseError, OpenError};
pub use groups::GroupKind;
pub use shape::ParShape;
