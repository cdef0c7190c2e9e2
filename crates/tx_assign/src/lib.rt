//! Assignments to TeX's table (The TeXbook, chapter 24; TeX: The Program, part 49): they are scanned token by token, with
//! the values that they need, and carried out on the table. Prefixes, and the names that \chardef and its kin define, are
//! read before by the caller.
//!
//! Proved: an assignment is read exactly as the grammar of tokens and values says, with no more values than tokens and one,
//! and carried out exactly as defined. Only tested: that grammar and ranges are TeX's, on documents that Knuth's TeX reads
//! alike.
//!
//! Read `types` and `begin`, what stands on left sides; `target`, in what ranges values are; `scan`, `stage`, `naming`,
//! `values`, `lists` and `giving`, how an assignment is read; and `carrying`, how it is carried out. `clones` has clones of
//! scans; scans of numbers are tx_scan's.
#![tactic(auto)]

mod begin;
mod carrying;
mod clones;
mod giving;
mod lists;
mod naming;
mod scan;
mod stage;
mod target;
mod types;
mod values;

pub use carrying::{carry_out, is_global, relaxed, with_text};
pub use scan::AssignScan;
pub use types::{Assigning, Assignment, Carried, Change, Purpose, Variable};
