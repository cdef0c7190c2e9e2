//! Breaking vertical lists: \vsplit, and inserts that are split (TeX: The Program, part 44; The TeXbook, chapters 15 and 23).
//!
//! Proved: the break is the last one of least cost among those that are tried, and what stands before and behind it is exactly
//! as defined, and so is each error. What items are, where breaks are legal, sums and costs are the same for a page, and public.
//! Only tested: that the definitions are TeX's, on lists that Knuth's TeX splits so.
//!
//! Modules in reading order: `error`, `kind`, `sums`, `trial`, `breaking`, `marks`, `pruning`,
//! `answer`, `splitting`.
#![tactic(auto)]

mod answer;
mod breaking;
mod error;
mod kind;
mod marks;
mod pruning;
mod splitting;
mod sums;
mod trial;

pub use answer::Split;
pub use breaking::vbreak;
pub use error::SplitError;
pub use kind::{Kind, is_glue, kind_of, penalty_at, shrinks_endlessly, stays};
pub use marks::{first_mark, last_mark};
pub use pruning::{glue_above, remaining};
pub use splitting::{divide, split};
pub use sums::{Sums, glue_fits, no_sums, with_elastic, with_item};
pub use trial::{Break, Trial, badness_at, better, no_break, trial_of};
