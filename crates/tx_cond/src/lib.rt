//! TeX's conditionals: which \if.. are open and what each of them waits for, the skipping of text that no branch takes, and
//! the tests.
//!
//! Proved: skipping, the list of open conditionals, and what each test reads and comes to, are exactly as defined; and
//! skipping by a count ends at the first word that belongs to no conditional within the text. Only tested: that the definitions are
//! Knuth's, on texts that his program skips and expands alike.
//!
//! Read `types`, `skipper` and `laws`, then `stage` and `stack`; and `test`, `comparand`, `comparing` and `testing`.
#![tactic(auto)]

mod comparand;
mod comparing;
mod laws;
mod skipper;
mod stack;
mod stage;
mod test;
mod testing;
mod types;

pub use laws::skipping_counts_conditionals;
pub use skipper::Skipper;
pub use stack::CondStack;
pub use test::TestScan;
pub use types::{Conditional, Meet, SkipItem};
