//! Expansion (The TeXbook, chapter 20; TeX: The Program, parts 24, 25 and 28 to 30): tokens are taken off the input, and what is
//! expanded is replaced in its front, without recursion: a list keeps what has begun, the innermost first.
//!
//! Proved: each turn answers, and leaves of the input, of what has begun and of the conditionals, exactly what is defined; so
//! does what comes before the first line of a file, and the error where a file ends; and each quantity that may be asked for is
//! that of the list that is being built or of the table (TeX: The Program, sections 413 to 424). Only tested: that the definitions
//! are Knuth's, on cases worked out by hand, most of them seen in his program (`proofs/Worked.antt`).
//!
//! Read `known` and `values`, what expansions, tests and scans may ask for; `types` and `begun`; `part`, `mapping`, `feeding` and
//! `scanning`; `step`, `using` and `printing`; then `state`, `innermost`, `expanding`, `taking`, `reading`,
//! `entries`, `kept` and `expander`.
#![tactic(auto)]

mod begun;
mod entries;
mod expander;
mod expanding;
mod feeding;
mod innermost;
mod kept;
mod known;
mod mapping;
mod part;
mod printing;
mod reading;
mod scanning;
mod state;
mod step;
mod taking;
mod types;
mod using;
mod values;

pub use begun::Begun;
pub use entries::{entry_end, part_end};
pub use known::Known;
pub use printing::escape_of;
pub use scanning::Scanning;
pub use state::Expander;
pub use types::{Destination, Expanded, Made, Printed, Read, Scanned, Wanted};
pub use using::Using;
pub use values::may_magnify;
