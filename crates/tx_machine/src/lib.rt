//! The seam between TeX and everything that knows of files and edits: a machine takes turns, asks for files and lines,
//! ships pages and stops. Below it stands TeX, above it the increments, and neither knows the other. A machine may take many turns
//! at one go, up to one of which the outside has to know: a run is the same however many it takes so.
//!
//! Proved: a fresh run is the defined one, over any machine, `steps` rises by exactly its turns, and it ends within its
//! budget. Nothing is left to tests.
//!
//! Read `types` and `lists` (what passes over the seam), `machine` (the trait), `steps` (the count of turns), `opens` (how asks are
//! answered), `spot` (what a run goes on with), then `turn` and `run`: the fresh run, to which everything above is held.
#![tactic(auto)]

pub mod lists;
pub mod machine;
pub mod opens;
pub mod run;
pub mod spot;
pub mod steps;
pub mod turn;
pub mod types;

pub use lists::{Opens, Pages, Pieces};
pub use machine::Machine;
pub use run::fresh_run;
pub use steps::{CountsTurns, Steps};
pub use tx_event::{Ask, AskKind, Event, Reply, Stop};
pub use types::{Close, Date, End, Limits, OpenFile, Passed, Ran};
