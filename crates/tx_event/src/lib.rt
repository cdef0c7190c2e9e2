//! What passes between a machine and the outside at each turn: what it asks and what is replied, the pages that it ships, and why it
//! stops. What stands below the seam names these, and needs nothing of runs and files.
//!
//! Types alone; `specs/Turns.antt` says what a state is ready for, and what one turn gives.
#![tactic(auto)]

pub mod types;

pub use types::{Ask, AskKind, Event, Reply, Stop};
