//! The smallest machine behind the seam: each line is a page, but for `(NAME`, which leads to the file of that name, `)`, which
//! leads back, and a full stop, which ends the run; spaces at a line's beginning are passed over, at one go. It shows that the seam
//! isn't TeX's own.
//!
//! Proved: it meets the trait `Machine`, as TeX does. Only tested: its fresh runs and its sessions, worked out by hand.
//!
//! Read `error`, `state`, `turn` and `machine`; what it does is in specs/Turns.antt.
#![tactic(auto)]

mod error;
mod machine;
mod state;
mod turn;

pub use error::LineError;
pub use machine::LineMachine;
pub use state::State;
