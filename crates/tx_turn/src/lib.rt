//! One turn of TeX, and many at one go (TeX: The Program, section 1030): due work, the ask for a line, or one token and its
//! expansion, which joins the open text or the open command. What a command that is whole does, and all else beyond reading, is asked
//! of a `Stomach`.
//!
//! Proved, whatever the stomach is: each turn is the defined step, also at one go, and the machine of these turns keeps the laws of
//! every machine. Only tested: that the reading is TeX's, on documents that Knuth's TeX reads alike. The state is tx_state's, and how
//! commands are taken off tokens tx_command's.
//!
//! What touches a part or two of the state takes these, and its contract tells what comes of any state that has them: a signature
//! with the whole state is dear to prove.
//!
//! Read `stomach`, `page`, `beginning` and `turn`; `going` and `main_loop`, turns at one go.
#![tactic(auto)]

mod beginning;
mod going;
mod main_loop;
mod page;
mod stomach;
mod turn;

pub use beginning::begin;
pub use going::Going;
pub use main_loop::run_on;
pub use stomach::Stomach;
pub use turn::{answer, due_cost, take_turn};
