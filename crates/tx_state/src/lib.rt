//! TeX's state: all its parts, copies of it that go on by themselves, whether two mean the same, how a turn ends, and how groups
//! begin and end.
//!
//! Proved: a copy means what the state does, `same_state` is exactly equality of meanings, and what ends a turn is the defined
//! outcome; in `specs/` also what comes of a turn. Only tested: that this is TeX's, on documents that Knuth's TeX reads alike.
//!
//! A turn's event may end the run by an error; what the turn had put on the transcript before it met that stays there. After
//! `Err(AllocError)`, here and in the crates that carry commands out on the state, the state may only be dropped.
//!
//! Read `parts`, `text`, `state`, `ending`, `groups` and `standing`; last `share` and `same`. What needs nothing of commands and
//! expansion stands in tx_parts.
#![tactic(auto)]

mod ending;
mod groups;
mod parts;
mod same;
mod share;
mod standing;
mod state;
mod text;

pub use ending::{
    add, ask, carry_out_assignment, end_assignment, fail, finish, finish_assignment, next_head,
};
pub use groups::{leave_group, open, open_group};
pub use parts::Phase;
pub use same::same_state;
pub use share::share_state;
pub use standing::{OUTSIDE, stand, stand_before_row};
pub use state::State;
pub use text::text_wanted;
pub use tx_parts::{Due, FontRequest, KeptToken, OpenText, is_global, push_work};
