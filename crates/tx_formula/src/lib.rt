//! The commands of formulas, carried out on TeX's state (TeX: The Program, part 48).
//!
//! Proved: what each command does to the state, what the end of a formula, of a display or of a group in one makes of its list, and
//! exactly when each error comes. Only tested: that this is what TeX does, on documents that Knuth's TeX sets alike (call_cases,
//! tools/check-formulas).
//!
//! Read `error` and `kinds`; `noads`, `characters`, `atoms`; `lists`, `groups`, `delimiters`; `params`, `shifts`; `display_lists`,
//! `displays`.
#![tactic(auto)]

mod atoms;
mod characters;
mod delimiters;
mod display_lists;
mod displays;
mod error;
mod groups;
mod kinds;
mod lists;
mod noads;
mod params;
mod shifts;

pub use atoms::{begin_atom, begin_choice, begin_script, divide, set_limits};
pub use characters::{set_character, set_number};
pub use delimiters::{await_delimiter, divide_sized, set_coded, set_delimiter};
pub use displays::{begin_display, begin_number, end_display, go_on_behind_display};
pub use groups::{begin_group, end_choice, end_part, open_formula};
pub use kinds::{style_of, thickness_of};
pub use noads::add_noad;
pub use shifts::{begin_text, shift};
