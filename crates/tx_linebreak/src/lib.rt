//! Line breaking: where a paragraph's list is broken into lines, so that the demerits of all its lines together are least
//! (TeX: The Program, parts 38 and 39; The TeXbook, chapter 14). A list is seen here as `Piece`s: what breaking asks of its
//! nodes.
//!
//! `specs/` says what is chosen, as sets and chains: legal breaks, lines and how they fit, candidates and how long they live,
//! all chains, and the one that is chosen, by \looseness too. `breaks` finds it. Proved: its answer is that chain, of all chains of
//! the first pass that has one as long as is asked for; it is enough to keep the best chain of each candidate. Only tested: that
//! the definitions are TeX's, on paragraphs that Knuth's program breaks at the same places.
//!
//! Modules in reading order: `piece`, `params`, `answer`, `error`; `legal`, `totals`, `starts`, `fit`, `demerits`, `attempt`;
//! `line`, `link`, `chains`, `offers`; `trial`, `trials`, `reach`, `advance`; `found`, `loose`, `best`, `told`, `endless`, `ended`,
//! `choice`; `law`.
#![tactic(auto)]

mod advance;
mod answer;
mod attempt;
mod best;
mod chains;
mod choice;
mod demerits;
mod ended;
mod endless;
mod error;
mod fit;
mod found;
mod law;
mod legal;
mod line;
mod link;
mod loose;
mod offers;
mod params;
mod piece;
mod reach;
mod starts;
mod told;
mod totals;
mod trial;
mod trials;

pub use answer::{Chosen, Places};
pub use attempt::discretionary_at;
pub use choice::{breaks, first_breaks};
pub use ended::is_ended;
pub use error::BreakError;
pub use law::one_chain_for_each_candidate_is_enough;
pub use params::{BreakParams, LineShape, Pass, Shape};
pub use piece::{Class, Discretionary, Piece, Pieces};
