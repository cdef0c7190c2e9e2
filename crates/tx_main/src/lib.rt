//! TeX as a machine (TeX: The Program, part 46): what its commands do, and its turns, which are those of tx_turn with these commands.
//!
//! Proved: each turn is the defined step, also at one go. Only tested: that the effects are TeX's, on documents that Knuth's TeX
//! reads alike. The state is tx_state's; what most commands do stands in tx_lettering, for characters, words, fonts and texts, in
//! tx_boxing, for boxes, groups, pages and paragraphs, in tx_formula, for formulas, and in tx_aligning, for alignments.
//!
//! What touches a part or two of the state takes these, and its contract tells what comes of any state that has them: a signature
//! with the whole state is dear to prove.
//!
//! Read `effects`, `letters`, `stomach` and `machine`.
#![tactic(auto)]

mod effects;
mod letters;
mod machine;
mod stomach;

pub use stomach::Tex;
pub use tx_seen::TexError;
pub use tx_state::State;
