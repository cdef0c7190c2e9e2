//! Composing the characters of a word by the ligature and kerning programs of their font (TeX: The Program, sections
//! 545, 906 to 911 and 1034 to 1040). `specs/Composing.antt` says by five rules what a word becomes.
//!
//! Proved: a word becomes exactly what five rules of rewriting make of it, these allow no other answer, and every word
//! ends; what is told to be a seam of a word is one. Only tested: that the rules are TeX's, on words that his program composes
//! alike.
//!
//! Read `item`, `seam`, `seamed`, then `piece`, `ligature`, `noting`, `composing`; `pair`.
#![tactic(auto)]

mod composing;
pub mod item;
mod ligature;
mod noting;
mod pair;
mod piece;
mod seam;
mod seamed;

pub use composing::{compose, compose_with_seams, every_word_ends};
pub use item::{Items, LigItem};
pub use pair::{Met, pair_meets};
pub use seam::{Seam, Seams};
pub use seamed::Seamed;
