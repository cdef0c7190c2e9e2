//! Font metric files (TFM): what a file says of its font, at the size at which it is used, and the first of fifteen rules
//! that a bad file breaks; and the fonts of a run, by their numbers and with their names.
//!
//! Proved: a font is read exactly where none of fifteen rules is broken, else the first broken one is named; each question
//! is its definition on the bytes. Only tested: that the rules are those of TeX's fonts, against tftopl.
//!
//! Modules in reading order: `lengths`, `file`, `scaling`, `commands`, `ligatures`, `rewriting`, `rules`, `metrics`,
//! `characters`, `errors`, `font`, `named`, `parameters`, `state`, `fonts`.
#![tactic(auto)]

mod characters;
mod commands;
mod errors;
mod file;
mod font;
mod fonts;
mod lengths;
mod ligatures;
mod metrics;
mod named;
mod parameters;
mod rewriting;
mod rules;
mod scaling;
mod state;

pub use characters::CharacterMetrics;
pub use errors::FontError;
pub use file::Word;
pub use font::Font;
pub use fonts::Fonts;
pub use named::{LoadedFont, NamedFont};
pub use parameters::Parameters;
pub use rules::Size;
pub use state::FontState;
