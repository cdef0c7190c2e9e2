//! The commands of characters, words, fonts and texts, carried out on TeX's state (TeX: The Program, parts 46, 47 and 49).
//!
//! Proved: what each command does to the state, what a text that is whole does, what comes of a font's file, and exactly when each
//! error comes. Only tested: that this is what TeX does, on documents that Knuth's TeX sets alike.
//!
//! What touches a part or two of the state takes these, and its contract tells what comes of any state that has them: a signature
//! with the whole state is dear to prove.
//!
//! Read `letters`, `hyphens`, `words`, `accents`, `fonts` and `texts`.
#![tactic(auto)]

mod accents;
mod fonts;
mod hyphens;
mod letters;
mod texts;
mod words;

pub use accents::{begin_accent, end_accent, set_below};
pub use fonts::{
    define_font, find_font, load_font, set_dimension, set_family, set_integer, with_file,
};
pub use texts::{begin_list, begin_text, define_macro, end_text, relax_name};
pub use words::{
    break_word, collect, control_space, correct_italic, current_font, end_word, factor_now,
    pass_factor, set_factor, settle_word, space, word_params,
};
