//! What TeX prints as tokens: the texts of \string, \meaning, \number, \romannumeral, \jobname, \fontname and \the, each a list of
//! characters of category 12, and of category 10 where one is a blank (The TeXbook, chapter 20; TeX: The Program, part 27); and
//! tokens as messages print them.
//!
//! Proved: each call puts exactly the tokens of its text behind those that are there, and messages print tokens exactly as defined.
//! Only tested: that the texts are Knuth's, on tokens that his program prints alike.
//!
//! Read `texts`, then `numerals`, `jobs`, `fonts`, `messages`, `shown` and `meanings`.
#![tactic(auto)]

mod fonts;
mod jobs;
mod meanings;
mod messages;
mod numerals;
mod shown;
mod texts;

pub use fonts::push_font_name;
pub use jobs::push_job_name;
pub use meanings::{push_mark, push_meaning};
pub use messages::text_of;
pub use numerals::{push_glue, push_number, push_roman, push_size};
pub use texts::{push_string, push_text};
