//! TeX's eyes: the line that TeX sees of the bytes of a file, and one line to tokens (TeX: The Program, part 24; The
//! TeXbook, chapters 7 and 8).
//!
//! Proved: the token, rest and state are exactly the defined ones, and follow the rules of reading, which allow no other.
//! Only tested: that the rules are Knuth's.
//!
//! Read `line`, `types`, `notation`, `characters`, `known`, `names`, `lexer`, `plain`, then `rules`.
#![tactic(auto)]

mod characters;
mod known;
mod lexer;
mod line;
mod names;
mod notation;
mod plain;
mod rules;
mod types;

pub use known::{KnownNames, NoNames};
pub use lexer::{lex, lex_on};
pub use line::line_text;
pub use plain::first_plain;
pub use rules::the_rules_leave_no_choice;
pub use types::{Lexed, PlainToken, ReadState};
