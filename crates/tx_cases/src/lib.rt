//! Worked cases as texts, which a program of this repository runs in the gate. A text begins with lines of `##`, which say
//! what its cases are. Behind them stand blocks, each of which begins with a line of `== ` and a name. A block is
//!
//! - one case, where it has a line `--`: what is given stands before that line, what is expected behind it; or else
//! - a case a line, with ` => ` between what is given and what is expected. Empty lines and those of `##` are passed over.
//!
//! What is given is answered by a text. A case that is answered otherwise, or is none, is shown with its name and both
//! answers, and at last comes a line with how many cases there were.
//!
//! Read `words` and `notation`, then `running`.
#![tactic(auto)]

mod notation;
mod running;
mod words;

pub use notation::{bytes_of, write_bytes, write_hexadecimal};
pub use running::{Answers, run_files};
pub use words::{first_line, first_word, integers};
