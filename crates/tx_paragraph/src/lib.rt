//! The commands of paragraphs (TeX: The Program, sections 1070 and 1090 to 1096), carried out on the lists that are being built and
//! the table: how a paragraph begins and ends, how a display interrupts it (sections 1145 to 1149), and the shapes of its lines.
//!
//! Proved: what each command makes of the lists and the table, and exactly when each error comes. Only tested: that this is what
//! TeX does.
//!
//! Read `last_line` and `parameters`, `beginning`, `shapes`, `hyphens`, `ending` and `interrupting`.
#![tactic(auto)]

mod beginning;
mod ending;
mod hyphens;
mod interrupting;
mod last_line;
mod parameters;
mod shapes;

pub use beginning::indent;
pub use ending::{close_paragraph, end_paragraph, paragraph_error};
pub use hyphens::lower_codes;
pub use interrupting::{Interruption, interrupt_paragraph};
