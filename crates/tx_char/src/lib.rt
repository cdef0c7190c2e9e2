//! What TeX's eyes see of a character: its category, the table that gives each of the 256 character codes its
//! category, and the tokens that reading makes of characters.
//!
//! Proved: the table begins as stated and changes only where it is changed, and shared copies don't see it; the number that a
//! name keeps is that of its bytes. Only tested: that the table begins as INITEX's does.
//!
//! Read `category` and `table`, then `short`, `letters` and `name`, the names of control sequences, then `tokens`.
#![tactic(auto)]

mod category;
mod letters;
mod name;
mod short;
mod table;
mod tokens;

pub use category::Cat;
pub use letters::mixed;
pub use name::ControlName;
pub use table::Codes;
pub use tokens::Token;
