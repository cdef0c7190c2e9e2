//! Commands, read token by token (TeX: The Program, part 46): whether a command may stand in a mode and behind prefixes, what its
//! family takes, and what comes of it as data, with nothing carried out.
//!
//! Proved: a command is read exactly as the grammar of tokens and values says, with the values that it needs as the table has
//! them, and the tokens that it didn't need stand before the input again. Only tested: that the grammars are TeX's, on commands
//! worked out by hand and on documents that Knuth's TeX reads alike.
//!
//! What commands are, their grammar, and a command that is open are tx_command's. Read `standing`, what may stand where; `mapping`
//! and `stage`, what one token makes of a command; `taking`, a token with the values that are needed behind it; last `single`,
//! commands that are one token.
#![tactic(auto)]

mod mapping;
mod single;
mod stage;
mod standing;
mod taking;

pub use single::{AtOnce, at_once};
pub use taking::Reader;
