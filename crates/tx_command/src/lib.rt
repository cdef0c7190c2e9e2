//! Commands (TeX: The Program, part 46): what they are as data, what stands before them, the grammar by which they are read off the
//! input, and a command of which something is taken. What reads them token by token is tx_reading's.
//!
//! Proved: a command is read exactly as the grammar of tokens and values says, where what takes its tokens does so; what it has
//! taken is told by its mode, what stands before it, and the tokens and values since. Only tested: that the grammars are TeX's, on
//! commands worked out by hand and on documents that Knuth's TeX reads alike.
//!
//! Read `types`; `scans`, what is being read; `buffer`, where a whole command is put; `naming`, whether a file's name is being
//! read; `taken_items`, what was taken; `tokens`, what takes a token; `taking`, open commands; last `clones` and `kept`.
#![tactic(auto)]

mod buffer;
mod clones;
mod kept;
mod naming;
mod scans;
mod taken_items;
mod taking;
mod tokens;
mod types;

pub use buffer::CommandBuffer;
pub use scans::{PreamblePart, RowStart, Scans, Stage, Taken, Whole};
pub use taken_items::TakenItems;
pub use taking::CommandScan;
pub use tokens::TakesTokens;
pub use tx_shape::{AskedSize, BoxContext, BoxGoal};
pub use types::{Command, Delimiting, Head, Prefixes, SizeUse};
