//! Lists, the boxes that are packed of them, and what else has lists: discretionaries, adjustments, insertions and leaders of a box
//! (TeX: The Program, part 10). Each keeps how deep boxes nest in it and how many nodes it holds, a box also how many are shipped
//! of it, with each copy that leaders make; clones of a list share its nodes, and clones of a box its list.
//!
//! Proved: a list is what was put into it, a box keeps its head and its list, and its glue is set by what it has of it.
//! Where items stand once glue is set, and the copies of leaders, is defined here, in specs/, for all who place them. Only tested:
//! nothing.
//!
//! Modules in reading order: `rule`, `character`, `plain`, `head`, `places`, `node`, `nodes`, `measure`, `same`, `sizes`,
//! `setting`, `reaching`, `copies`.
#![tactic(auto)]

mod character;
mod copies;
mod head;
mod measure;
mod node;
mod nodes;
mod places;
mod plain;
mod reaching;
mod rule;
mod same;
mod setting;
mod sizes;

pub use character::{Character, Ligature};
pub use head::{BoxHead, BreakHead, Change, Direction, GlueSet, InsertHead, LeadersHead, Setting};
pub use node::{BoxLeaders, BoxNode, Discretionary, Insertion, Node, Sublist};
pub use nodes::Nodes;
pub use places::{Copies, Reached};
pub use plain::{KernKind, Leaders, LeadersKind, Plain, Shared};
pub use rule::Rule;
pub use same::{same_box, same_character, same_list, same_rule};
pub use setting::glue_part;
pub use sizes::side;
