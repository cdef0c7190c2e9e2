//! Formulas as horizontal lists (TeX: The Program, parts 35 and 36; The TeXbook, appendix G). The definitions are to be read in
//! this order: `specs/Styles.antt` and `Parameters.antt`; `Outcomes.antt`, what comes of one part after the other; `Boxes.antt` and
//! `Mu.antt`; `Characters.antt`, `Scripts.antt`, `Lines.antt`, `Operators.antt`, `Delimiters.antt`, `Fractions.antt`,
//! `Radicals.antt` and `Accents.antt`, of what parts are made; `Entries.antt`, `Composing.antt` and `Classes.antt`, what becomes of
//! the items of a list before they are set; `Spacing.antt` and `Fences.antt`; and `Formula.antt`, which puts all of it together.
//!
//! Proved: a formula becomes exactly the list that the definitions make of it, with what is told of it, and each error comes
//! exactly where they have it. Only tested: that the definitions are TeX's.
//!
//! Modules in reading order: `params`, `error`, `packing`, `formula`; `setter`, `styles`, `sums`, `parameters`, `mu`; `boxes`,
//! `centring`; `nucleus`, `characters`, `shifts`, `scripts`, `lines`, `operators`, `limits`, `signs`, `delimiters`, `fractions`,
//! `radicals`; `entry`, `laying`, `kinds`, `pairs`, `stacks`, `composing`, `classes`; `accents`; `piece`, `spacing`, `fences`;
//! `setting`.
#![tactic(auto)]

mod accents;
mod boxes;
mod centring;
mod characters;
mod classes;
mod composing;
mod delimiters;
mod entry;
mod error;
mod fences;
mod formula;
mod fractions;
mod kinds;
mod laying;
mod limits;
mod lines;
mod mu;
mod nucleus;
mod operators;
mod packing;
mod pairs;
mod parameters;
mod params;
mod piece;
mod radicals;
mod scripts;
mod setter;
mod setting;
mod shifts;
mod signs;
mod spacing;
mod stacks;
mod styles;
mod sums;

pub use error::MathError;
pub use formula::Formula;
pub use params::{FamilyFonts, MathParams, MathSize};
pub use setting::to_hlist;
