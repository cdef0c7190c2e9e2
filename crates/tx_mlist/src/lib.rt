//! Lists of mathematics, before they are set (TeX: The Program, part 34): atoms with their scripts, fractions, delimiters, choices
//! by style, changes of style, and what else stands in a formula. What has lists in it keeps how deep they nest, which the groups
//! of a document bound; clones of a list share what they have.
//!
//! Proved: a list is what was put into it; scripts, limits, fractions, groups and what stands between delimiters become what
//! `specs/Building.antt` makes of them; and two lists are the same exactly where they are equal. Only tested: that this is what TeX
//! does, by the worked lists of `proofs/Worked.antt` and by tools/check-formulas.
//!
//! Modules in reading order: `kinds`, `plain`, `noad`, `error`, `mlist`, `measure`, `same`, `above`, `building`, `choices`.
#![tactic(auto)]

mod above;
mod building;
mod choices;
mod error;
mod kinds;
mod measure;
mod mlist;
mod noad;
mod plain;
mod same;

pub use above::Above;
pub use building::{bare, delimiter_of, kind_of, letter_of, plain_head};
pub use choices::no_choice;
pub use error::MlistError;
pub use kinds::{AtomKind, Delimiter, FractionHead, Limits, MathCharacter, Place};
pub use mlist::Mlist;
pub use noad::{Atom, Choice, Field, Fraction, InnerList, Noad};
pub use plain::PlainNoad;
