//! Hyphenation of a list (TeX: The Program, part 40, sections 891 to 903; The TeXbook, appendix H): the words of a paragraph's list
//! are found, and get discretionaries at the places that patterns and exceptions permit. `specs/Finding.antt` says which items
//! behind glue are a word, `specs/Hyphenated.antt` what the list becomes, `specs/Lacking.antt` what the transcript gets where a
//! font lacks its hyphen, and `specs/Texts.antt` what \patterns and \hyphenation add.
//!
//! Proved: a list becomes what the definitions make of it, the transcript gets what they tell, and what is known grows as they say.
//! Only tested: that they are TeX's.
//!
//! Read `params`, `kind`, `find`, `places`, `lacking`, `made`, `run`, `hyphenate`; last `known`.
#![tactic(auto)]

mod find;
mod hyphenate;
mod kind;
mod known;
mod lacking;
mod made;
mod params;
mod places;
mod run;

pub use hyphenate::hyphenated;
pub use known::Hyphenation;
pub use lacking::{report_lacking, report_missing};
pub use params::HyphenParams;
