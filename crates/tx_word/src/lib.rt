//! Words and the spaces between them as items of a list (TeX: The Program, sections 1029 to 1045; The TeXbook, chapter 12): each
//! word as the ligatures and kerns of its font compose it, each space as glue at its space factor. `specs/Spaces.antt` says what
//! glue that is, `specs/Words.antt` what a word becomes, and `specs/Divisions.antt` what places for hyphens make of it;
//! `specs/Collecting.antt` how a mode collects words, `specs/Points.antt` what `\-` is, and `specs/Accents.antt` where an accent
//! stands above a character.
//!
//! Proved: pieces become the list that the rules make of them, which allow no other, and `SizeOutOfRange` comes exactly where a
//! size of some space's glue is no dimension; a word that is collected grows and ends as its definition says, all its characters
//! being in its font. Only tested: that the rules are TeX's, on documents that his program sets alike.
//!
//! Read `piece`, `error`, `asked`, `factor`, `space`, `word`, `division`, `dividing`, `seam`, `divide`, `typeset`, `point`, `accent`,
//! `open`, `italic`.
#![tactic(auto)]

mod accent;
mod asked;
mod divide;
mod dividing;
mod division;
mod error;
mod factor;
mod italic;
mod open;
mod piece;
mod point;
mod seam;
mod space;
mod typeset;
mod word;

pub use accent::{Accent, accent_of, accented, is_boxed};
pub use asked::are_pieces;
pub use divide::append_divided;
pub use error::WordError;
pub use factor::factor_behind;
pub use italic::last_italic;
pub use open::{OpenWord, Words};
pub use piece::{Piece, Places, WordParams};
pub use point::{HyphenPoint, discretionary_hyphen, hyphen_lacking};
pub use space::{interword_glue, space_between};
pub use typeset::nodes;
