//! What line breaking sees of a list.
ghost use Rattle.std.specs.Prelude.{◌≡◌};
ghost use Rattle.tx_linebreak.specs.Classes.{class_number};

use tx_num::{Glue, Scaled};

/// What line breaking sees of a node in a paragraph's list. Sizes are in sp.
#[derive(Clone, Copy)]
pub enum Piece {
    /// What isn't discardable, of this width: a box, a rule, a character, a ligature, a kern that isn't explicit; or, of
    /// width 0, a mark, an insert, an adjustment or a whatsit.
    Solid(i32),
    /// An explicit kern of this width.
    Kern(i32),
    /// Glue.
    Glue(Glue),
    /// A penalty.
    Penalty(i32),
    /// A discretionary.
    Discretionary(Discretionary),
    /// The beginning of mathematics, of this width.
    MathOn(i32),
    /// The end of mathematics, of this width.
    MathOff(i32),
}

/// A discretionary. Its no-break text are the pieces that follow it in the list, `replaced` of them; none of these is a
/// break.
#[derive(Clone, Copy)]
pub struct Discretionary {
    /// The width of the text that stands before a break here; None where that text is empty.
    pub before: Option<Scaled>,
    /// The width of the text that stands behind a break here; None where that text is empty.
    pub behind: Option<Scaled>,
    /// How many pieces its no-break text takes.
    pub replaced: u32,
    /// Whether hyphenation made it, so that the first pass doesn't break here.
    pub hyphenated: bool,
}

/// How tightly a line is set (TeX: The Program, section 817).
#[derive(Clone, Copy)]
pub enum Class {
    VeryLoose,
    Loose,
    Decent,
    Tight,
}

impl Class {
    /// Its number: 0 for very loose to 3 for tight.
    pub fn number(self) -> u8
        ensures { result ≡ class_number self }
    {
        match self {
            Class::VeryLoose => 0,
            Class::Loose => 1,
            Class::Decent => 2,
            Class::Tight => 3,
        }
    }
}

/// A list of pieces, each at its place, the first at 0.
pub type Pieces = tx_list::Items<Piece>;
