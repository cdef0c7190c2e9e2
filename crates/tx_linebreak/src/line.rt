//! A line, and how it fits.
ghost use Rattle.std.specs.Prelude.{◌≡◌};
ghost use Rattle.tx_linebreak.specs.Steps.{line_alike, line_below, line_level};

use crate::piece::Class;

/// How a line fits into its width.
#[derive(Clone, Copy)]
pub(crate) enum Fit {
    /// It would have to shrink by more than it can.
    Overfull,
    /// It is set with this badness.
    Set { badness: u32, class: Class },
}

/// Where the next line may begin: behind a break at a place, or, where that is None, at the beginning of the list; so many
/// lines come before it, the last one of this class.
#[derive(Clone, Copy)]
pub(crate) struct Candidate {
    pub place: Option<usize>,
    pub lines: usize,
    pub class: Class,
}

/// A line that ends at a break: the place of the break, the number of the line, the first line's being 1, its class and
/// demerits; `forced` where no line fits and so this one was taken.
#[derive(Clone, Copy)]
pub(crate) struct Line {
    pub place: usize,
    pub number: usize,
    pub class: Class,
    pub demerits: i128,
    pub forced: bool,
}

impl Line {
    /// Whether its place, number and class are below those of another line, the first that differs deciding.
    pub fn is_below(&self, other: &Line) -> bool
        ensures { result ≡ line_below self.now other.now }
    {
        if self.place != other.place {
            return self.place < other.place;
        }
        if self.number != other.number {
            return self.number < other.number;
        }
        self.class.number() < other.class.number()
    }

    /// Whether what may come behind it is what may come behind another line, where the lines behind one of this number have the
    /// same shape.
    pub fn goes_on_as(&self, other: &Line, last_special: usize) -> bool
        ensures { result ≡ line_alike last_special self.now other.now }
    {
        self.place == other.place
            && self.number.min(last_special) == other.number.min(last_special)
            && self.class.number() == other.class.number()
    }

    /// Whether its place, number and class are those of another line.
    pub fn is_level(&self, other: &Line) -> bool
        ensures { result ≡ line_level self.now other.now }
    {
        self.place == other.place
            && self.number == other.number
            && self.class.number() == other.class.number()
    }
}
