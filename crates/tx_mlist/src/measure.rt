//! How deep lists nest in noads.
ghost use Rattle.std.specs.Prelude.{◌≡◌, ◌≤◌};
ghost use Rattle.tx_mlist.specs.Items.{gathered};
ghost use Rattle.tx_mlist.specs.Noads.{atom_of, choice_of, fraction_of, math_of, mlist_of, part_of};
ghost use Rattle.tx_mlist.specs.Counts.{depth_of, item_depth, part_depth};

use crate::noad::{Atom, Choice, Field, Fraction, Noad};

impl Field {
    /// How deep lists nest in the part, a formula itself counted: at most 510.
    fn depth(&self) -> u16
        ensures value { result ≡ part_depth (part_of self.now) }
        ensures most { result ≤ 510 }
    {
        match self {
            Field::Empty | Field::Character(_) | Field::Packed(_, _) => 0,
            Field::Formula(list) => list.depth() + 1,
        }
    }
}

impl Atom {
    /// How deep lists nest in the atom: at most 510.
    fn depth(&self) -> u16
        ensures value { result ≡ item_depth (atom_of self.now) }
        ensures most { result ≤ 510 }
    {
        let scripts = self.superscript.depth().max(self.subscript.depth());
        self.nucleus.depth().max(scripts)
    }
}

impl Fraction {
    /// How deep lists nest in the fraction: at most 510.
    fn depth(&self) -> u16
        ensures value { result ≡ item_depth (fraction_of self.now) }
        ensures most { result ≤ 510 }
    {
        self.numerator.depth().max(self.denominator.depth()) + 1
    }
}

impl Choice {
    /// How deep lists nest in the four lists: at most 510.
    fn depth(&self) -> u16
        ensures value { result ≡ item_depth (choice_of self.now) }
        ensures most { result ≤ 510 }
    {
        let large = self.display.depth().max(self.text.depth());
        let small = self.script.depth().max(self.script_script.depth());
        large.max(small) + 1
    }
}

impl Noad {
    /// How deep lists nest in the noad: 0 where it has none, at most 510.
    pub fn depth(&self) -> u16
        ensures value { result ≡ item_depth (math_of self.now) }
        ensures most { result ≤ 510 }
    {
        match self {
            Noad::Atom(inner) => inner.depth(),
            Noad::Fraction(inner) => inner.depth(),
            Noad::Choice(inner) => inner.depth(),
            Noad::Plain(_) | Noad::Node(_) => 0,
        }
    }
}

/// How deep they nest in noads: at most 510.
pub fn deepest(list: &[Noad]) -> u16
    ensures value { result ≡ depth_of (gathered (mlist_of list.now)) }
    ensures most { result ≤ 510 }
{
    let mut most: u16 = 0;
    for noad in list {
        most = most.max(noad.depth());
    }
    most
}
