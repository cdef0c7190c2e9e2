//! Lists that are being built (TeX: The Program, section 680).
ghost use Rattle.std.specs.Prelude.{◌≡◌, ◌↔◌, ◌≤◌, ◌∷◌, ◌++◌, [], length, IsTrue, IfOk, OnOk, OnErr, MatchOption};
ghost use Rattle.tx_mlist.specs.Building.{inner};
ghost use Rattle.tx_mlist.specs.Items.{gathered};
ghost use Rattle.tx_mlist.specs.Noads.{math_of, mlist_of};
ghost use Rattle.tx_mlist.specs.Counts.{depth_of};

use crate::error::MlistError;
use crate::measure::deepest;
use crate::noad::{InnerList, Noad};
use crate::same::same_mlist;
use std::alloc::{AllocError, Global};
use std::marker::Model;

/// How deep lists nest at most in one that a noad has.
const MOST_DEPTH: u16 = 509;

/// A list of noads. Contracts see the list of its items.
#[derive(Drop)]
pub struct Mlist {
    items: Vec<Noad>,
}

impl Model for Mlist {
    ghost use Rattle.std.specs.Prelude.{List};
    ghost use Rattle.tx_mlist.specs.Items.{MathItem};

    ghost Value = { List MathItem };

    ghost use Rattle.std.specs.Coded.{coded_list};
    ghost use Rattle.tx_mlist.specs.Codes.{math_code};

    ghost coded = { coded_list math_code };

    ghost use Rattle.tx_mlist.specs.Noads.{mlist_of};

    ghost view = { λ m. mlist_of m.items.items };
}

impl Mlist {
    /// The empty list; takes no memory.
    pub fn new(alloc: Global) -> Mlist
        ensures { result ≡ [] }
    {
        Mlist {
            items: Vec::new(alloc),
        }
    }

    /// The noads, lent.
    pub fn as_slice(&self) -> &[Noad]
        ensures { mlist_of result.now ≡ self.now }
    {
        self.items.as_slice()
    }

    /// How many there are.
    pub fn len(&self) -> usize
        ensures { result ≡ length self.now }
    {
        self.items.len()
    }

    /// How deep lists nest in the list: 0 where there is none, at most 510.
    pub fn depth(&self) -> u16
        ensures value { result ≡ depth_of (gathered self.now) }
        ensures most { result ≤ 510 }
    {
        deepest(&self.items)
    }

    /// Puts a noad at the end. After want of memory nothing has changed.
    pub fn push(&mut self, noad: Noad) -> Result<(), AllocError>
        ensures ok { OnOk result (self.new ≡ self.old ++ math_of noad ∷ []) }
        ensures err { OnErr result (self.new ≡ self.old) }
    {
        self.items.push(noad)?;
        Ok(())
    }

    /// Moves the noads of another list behind these. After want of memory nothing has changed.
    pub fn append(&mut self, others: &mut Mlist) -> Result<(), AllocError>
        ensures ok { OnOk result ((self.new ≡ self.old ++ others.old) × (others.new ≡ [])) }
        ensures err { OnErr result ((self.new ≡ self.old) × (others.new ≡ others.old)) }
    {
        self.items.append(&mut others.items)
    }

    /// Takes the last noad away, None where there is none.
    pub fn pop(&mut self) -> Option<Noad>
        ensures { MatchOption result ((self.old ≡ []) × (self.new ≡ [])) (λ noad. self.old ≡ self.new ++ math_of noad ∷ []) }
    {
        self.items.pop()
    }

    /// The list as one that a noad has. `TooDeep` exactly where lists would stand in one another more than 510 deep; two of them
    /// come of a group at most, a fraction in it and what stands above and below its line, and 255 groups are open at most.
    pub fn into_inner(self) -> Result<InnerList, MlistError>
        ensures { result ≡ inner self }
    {
        let depth = self.depth();
        if depth > MOST_DEPTH {
            return Err(MlistError::TooDeep);
        }
        let Mlist { items } = self;
        Ok(InnerList { depth, list: items })
    }

    /// Whether both have the same items.
    pub fn same(&self, other: &Mlist) -> bool
        ensures { IsTrue result ↔ (self.now ≡ other.now) }
    {
        same_mlist(&self.items, &other.items)
    }
}

/// A clone is the same list, and shares what its noads have. Its only error is want of memory.
impl Clone for Mlist {
    ghost is_clone = { λ source copy. copy ≡ source };

    fn clone(&self) -> Result<Self, AllocError> {
        Ok(Mlist {
            items: shared(*self.items.allocator(), &self.items)?,
        })
    }
}

/// The same noads, in a list of their own that shares what they have.
pub(crate) fn shared(alloc: Global, noads: &[Noad]) -> Result<Vec<Noad>, AllocError>
    ensures { IfOk result (λ copy. mlist_of copy.items ≡ mlist_of noads.now) }
{
    let mut copy = Vec::with_capacity(alloc, noads.len())?;
    for noad in noads {
        copy.push(noad.clone()?)?;
    }
    Ok(copy)
}
