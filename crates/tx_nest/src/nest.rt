//! The lists that are being built, one in another.
ghost use Rattle.std.specs.Prelude.{◌≡◌, ◌↔◌, ◌≢◌, ◌∷◌, [], IsTrue, IfOk, OnOk};
ghost use Rattle.tx_prim.specs.declared.modes.Mode.TheVariants as mode;
ghost use Rattle.std.specs.Borrow.{sem};
ghost use Rattle.tx_nest.specs.Around.{mode_around as mode_of_outer};
ghost use Rattle.tx_nest.specs.States.{begun};

use crate::list::ModeList;
use std::alloc::{AllocError, Global};
use std::mem::replace;
use tx_list::Stack;
use tx_prim::Mode;

/// The list that is being built, and those that wait around it, the innermost first; the last of all is the pages' list (TeX:
/// The Program, section 213).
#[derive(Drop)]
pub struct Nest {
    pub(crate) innermost: ModeList,
    pub(crate) around: Stack<ModeList>,
}

impl Nest {
    ghost use Rattle.tx_nest.specs.Lending.{LendsTop};

    /// The pages' list alone, empty; takes no memory.
    pub fn new(alloc: Global) -> Nest
        ensures { result ≡ record { innermost = record { state = begun mode.Vertical; nodes = []; prev_graf = 0 }; around = [] } }
    {
        Nest {
            innermost: ModeList::new(alloc, Mode::Vertical),
            around: Stack::new(alloc),
        }
    }

    /// Begins a list in the one that is being built. After want of memory nothing is to be expected of the nest.
    pub fn push(&mut self, list: ModeList) -> Result<(), AllocError>
        ensures { OnOk result (self.new ≡ record { innermost = list; around = self.old.innermost ∷ self.old.around }) }
    {
        let outer = replace(&mut self.innermost, list);
        self.around.push(outer)
    }

    /// Whether the list that is being built is the pages' list.
    pub fn is_outermost(&self) -> bool
        ensures { IsTrue result ↔ (self.now.around ≡ []) }
    {
        self.around.is_empty()
    }

    /// Ends the list that is being built and answers it; the one around it goes on.
    pub fn pop(&mut self) -> ModeList
        requires { self.old.around ≢ [] }
        ensures list { result ≡ self.old.innermost }
        ensures left { self.old.around ≡ self.new.innermost ∷ self.new.around }
    {
        match self.around.pop() {
            Some(outer) => replace(&mut self.innermost, outer),
            None => unreachable!(),
        }
    }

    /// The list that is being built, lent.
    pub fn top(&mut self) -> &mut ModeList
        ensures* writes_back { sem 𝓛 (LendsTop self.entry result) }
        ensures value { result.now ≡ self.old.innermost }
    {
        &mut self.innermost
    }

    /// The same, to read.
    pub fn innermost(&self) -> &ModeList
        ensures { result.now ≡ self.now.innermost }
    {
        &self.innermost
    }

    /// The mode of the list around the one that is being built; None exactly where this is the pages' list.
    pub fn mode_around(&self) -> Option<Mode>
        ensures { result ≡ mode_of_outer self.now.around }
    {
        match self.around.first() {
            Some(outer) => Some(outer.mode()),
            None => None,
        }
    }

    /// Whether both are the same lists.
    pub fn same(&self, other: &Nest) -> bool
        ensures { IsTrue result ↔ (self.now ≡ other.now) }
    {
        self.innermost.same(&other.innermost) && self.around.same(&other.around)
    }

    /// Second lists, equal to these, which share their boxes. Its only error is want of memory.
    pub fn share(&self) -> Result<Nest, AllocError>
        ensures { IfOk result (λ twin. twin ≡ self.now) }
    {
        Ok(Nest {
            innermost: self.innermost.share()?,
            around: self.around.share()?,
        })
    }
}
