//! Noads, which nest (TeX: The Program, sections 681 to 690).
ghost use Rattle.std.specs.Prelude.{◌≡◌, ◌≤◌, IfOk};

use crate::kinds::{AtomKind, FractionHead, MathCharacter};
use crate::mlist::shared;
use crate::plain::PlainNoad;
use std::alloc::{AllocError, Global};
use std::marker::Model;
use std::rc::Rc;
use tx_node::{BoxNode, Node};

/// A list that a noad has: how deep lists nest in it, and its noads. Contracts see the list of its items.
#[cycle(noad)]
#[derive(Drop)]
pub struct InnerList {
    pub(crate) depth: u16,
    pub(crate) list: Vec<Noad>,
}

/// The nucleus or a script of an atom (TeX: The Program, section 681). Contracts see the part that `part_of` gives.
#[cycle(noad)]
#[derive(Drop)]
pub enum Field {
    /// Nothing.
    Empty,
    /// A character of a family.
    Character(MathCharacter),
    /// A box that is shifted down by so many sp.
    Packed(i32, BoxNode),
    /// A formula.
    Formula(InnerList),
}

/// An atom (The TeXbook, chapter 17).
#[cycle(noad)]
#[derive(Drop)]
pub struct Atom {
    pub kind: AtomKind,
    pub nucleus: Field,
    pub superscript: Field,
    pub subscript: Field,
}

/// A fraction (TeX: The Program, section 683): what it is beside its lists, and the lists above and below its line.
#[cycle(noad)]
#[derive(Drop)]
pub struct Fraction {
    pub head: FractionHead,
    pub numerator: InnerList,
    pub denominator: InnerList,
}

/// The four lists of \mathchoice, of which one is taken by the style (TeX: The Program, section 689).
#[cycle(noad)]
#[derive(Drop)]
pub struct Choice {
    pub display: InnerList,
    pub text: InnerList,
    pub script: InnerList,
    pub script_script: InnerList,
}

/// What stands in a list of mathematics. Contracts see the item that `math_of` gives.
#[cycle(noad)]
#[derive(Drop)]
pub enum Noad {
    /// An atom, which clones of the noad share.
    Atom(Rc<Atom>),
    /// A fraction, which clones of the noad share.
    Fraction(Rc<Fraction>),
    /// The lists of \mathchoice, which clones of the noad share.
    Choice(Rc<Choice>),
    /// A small noad.
    Plain(PlainNoad),
    /// A node that a horizontal list may hold, as it is.
    Node(Node),
}

impl Model for InnerList {
    ghost use Rattle.std.specs.Prelude.{List};
    ghost use Rattle.tx_mlist.specs.Items.{MathItem};

    ghost Value = { List MathItem };

    ghost use Rattle.std.specs.Coded.{coded_list};
    ghost use Rattle.tx_mlist.specs.Codes.{math_code};

    ghost coded = { coded_list math_code };

    ghost use Rattle.tx_mlist.specs.Noads.{mlist_of, IsInner};
    ghost use Rattle.tx_mlist.specs.Counts.{list_size};

    ghost view = { λ s. mlist_of s.list.items };

    ghost invariant = { λ s. IsInner s.depth (mlist_of s.list.items) };

    ghost size = { list_size };

    ghost use Rattle.std.proofs.Common.{arith};
    ghost use Rattle.tx_mlist.specs.Falls.{falls};

    ghost size_decreases = { λ s h. omega (arith, falls s.list.items) };
}

impl InnerList {
    ghost use Rattle.std.specs.Prelude.{[]};
    ghost use Rattle.tx_mlist.specs.Items.{gathered};
    ghost use Rattle.tx_mlist.specs.Noads.{mlist_of};
    ghost use Rattle.tx_mlist.specs.Counts.{depth_of};

    /// How deep lists nest in the list: 0 where there is none, at most 509.
    pub fn depth(&self) -> u16
        ensures value { result ≡ depth_of (gathered self.now) }
        ensures most { result ≤ 509 }
    {
        self.depth
    }

    /// The list, lent.
    pub fn as_slice(&self) -> &[Noad]
        ensures { mlist_of result.now ≡ self.now }
    {
        self.list.as_slice()
    }

    /// The empty list; takes no memory.
    pub(crate) fn empty(alloc: Global) -> InnerList
        ensures { result ≡ [] }
    {
        InnerList {
            depth: 0,
            list: Vec::new(alloc),
        }
    }
}

/// A clone is the same list, and shares what its noads have. Its only error is want of memory.
impl Clone for InnerList {
    ghost is_clone = { λ source copy. copy ≡ source };

    fn clone(&self) -> Result<Self, AllocError> {
        let depth = self.depth;
        Ok(InnerList {
            depth,
            list: shared(*self.list.allocator(), &self.list)?,
        })
    }
}

/// A clone is the same part. Its only error is want of memory.
impl Clone for Field {
    ghost is_clone = { λ source copy. copy ≡ source };

    fn clone(&self) -> Result<Self, AllocError> {
        match self {
            Field::Empty => Ok(Field::Empty),
            Field::Character(character) => Ok(Field::Character(*character)),
            Field::Packed(shift, inner) => Ok(Field::Packed(*shift, inner.clone()?)),
            Field::Formula(list) => Ok(Field::Formula(list.clone()?)),
        }
    }
}

/// A clone is the same atom. Its only error is want of memory.
impl Clone for Atom {
    ghost is_clone = { λ source copy. copy ≡ source };

    fn clone(&self) -> Result<Self, AllocError> {
        Ok(Atom {
            kind: self.kind,
            nucleus: self.nucleus.clone()?,
            superscript: self.superscript.clone()?,
            subscript: self.subscript.clone()?,
        })
    }
}

/// A clone is the same choice. Its only error is want of memory.
impl Clone for Choice {
    ghost is_clone = { λ source copy. copy ≡ source };

    fn clone(&self) -> Result<Self, AllocError> {
        Ok(Choice {
            display: self.display.clone()?,
            text: self.text.clone()?,
            script: self.script.clone()?,
            script_script: self.script_script.clone()?,
        })
    }
}

impl Noad {
    ghost use Rattle.tx_mlist.specs.Noads.{math_of, atom_of, fraction_of, choice_of};

    /// An atom, as a noad. Its only error is want of memory.
    pub fn from_atom(alloc: Global, atom: Atom) -> Result<Noad, AllocError>
        ensures { IfOk result (λ noad. math_of noad ≡ atom_of atom) }
    {
        match Rc::new(alloc, atom) {
            Ok(inner) => Ok(Noad::Atom(inner)),
            Err(_) => Err(AllocError),
        }
    }

    /// A fraction, as a noad. Its only error is want of memory.
    pub fn from_fraction(alloc: Global, fraction: Fraction) -> Result<Noad, AllocError>
        ensures { IfOk result (λ noad. math_of noad ≡ fraction_of fraction) }
    {
        match Rc::new(alloc, fraction) {
            Ok(inner) => Ok(Noad::Fraction(inner)),
            Err(_) => Err(AllocError),
        }
    }

    /// The lists of \mathchoice, as a noad. Its only error is want of memory.
    pub fn from_choice(alloc: Global, choice: Choice) -> Result<Noad, AllocError>
        ensures { IfOk result (λ noad. math_of noad ≡ choice_of choice) }
    {
        match Rc::new(alloc, choice) {
            Ok(inner) => Ok(Noad::Choice(inner)),
            Err(_) => Err(AllocError),
        }
    }
}

/// A clone is the same item, and shares what it has. Its only error is want of memory.
impl Clone for Noad {
    ghost use Rattle.tx_mlist.specs.Noads.{math_of};

    ghost is_clone = { λ source copy. math_of copy ≡ math_of source };

    fn clone(&self) -> Result<Self, AllocError> {
        match self {
            Noad::Atom(inner) => Ok(Noad::Atom(inner.clone()?)),
            Noad::Fraction(inner) => Ok(Noad::Fraction(inner.clone()?)),
            Noad::Choice(inner) => Ok(Noad::Choice(inner.clone()?)),
            Noad::Plain(item) => Ok(Noad::Plain(*item)),
            Noad::Node(node) => Ok(Noad::Node(node.clone()?)),
        }
    }
}
