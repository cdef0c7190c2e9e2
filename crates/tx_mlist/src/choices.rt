//! The lists of \mathchoice, as they are read (TeX: The Program, sections 1171 to 1174).
ghost use Rattle.std.specs.Prelude.{◌≡◌, IfOk, OnOk};
ghost use Rattle.tx_mlist.specs.Choices as spec;
ghost use Rattle.tx_mlist.specs.Items.{gathered};
ghost use Rattle.tx_mlist.specs.Noads.{choice_of, math_of};

use crate::mlist::Mlist;
use crate::noad::{Choice, InnerList, Noad};
use std::alloc::{AllocError, Global};
use std::rc::Rc;
use tx_prim::MathStyle;

/// \mathchoice, whose lists are to be read. Its only error is want of memory.
pub fn no_choice(alloc: Global) -> Result<Noad, AllocError>
    ensures { IfOk result (λ noad. math_of noad ≡ spec.no_choice) }
{
    Noad::from_choice(
        alloc,
        Choice {
            display: InnerList::empty(alloc),
            text: InnerList::empty(alloc),
            script: InnerList::empty(alloc),
            script_script: InnerList::empty(alloc),
        },
    )
}

/// Puts a list into a choice, for a style.
fn put(choice: &mut Choice, style: MathStyle, list: InnerList)
    ensures { choice_of choice.new ≡ spec.choice_with style (gathered list) (choice_of choice.old) }
{
    match style {
        MathStyle::Display => choice.display = list,
        MathStyle::Text => choice.text = list,
        MathStyle::Script => choice.script = list,
        MathStyle::ScriptScript => choice.script_script = list,
    }
}

/// A noad with a list for a style, if it is a choice. Its only error is want of memory.
fn with_list(noad: Noad, style: MathStyle, list: InnerList) -> Result<Noad, AllocError>
    ensures { IfOk result (λ made. math_of made ≡ spec.choice_with style (gathered list) (math_of noad)) }
{
    match noad {
        Noad::Choice(inner) => {
            let mut inner = inner;
            put(Rc::make_mut(&mut inner)?, style, list);
            Ok(Noad::Choice(inner))
        }
        Noad::Atom(inner) => Ok(Noad::Atom(inner)),
        Noad::Fraction(inner) => Ok(Noad::Fraction(inner)),
        Noad::Plain(item) => Ok(Noad::Plain(item)),
        Noad::Node(node) => Ok(Noad::Node(node)),
    }
}

impl Mlist {
    /// Puts a list, for a style, into the last noad, which is a choice; else nothing changes. After want of memory, its only error,
    /// the list may only be dropped.
    #[tactic(auto, using(crate::proofs::Lists::changed_none))]
    pub fn choose(&mut self, style: MathStyle, list: InnerList) -> Result<(), AllocError>
        ensures { OnOk result (self.new ≡ spec.chosen style list self.old) }
    {
        match self.pop() {
            Some(noad) => self.push(with_list(noad, style, list)?),
            None => Ok(()),
        }
    }
}
