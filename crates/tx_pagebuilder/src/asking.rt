//! A page when a run begins, what can be asked of it, and assigned.
ghost use Rattle.std.specs.Prelude.{◌≡◌, None};
ghost use Rattle.tx_pagebuilder.specs.Histories.{IsBestOf};
ghost use Rattle.tx_pagebuilder.specs.Pages as spec;
ghost use Rattle.tx_pagebuilder.specs.Quantities.{shown, assigned, IsValue};
ghost use Rattle.tx_pagebuilder.specs.Placing.{IsMeasured};

use crate::class::Class;
use crate::classes::Classes;
use crate::kern::Kern;
use crate::measures::{Contents, Measures};
use crate::page::Page;
use crate::quantity::{assigned, shown};
use std::alloc::Global;
use tx_insert::{Break, no_sums};
use tx_node::Nodes;
use tx_prim::PageQuantity;

/// Measures of a page that has nothing, behind this \insertpenalties.
pub(crate) fn first_measures(penalties: i32) -> Measures
    ensures value { result ≡ spec.first_measures penalties }
    ensures measured { IsMeasured result }
{
    Measures {
        contents: Contents::Nothing,
        goal: 0,
        most: 0,
        sums: no_sums(),
        insert_penalties: penalties,
        best: None,
        after_solid: false,
    }
}

impl Page {
    /// A page that has nothing; takes no memory.
    pub fn new(alloc: Global) -> Page
        ensures { result ≡ spec.empty_page }
    {
        Page {
            nodes: Nodes::new(alloc),
            waiting: None,
            classes: Classes::new(alloc),
            measures: first_measures(0),
        }
    }

    /// The best break so far: the last one of least cost among all that were legal, None exactly where none was. Behind any
    /// contributions it is the best of the one that the page had before them, if any, and those that were legal since.
    pub fn best(&self) -> Option<Break>
        ensures value { result ≡ self.now.measures.best }
        ensures least { IsBestOf result self.now }
    {
        self.measures.best
    }

    /// A quantity of the page, in sp; \insertpenalties is a number. While it has nothing that counts, \pagegoal is the greatest
    /// dimension, and the others are 0; behind a page that was fired they are as they were there, until `end_output`.
    pub fn get(&self, q: PageQuantity) -> i64
        ensures { result ≡ shown q self.now.measures }
    {
        shown(q, &self.measures)
    }

    /// Assigns to a quantity of the page, in sp; \insertpenalties is a number.
    pub fn set(&mut self, q: PageQuantity, value: i64)
        requires { IsValue q value }
        ensures { self.new ≡ record self.old { measures = assigned q value self.old.measures } }
    {
        self.measures = assigned(q, value, &self.measures);
    }

    /// Whether the page has no node.
    pub fn empty(&self) -> bool
        ensures { result ≡ spec.is_empty self.now }
    {
        self.nodes.len() == 0 && self.waiting.is_none()
    }

    /// The classes of insertions on the page, lent: a page that is fired is given the boxes of these.
    pub fn classes(&self) -> &[Class]
        ensures { result.now ≡ self.now.classes }
    {
        self.classes.as_slice()
    }

    /// Takes back the kern that waits for what comes behind it, as \unkern does.
    pub fn take_kern(&mut self) -> Option<Kern>
        ensures value { result ≡ self.old.waiting }
        ensures rest { self.new ≡ record self.old { waiting = None } }
    {
        self.waiting.take()
    }

    /// What holds behind the \output of a page that was fired: nothing of that page can be read any more, and \insertpenalties is 0
    /// (TeX: The Program, section 1026).
    pub fn end_output(&mut self)
        ensures { self.new ≡ record self.old { measures = spec.output_ended self.old.measures } }
    {
        self.measures = output_ended(&self.measures);
    }

    /// What holds behind a page that was fired and is shipped without \output: nothing of that page can be read any more;
    /// \insertpenalties still counts what is held over (TeX: The Program, section 1023).
    pub fn ship(&mut self)
        ensures { self.new ≡ spec.shipped self.old }
    {
        self.measures = measures_shipped(&self.measures);
    }
}

fn measures_shipped(measures: &Measures) -> Measures
    requires { IsMeasured measures.now }
    ensures value { result ≡ spec.measures_shipped measures.now }
    ensures measured { IsMeasured result }
{
    if is_fired(measures.contents) {
        first_measures(measures.insert_penalties)
    } else {
        *measures
    }
}

fn output_ended(measures: &Measures) -> Measures
    requires { IsMeasured measures.now }
    ensures value { result ≡ spec.output_ended measures.now }
    ensures measured { IsMeasured result }
{
    if is_fired(measures.contents) {
        return first_measures(0);
    }
    let mut more = *measures;
    more.insert_penalties = 0;
    more
}

fn is_fired(contents: Contents) -> bool
    ensures { result ≡ spec.is_fired contents }
{
    match contents {
        Contents::Fired => true,
        Contents::Nothing | Contents::Inserts | Contents::Solid => false,
    }
}
