//! Pages that go on by themselves, and whether two are the same.
ghost use Rattle.std.specs.Prelude.{◌≡◌, ◌↔◌, IsTrue, IfOk};

use crate::class::Class;
use crate::classes::Classes;
use crate::kern::Kern;
use crate::measures::{Contents, Measures};
use crate::page::Page;
use std::alloc::AllocError;
use tx_insert::{Break, Sums};
use tx_list::{Kept, both};
use tx_node::Nodes;

impl Kept for Class {
    fn share(&self) -> Result<Self, AllocError> {
        Ok(*self)
    }

    fn same(&self, other: &Self) -> bool {
        *self == *other
    }
}

/// Whether the same kern waits, or none.
fn same_waiting(one: Option<Kern>, other: Option<Kern>) -> bool
    ensures { IsTrue result ↔ (one ≡ other) }
{
    one == other
}

/// Whether both have the same height and depth.
fn same_heights(one: &Sums, other: &Sums) -> bool
    ensures { IsTrue result ↔ ((one.now.height ≡ other.now.height) × (one.now.depth ≡ other.now.depth)) }
{
    one.height == other.height && one.depth == other.depth
}

/// Whether both have the same stretch and shrink.
fn same_glue(one: &Sums, other: &Sums) -> bool
    ensures { IsTrue result ↔ ((one.now.normal ≡ other.now.normal) × ((one.now.fil ≡ other.now.fil) × ((one.now.fill ≡ other.now.fill) × ((one.now.filll ≡ other.now.filll) × (one.now.shrink ≡ other.now.shrink))))) }
{
    one.normal == other.normal
        && one.fil == other.fil
        && one.fill == other.fill
        && one.filll == other.filll
        && one.shrink == other.shrink
}

/// Whether both are the same sums.
fn same_sums(one: &Sums, other: &Sums) -> bool
    ensures { IsTrue result ↔ (one.now ≡ other.now) }
{
    same_heights(one, other) && same_glue(one, other)
}

/// Whether both are the same break, or none.
fn same_best(one: Option<Break>, other: Option<Break>) -> bool
    ensures { IsTrue result ↔ (one ≡ other) }
{
    match (one, other) {
        (Some(one), Some(other)) => one == other,
        (None, None) => true,
        _ => false,
    }
}

fn same_contents(one: Contents, other: Contents) -> bool
    ensures { IsTrue result ↔ (one ≡ other) }
{
    one == other
}

/// Whether both have the same goal, \maxdepth and \insertpenalties.
fn same_goals(one: &Measures, other: &Measures) -> bool
    ensures { IsTrue result ↔ ((one.now.goal ≡ other.now.goal) × ((one.now.most ≡ other.now.most) × (one.now.insert_penalties ≡ other.now.insert_penalties))) }
{
    one.goal == other.goal
        && one.most == other.most
        && one.insert_penalties == other.insert_penalties
}

/// Whether both have the same, with the same best break.
fn same_breaks(one: &Measures, other: &Measures) -> bool
    ensures { IsTrue result ↔ ((one.now.contents ≡ other.now.contents) × ((one.now.best ≡ other.now.best) × (one.now.after_solid ≡ other.now.after_solid))) }
{
    same_contents(one.contents, other.contents)
        && same_best(one.best, other.best)
        && one.after_solid == other.after_solid
}

/// Whether two pages measure the same.
fn same_measures(one: &Measures, other: &Measures) -> bool
    ensures { IsTrue result ↔ (one.now ≡ other.now) }
{
    same_breaks(one, other) && same_goals(one, other) && same_sums(&one.sums, &other.sums)
}

/// The same nodes and classes once more.
fn share_lists(page: &Page) -> Result<(Nodes, Classes), AllocError>
    ensures { IfOk result (λ twins. (twins.0 ≡ page.now.nodes) × (twins.1 ≡ page.now.classes)) }
{
    both(page.nodes.clone(), page.classes.share())
}

impl Page {
    /// Whether both are the same page.
    pub fn same(&self, other: &Page) -> bool
        ensures { IsTrue result ↔ (self.now ≡ other.now) }
    {
        same_waiting(self.waiting, other.waiting)
            && same_measures(&self.measures, &other.measures)
            && self.classes.same(&other.classes)
            && self.nodes.same(&other.nodes)
    }

    /// A second page, equal to this one, which shares its boxes. Its only error is want of memory.
    pub fn share(&self) -> Result<Page, AllocError>
        ensures { IfOk result (λ twin. twin ≡ self.now) }
    {
        let (nodes, classes) = share_lists(self)?;
        Ok(Page {
            nodes,
            waiting: self.waiting,
            classes,
            measures: self.measures,
        })
    }
}
