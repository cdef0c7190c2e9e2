//! The list of open conditionals.
ghost use Rattle.std.specs.Prelude.{◌≡◌, ◌↔◌, ◌<◌, ◌≤◌, ◌∷◌, ◌++◌, [], List, Some, None, option_to_list, take, drop, length, reverse, slice_get, slice_set, ℤ, IsTrue, IfOk, IfErr, OnOk, OnErr};
ghost use Rattle.tx_cond.specs.declared.types.Conditional.{Conditional};
ghost use Rattle.tx_cond.specs.Conditionals.{begins_with_test, decide, is_skipped, meeting, met, within_all};

use crate::types::{Conditional, Meet};
use std::alloc::{AllocError, Global};
use std::marker::Model;
use tx_list::Items;
use tx_prim::CondWord;
use tx_seen::TexError;

/// The conditionals that are open. Contracts see the list of them, the innermost first.
#[derive(Drop)]
pub struct CondStack {
    outermost_first: Items<Conditional>,
}

impl Model for CondStack {
    ghost use Rattle.std.specs.Prelude.{List, reverse};
    ghost use Rattle.tx_cond.specs.declared.types.Conditional.{Conditional};

    ghost Value = { List Conditional };

    ghost view = { λ s. reverse s.outermost_first };
}

impl CondStack {
    /// No conditional; takes no memory.
    pub fn new(alloc: Global) -> CondStack
        ensures { result ≡ [] }
    {
        CondStack {
            outermost_first: Items::new(alloc),
        }
    }

    /// Begins a conditional, whose test is scanned next; `cases` says that it is an \ifcase. After want of memory
    /// nothing has changed.
    pub fn begin(&mut self, cases: bool) -> Result<(), AllocError>
        ensures ok { OnOk result (self.new ≡ Conditional.Testing cases ∷ self.old) }
        ensures err { OnErr result (self.new ≡ self.old) }
    {
        self.outermost_first.push(Conditional::Testing { cases })
    }

    /// The innermost test that is being scanned has this value: for an \if.. 0 is false and all else true, an \ifcase
    /// takes the branch of this number. Where no test is scanned none gets it.
    pub fn decide(&mut self, branch: i64)
        ensures { self.new ≡ decide branch self.old }
    {
        let place = innermost_test(&self.outermost_first);
        settle(&mut self.outermost_first, place, branch);
        pass_over_inner(&mut self.outermost_first, place);
    }

    /// Meets a word that belongs to the innermost conditional, in text that is read or skipped.
    pub fn meet(&mut self, word: CondWord) -> Result<Meet, TexError>
        ensures ok { IfOk result (λ answer. meeting self.old word ≡ Some (record { answer = answer; stack = self.new })) }
        ensures extra { OnErr result ((meeting self.old word ≡ None) × (self.new ≡ self.old)) }
        ensures error { IfErr result (λ error. error ≡ TexError.ExtraConditionalWord) }
    {
        let Some(innermost) = open_at(&self.outermost_first, 0) else {
            return Err(TexError::ExtraConditionalWord);
        };
        if innermost.is_tested() {
            return Ok(Meet::Relax);
        }
        let next = innermost.behind(word)?;
        follow(&mut self.outermost_first, next);
        Ok(self.how_to_go_on())
    }

    /// Whether text is skipped.
    pub fn is_skipping(&self) -> bool
        ensures { result ≡ is_skipped self.now }
    {
        is_skipping_from(&self.outermost_first, 0)
    }

    /// Whether the text is read or skipped.
    fn how_to_go_on(&self) -> Meet
        ensures { result ≡ (met self.now).answer }
    {
        if self.is_skipping() {
            Meet::Skip
        } else {
            Meet::Closed
        }
    }

    /// A stack with the same conditionals. Its only error is want of memory.
    pub fn share(&self) -> Result<CondStack, AllocError>
        ensures { IfOk result (λ shared. shared ≡ self.now) }
    {
        Ok(CondStack {
            outermost_first: self.outermost_first.share()?,
        })
    }

    /// Whether both have the same conditionals.
    pub fn same(&self, other: &CondStack) -> bool
        ensures { IsTrue result ↔ (self.now ≡ other.now) }
    {
        self.outermost_first.same(&other.outermost_first)
    }
}

/// The conditional at a place, counted from the innermost.
fn open_at(conditionals: &Items<Conditional>, place: usize) -> Option<Conditional>
    ensures { result ≡ slice_get (reverse conditionals.now) place }
{
    let open = conditionals.as_slice();
    if place < open.len() {
        let from_outermost = open.len() - 1 - place;
        Some(open[from_outermost])
    } else {
        None
    }
}

/// Another conditional stands at a place, counted from the innermost.
fn put(conditionals: &mut Items<Conditional>, place: usize, conditional: Conditional)
    requires { place < length conditionals.old }
    ensures { reverse conditionals.new ≡ slice_set (reverse conditionals.old) place conditional }
{
    let from_outermost = conditionals.len() - 1 - place;
    *conditionals.item_mut(from_outermost) = conditional;
}

/// The test at this place, if there is one, has this value.
fn settle(conditionals: &mut Items<Conditional>, place: usize, branch: i64)
    requires { place < length conditionals.old → IsTrue (begins_with_test (drop place (reverse conditionals.old))) }
    ensures inner { take place (reverse conditionals.new) ≡ take place (reverse conditionals.old) }
    ensures outer { drop place (reverse conditionals.new) ≡ decide branch (drop place (reverse conditionals.old)) }
    ensures long { length conditionals.new ≡ length conditionals.old }
{
    match open_at(conditionals, place) {
        Some(conditional) => put(conditionals, place, conditional.settled(branch)),
        None => {}
    }
}

/// The innermost conditional becomes another one, or is gone.
fn follow(conditionals: &mut Items<Conditional>, next: Option<Conditional>)
    requires { 0 < length conditionals.old }
    ensures { reverse conditionals.new ≡ option_to_list next ++ drop 1 (reverse conditionals.old) }
{
    match next {
        Some(next) => put(conditionals, 0, next),
        None => {
            conditionals.pop();
        }
    }
}

/// The place of the innermost test that is being scanned, counted from the innermost conditional; the end where there is none.
fn innermost_test(conditionals: &Items<Conditional>) -> usize
    ensures place { result ≤ length conditionals.now }
    ensures test { result < length conditionals.now → IsTrue (begins_with_test (drop result (reverse conditionals.now))) }
    ensures inner { (branch : ℤ) → decide branch (reverse conditionals.now) ≡ within_all (take result (reverse conditionals.now)) (decide branch (drop result (reverse conditionals.now))) }
{
    for place in 0..conditionals.len() {
        if is_tested_at(conditionals, place) {
            return place;
        }
    }
    conditionals.len()
}

/// Where text is skipped at this place, so it is in the conditionals before it.
fn pass_over_inner(conditionals: &mut Items<Conditional>, place: usize)
    requires { place ≤ length conditionals.old }
    ensures { reverse conditionals.new ≡ within_all (take place (reverse conditionals.old)) (drop place (reverse conditionals.old)) }
{
    let mut inner = place;
    while inner > 0 {
        inner -= 1;
        if is_skipping_from(conditionals, inner + 1) {
            put(conditionals, inner, Conditional::Ending);
        }
    }
}

/// Whether the test of the conditional at this place is being scanned.
fn is_tested_at(conditionals: &Items<Conditional>, place: usize) -> bool
    ensures { result ≡ begins_with_test (drop place (reverse conditionals.now)) }
{
    match open_at(conditionals, place) {
        Some(conditional) => conditional.is_tested(),
        None => false,
    }
}

/// Whether text is skipped within the conditionals from this place on.
fn is_skipping_from(conditionals: &Items<Conditional>, place: usize) -> bool
    ensures { result ≡ is_skipped (drop place (reverse conditionals.now)) }
{
    match open_at(conditionals, place) {
        Some(conditional) => conditional.is_skipping(),
        None => false,
    }
}
