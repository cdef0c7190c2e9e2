//! Firing a page.
ghost use Rattle.std.specs.Prelude.{◌≡◌, ◌≢◌, ◌<◌, ◌^◌, ◌≤ℤ◌, ◌∷◌, ◌++◌, pos, take, drop, unsigned_abs, IfOk, IfErr, OnOk, Ok, Err};
ghost use Rattle.tx_node.specs.Nodes.{item_of, list_of};
ghost use Rattle.tx_insert.specs.Splits.{first_mark, last_mark};
ghost use Rattle.tx_pagebuilder.specs.declared.error.PageError.TheVariants.{OutOfMemory};
ghost use Rattle.tx_pagebuilder.specs.Fired as spec;
ghost use Rattle.tx_pagebuilder.specs.Placing.{IsMeasured};

use crate::asking::first_measures;
use crate::class::Class;
use crate::classes::Classes;
use crate::error::PageError;
use crate::fired::Fired;
use crate::holding::{held_over, staying};
use crate::joining::{boxes_made, has_wrong_box, share_behind};
use crate::kern::{Kern, kern_node};
use crate::measures::{Contents, Measures};
use crate::page::Page;
use crate::params::PageParams;
use crate::sizes::narrow_integer;
use crate::sorted::Sorted;
use std::alloc::{AllocError, Global};
use tx_insert::{Break, first_mark, last_mark, no_break};
use tx_list::{Items, both};
use tx_node::{Node, Nodes, Plain};
use tx_toklist::TokList;

/// The page above its break, where insertions join their boxes.
fn sorted_out(
    alloc: Global,
    above: &[Node],
    classes: &[Class],
    params: &PageParams,
) -> Result<Sorted, PageError>
    ensures ok { IfOk result (λ s. spec.sorted_out (list_of above.now) classes.now params.now.boxes ≡ Ok s) }
    ensures error { IfErr result (λ e. e ≢ OutOfMemory → spec.sorted_out (list_of above.now) classes.now params.now.boxes ≡ Err e) }
{
    if has_wrong_box(params.boxes.as_slice(), above, classes) {
        return Err(PageError::WrongBox);
    }
    let held = held_over(alloc, classes, above)?;
    let boxes = boxes_made(alloc, params.boxes.as_slice(), above, classes)?;
    let list = staying(alloc, above)?;
    Ok(Sorted { list, held, boxes })
}

/// The page above its break, where insertions stay. Its only error is want of memory.
fn sorted_as_is(alloc: Global, above: &[Node]) -> Result<Sorted, AllocError>
    ensures { IfOk result (λ s. s ≡ spec.sorted_as_is (list_of above.now)) }
{
    Ok(Sorted {
        list: Nodes::share_of(alloc, above)?,
        held: Nodes::new(alloc),
        boxes: Items::new(alloc),
    })
}

/// The page above its break.
fn sort_above(
    alloc: Global,
    above: &[Node],
    classes: &[Class],
    params: &PageParams,
) -> Result<Sorted, PageError>
    ensures ok { IfOk result (λ s. spec.sorted (list_of above.now) classes.now params.now ≡ Ok s) }
    ensures error { IfErr result (λ e. e ≢ OutOfMemory → spec.sorted (list_of above.now) classes.now params.now ≡ Err e) }
{
    if params.holding_inserts > 0 {
        Ok(sorted_as_is(alloc, above)?)
    } else {
        sorted_out(alloc, above, classes, params)
    }
}

fn plain_penalty(item: &Plain) -> i32
    ensures { result ≡ spec.plain_penalty item.now }
{
    match item {
        Plain::Penalty(penalty) => *penalty,
        Plain::Kern(_, _) | Plain::Glue(_) | Plain::Character(_) => 10_000,
    }
}

fn penalty_of(node: &Node) -> i32
    ensures { result ≡ spec.penalty_of (item_of node.now) }
{
    match node {
        Node::Plain(item) => plain_penalty(item),
        Node::Shared(_) | Node::Box(_, _) => 10_000,
        Node::Discretionary(_) | Node::Adjustment(_) | Node::Insertion(_) => 10_000,
        Node::BoxLeaders(_) => 10_000,
    }
}

/// The penalty of a break before these nodes, 10000 where it isn't at a penalty.
fn output_penalty(below: &[Node]) -> i32
    ensures { result ≡ spec.output_penalty (list_of below.now) }
{
    match below {
        [] => 10_000,
        [first, ..] => penalty_of(first),
    }
}

fn plain_spent(item: &Plain) -> Plain
    ensures { result ≡ spec.plain_spent item.now }
{
    match item {
        Plain::Penalty(_) => Plain::Penalty(10_000),
        Plain::Kern(_, _) | Plain::Glue(_) | Plain::Character(_) => *item,
    }
}

/// A node that was broken at: a penalty is 10000 from then on. Its only error is want of memory.
fn spent(node: &Node) -> Result<Node, AllocError>
    ensures { IfOk result (λ copy. item_of copy ≡ spec.spent (item_of node.now)) }
{
    match node {
        Node::Plain(item) => Ok(Node::Plain(plain_spent(item))),
        Node::Shared(_) | Node::Box(_, _) => node.clone(),
        Node::Discretionary(_) | Node::Adjustment(_) | Node::Insertion(_) => node.clone(),
        Node::BoxLeaders(_) => node.clone(),
    }
}

/// A node that was broken at, and those behind it. Its only error is want of memory.
fn below_break(alloc: Global, first: &Node, rest: &[Node]) -> Result<Nodes, AllocError>
    ensures { IfOk result (λ list. list ≡ spec.spent (item_of first.now) ∷ list_of rest.now) }
{
    let mut list = Nodes::new(alloc);
    list.push(spent(first)?)?;
    share_behind(&mut list, rest)?;
    Ok(list)
}

/// The nodes behind a break. Its only error is want of memory.
fn below(alloc: Global, nodes: &[Node]) -> Result<Nodes, AllocError>
    ensures { IfOk result (λ list. list ≡ spec.below (list_of nodes.now)) }
{
    match nodes {
        [] => Ok(Nodes::new(alloc)),
        [first, rest @ ..] => below_break(alloc, first, rest),
    }
}

/// Puts the kern that waits behind a list. Its only error is want of memory.
fn push_waiting(list: &mut Nodes, waiting: Option<Kern>) -> Result<(), AllocError>
    ensures { OnOk result (list.new ≡ list.old ++ spec.waiting_items waiting) }
{
    match waiting {
        None => Ok(()),
        Some(kern) => list.push(kern_node(kern)),
    }
}

/// What remains behind a break. Its only error is want of memory.
fn remains(alloc: Global, nodes: &[Node], waiting: Option<Kern>) -> Result<Nodes, AllocError>
    ensures { IfOk result (λ list. list ≡ spec.below (list_of nodes.now) ++ spec.waiting_items waiting) }
{
    let mut list = below(alloc, nodes)?;
    push_waiting(&mut list, waiting)?;
    Ok(list)
}

/// The first and the last mark of a list. Its only error is want of memory.
fn marks(list: &[Node]) -> Result<(Option<TokList>, Option<TokList>), AllocError>
    ensures { IfOk result (λ marks. marks ≡ (first_mark (list_of list.now), last_mark (list_of list.now))) }
{
    both(first_mark(list), last_mark(list))
}

/// How many nodes are held over.
fn count_held(held: &Nodes) -> Result<i32, PageError>
    ensures value { result ≡ spec.held_count held.now }
    ensures small { IfOk result (λ count. pos 0 ≤ℤ count) }
{
    if held.len() < 1 << 31 {
        Ok(held.len() as i32)
    } else {
        Err(PageError::SizeOutOfRange)
    }
}

/// What is left of the measures of a page that was fired.
fn measures_left(measures: &Measures, penalties: i32) -> Measures
    requires { IsMeasured measures.now }
    ensures value { result ≡ spec.measures_left measures.now penalties }
    ensures measured { IsMeasured result }
{
    let mut left = first_measures(penalties);
    left.contents = Contents::Fired;
    left.goal = measures.goal;
    left.sums = measures.sums;
    left.sums.depth = 0;
    left
}

impl Page {
    /// The nodes before a place.
    #[tactic(auto, using(crate::proofs::Lists::taken))]
    fn nodes_above(&self, place: usize) -> &[Node]
        ensures { list_of result.now ≡ take place self.now.nodes }
    {
        let nodes = self.nodes.as_slice();
        let (above, _) = nodes.split_at(place.min(nodes.len()));
        above
    }

    /// The nodes from a place on.
    #[tactic(auto, using(crate::proofs::Lists::dropped))]
    fn nodes_below(&self, place: usize) -> &[Node]
        ensures { list_of result.now ≡ drop place self.now.nodes }
    {
        let nodes = self.nodes.as_slice();
        let (_, below) = nodes.split_at(place.min(nodes.len()));
        below
    }

    /// What a page gives that is fired at a break, and was sorted, where so many insertions are held over. Its only error is want
    /// of memory.
    fn fired_as(
        &self,
        alloc: Global,
        made: Break,
        sorted: Sorted,
        penalties: i32,
    ) -> Result<Fired, AllocError>
        ensures { IfOk result (λ f. f ≡ spec.fired_as self.now made sorted penalties) }
    {
        let below = self.nodes_below(made.place);
        let rest = remains(alloc, below, self.waiting)?;
        let marks = marks(sorted.list.as_slice())?;
        Ok(self.told(made, sorted, penalties, marks, output_penalty(below), rest))
    }

    /// What a page gives that is fired at a break, and was sorted.
    fn fired_by(&self, alloc: Global, made: Break, sorted: Sorted) -> Result<Fired, PageError>
        ensures ok { IfOk result (λ f. spec.fired_by self.now made sorted (spec.held_count sorted.held) ≡ Ok f) }
        ensures small { IfOk result (λ f. unsigned_abs f.insert_penalties < 2 ^ 31) }
        ensures error { IfErr result (λ e. e ≢ OutOfMemory → spec.fired_by self.now made sorted (spec.held_count sorted.held) ≡ Err e) }
    {
        let penalties = count_held(&sorted.held)?;
        Ok(self.fired_as(alloc, made, sorted, penalties)?)
    }

    /// What a page gives that is fired at a break.
    fn fired_at(&self, alloc: Global, made: Break, params: &PageParams) -> Result<Fired, PageError>
        ensures ok { IfOk result (λ f. spec.fired_at self.now made params.now ≡ Ok f) }
        ensures small { IfOk result (λ f. unsigned_abs f.insert_penalties < 2 ^ 31) }
        ensures error { IfErr result (λ e. e ≢ OutOfMemory → spec.fired_at self.now made params.now ≡ Err e) }
    {
        let above = self.nodes_above(made.place);
        let sorted = sort_above(alloc, above, self.classes.as_slice(), params)?;
        self.fired_by(alloc, made, sorted)
    }

    /// What is told of a page that was sorted.
    fn told(
        &self,
        made: Break,
        sorted: Sorted,
        penalties: i32,
        marks: (Option<TokList>, Option<TokList>),
        penalty: i32,
        rest: Nodes,
    ) -> Fired
        ensures { result ≡ spec.told self.now made sorted penalties marks penalty rest }
    {
        let Sorted { list, held, boxes } = sorted;
        let (first, last) = marks;
        Fired {
            list,
            goal: made.size,
            maxdepth: i64::from(self.measures.most),
            penalty,
            held,
            rest,
            boxes,
            insert_penalties: i64::from(penalties),
            first,
            last,
        }
    }

    /// Leaves the page with nothing.
    fn leave(&mut self, alloc: Global, penalties: i32)
        ensures { self.new ≡ spec.page_left self.old penalties }
    {
        self.measures = measures_left(&self.measures, penalties);
        self.nodes = Nodes::new(alloc);
        self.waiting = None;
        self.classes = Classes::new(alloc);
    }

    /// Fires the page at its best break (TeX: The Program, sections 1012 to 1022). The list is what stands above the break; unless
    /// \holdinginserts is positive, insertions leave it: all of a class before the one that was split join the box of their class,
    /// of that one what stands above its break, and what remains of it, with \splittopskip, is held over, as are those of its
    /// class behind it. Boxes that insertions join are packed anew, to their natural size. What was contributed from the break
    /// on remains, a penalty there being 10000 from then on. Then the page has nothing; \insertpenalties is the number of
    /// insertions that are held over, and the other quantities can still be read, until `end_output`.
    ///
    /// The page may only be dropped behind an error. The errors, in this order: `WrongBox` where the box of a class that an
    /// insertion joins is an \hbox; `SizeOutOfRange` and `TooDeep` where what is held over or a box can't be packed, or what is
    /// held over has no dimension as its size, or is more than 2^31-1 insertions; and want of memory.
    #[tactic(auto, unfolding(crate::specs::Fired::fired))]
    pub fn fire(&mut self, alloc: Global, params: &PageParams) -> Result<Fired, PageError>
        ensures fired { IfOk result (λ f. spec.fired self.old params.now ≡ Ok f) }
        ensures left { IfOk result (λ f. self.new ≡ spec.page_left self.old f.insert_penalties) }
        ensures error { IfErr result (λ e. e ≢ OutOfMemory → spec.fired self.old params.now ≡ Err e) }
    {
        let made = self.measures.best.unwrap_or(no_break());
        let fired = self.fired_at(alloc, made, params)?;
        self.leave(alloc, narrow_integer(fired.insert_penalties));
        Ok(fired)
    }
}
