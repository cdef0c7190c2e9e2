//! What an insertion makes of a page's measures and its class.
ghost use Rattle.std.specs.Prelude.{◌≡◌, ◌≤◌, ◌<ℤ◌, ◌^◌, ◌+◌, ◌+ℤ◌, ◌*ℤ◌, pos, int_div, int_le, unsigned_abs, IfOk, Ok};
ghost use Rattle.tx_num.specs.Glue.{IsDimension};
ghost use Rattle.tx_node.specs.Nodes.{item_of, list_of};
ghost use Rattle.tx_pagebuilder.specs.Inserts as spec;
ghost use Rattle.tx_pagebuilder.specs.Placing.{IsMeasured};

use crate::class::{Class, Cut};
use crate::classes::class_of;
use crate::error::PageError;
use crate::inserted::Inserted;
use crate::measures::Measures;
use crate::params::ClassParams;
use crate::sizes::{
    dimension, integer, minus, narrow, plus, quotient, thousandfold, thousandth, times, wide,
};
use tx_insert::{Break, Kind, SplitError, glue_fits, shrinks_endlessly, vbreak, with_elastic};
use tx_node::{InsertHead, Node, Plain};
use tx_num::{GREATEST_DIMENSION, Glue};

/// By how much a size in a class's box makes the goal fall, in sp.
fn scaled(count: i32, size: i32) -> i64
    ensures value { result ≡ spec.scaled count size }
    ensures bound { unsigned_abs result ≤ 2 ^ 62 }
{
    if count == 1000 {
        i64::from(size)
    } else {
        times(thousandth(size), count)
    }
}

/// The measures with a goal that has fallen by so much, in sp.
fn lowered(measures: &Measures, size: i64) -> Result<Measures, PageError>
    requires measured { IsMeasured measures.now }
    requires bound { unsigned_abs size ≤ 2 ^ 62 + 2 ^ 61 }
    ensures value { result ≡ spec.lowered measures.now size }
    ensures measured { IfOk result IsMeasured }
{
    let mut more = *measures;
    more.goal = dimension(minus(i64::from(measures.goal), size))?;
    Ok(more)
}

/// The measures with a goal that has fallen by what so much in a class's box is, in sp.
fn lowered_by(measures: &Measures, count: i32, size: i32) -> Result<Measures, PageError>
    requires { IsMeasured measures.now }
    ensures value { result ≡ spec.lowered measures.now (spec.scaled count size) }
    ensures measured { IfOk result IsMeasured }
{
    lowered(measures, scaled(count, size))
}

/// The measures with an \insertpenalties that has grown by so much.
fn penalized(measures: &Measures, penalty: i32) -> Result<Measures, PageError>
    requires { IsMeasured measures.now }
    ensures value { result ≡ spec.penalized measures.now penalty }
    ensures measured { IfOk result IsMeasured }
{
    let mut more = *measures;
    more.insert_penalties = integer(plus(
        i64::from(measures.insert_penalties),
        i64::from(penalty),
    ))?;
    Ok(more)
}

/// The measures with \skip's stretch and shrink.
fn skipped(measures: &Measures, glue: &Glue) -> Result<Measures, PageError>
    requires { IsMeasured measures.now }
    ensures value { result ≡ spec.skipped measures.now glue.now }
    ensures measured { IfOk result IsMeasured }
{
    if shrinks_endlessly(&Kind::Skip(*glue)) {
        return Err(PageError::EndlessShrink);
    }
    let sums = with_elastic(&measures.sums, glue);
    if !glue_fits(&sums) {
        return Err(PageError::SizeOutOfRange);
    }
    let mut more = *measures;
    more.sums = sums;
    Ok(more)
}

/// A class with the measures behind an insertion, or why there are none.
fn with_measures(class: Class, measures: Result<Measures, PageError>) -> Result<Inserted, PageError>
    requires { IfOk measures IsMeasured }
    ensures value { result ≡ spec.inserted class measures }
    ensures measured { IfOk result (λ i. IsMeasured i.measures) }
{
    Ok(Inserted {
        measures: measures?,
        class,
    })
}

/// The first insertion of a class whose box is so high and deep together, in sp.
fn opened_with(
    measures: &Measures,
    number: u8,
    params: &ClassParams,
    size: Result<i32, PageError>,
) -> Result<Inserted, PageError>
    requires { IsMeasured measures.now }
    ensures value { result ≡ spec.opened_with measures.now number params.now size }
    ensures measured { IfOk result (λ i. IsMeasured i.measures) }
{
    let size = size?;
    let class = Class {
        number,
        size,
        split: None,
    };
    let fall = plus(scaled(params.count, size), params.skip.width());
    with_measures(class, lowered(measures, fall))
}

/// The same with the measures that \skip has joined.
fn opened_by(
    number: u8,
    params: &ClassParams,
    measures: Result<Measures, PageError>,
) -> Result<Inserted, PageError>
    requires { IfOk measures IsMeasured }
    ensures value { result ≡ spec.opened_by number params.now measures }
    ensures measured { IfOk result (λ i. IsMeasured i.measures) }
{
    let measures = measures?;
    let size = dimension(params.box_size.unwrap_or(0));
    opened_with(&measures, number, params, size)
}

/// The first insertion of a class on the page.
fn opened(measures: &Measures, number: u8, params: &ClassParams) -> Result<Inserted, PageError>
    requires { IsMeasured measures.now }
    ensures value { result ≡ spec.opened measures.now number params.now }
    ensures measured { IfOk result (λ i. IsMeasured i.measures) }
{
    if params.is_hbox {
        return Err(PageError::WrongBox);
    }
    opened_by(number, params, skipped(measures, &params.skip))
}

/// How much is left of the goal, in sp.
fn free(measures: &Measures) -> i64
    requires { IsMeasured measures.now }
    ensures value { result ≡ spec.free measures.now }
    ensures bound { unsigned_abs result ≤ 2 ^ 32 }
{
    minus(
        minus(i64::from(measures.goal), measures.sums.height),
        measures.sums.depth,
    )
}

/// Whether the goal can fall by so much, in sp.
fn has_room(measures: &Measures, size: i64) -> bool
    requires { IsMeasured measures.now }
    ensures { result ≡ spec.has_room measures.now size }
{
    size <= 0 || size <= plus(free(measures), measures.sums.shrink)
}

/// Whether the box of a class may have so much more, in sp.
fn is_within(class: &Class, size: i32, params: &ClassParams) -> bool
    ensures { result ≡ int_le (size +ℤ class.now.size) params.now.dimen }
{
    plus(i64::from(size), i64::from(class.size)) <= i64::from(params.dimen)
}

/// Whether an insertion of this size, in sp, fits.
fn fits_in(measures: &Measures, class: &Class, size: i32, params: &ClassParams) -> bool
    requires { IsMeasured measures.now }
    ensures { result ≡ spec.fits_in measures.now class.now size params.now }
{
    has_room(measures, scaled(params.count, size)) && is_within(class, size, params)
}

/// An insertion of this size, in sp, that joins its class as a whole, which has so much then.
fn whole_with(
    measures: &Measures,
    class: &Class,
    size: i32,
    params: &ClassParams,
    sum: Result<i32, PageError>,
) -> Result<Inserted, PageError>
    requires { IsMeasured measures.now }
    ensures value { result ≡ spec.whole_with measures.now class.now size params.now sum }
    ensures measured { IfOk result (λ i. IsMeasured i.measures) }
{
    let sum = sum?;
    let class = Class {
        number: class.number,
        size: sum,
        split: class.split,
    };
    with_measures(class, lowered_by(measures, params.count, size))
}

/// An insertion of this size, in sp, that joins its class as a whole.
fn whole(
    measures: &Measures,
    class: &Class,
    size: i32,
    params: &ClassParams,
) -> Result<Inserted, PageError>
    requires { IsMeasured measures.now }
    ensures value { result ≡ spec.whole measures.now class.now size params.now }
    ensures measured { IfOk result (λ i. IsMeasured i.measures) }
{
    let sum = dimension(plus(i64::from(class.size), i64::from(size)));
    whole_with(measures, class, size, params, sum)
}

/// How high it may be where what is left of the goal holds a thousandth of it so many times, in sp.
fn shared_size(measures: &Measures, count: i32) -> i64
    requires measured { IsMeasured measures.now }
    requires count { pos 0 <ℤ count }
    ensures { result ≡ int_div (spec.free measures.now) count *ℤ pos 1000 }
{
    thousandfold(quotient(free(measures), i64::from(count)))
}

/// How high the part of an insertion may be that joins, as far as the page says, in sp.
fn open_size(measures: &Measures, params: &ClassParams) -> i64
    requires { IsMeasured measures.now }
    ensures { result ≡ spec.open_size measures.now params.now }
{
    if params.count <= 0 {
        GREATEST_DIMENSION
    } else if params.count == 1000 {
        free(measures)
    } else {
        shared_size(measures, params.count)
    }
}

/// The same as far as its class says, too.
fn split_size(measures: &Measures, class: &Class, params: &ClassParams) -> i64
    requires { IsMeasured measures.now }
    ensures { result ≡ spec.split_size measures.now class.now params.now }
{
    open_size(measures, params).min(minus(i64::from(params.dimen), i64::from(class.size)))
}

fn plain_price(item: &Plain) -> i32
    ensures { result ≡ spec.plain_price item.now }
{
    match item {
        Plain::Kern(_, _) | Plain::Glue(_) | Plain::Character(_) => 0,
        Plain::Penalty(penalty) => *penalty,
    }
}

fn item_price(node: &Node) -> i32
    ensures { result ≡ spec.item_price (item_of node.now) }
{
    match node {
        Node::Plain(item) => plain_price(item),
        Node::Shared(_) | Node::Box(_, _) => 0,
        Node::Discretionary(_) | Node::Adjustment(_) | Node::Insertion(_) => 0,
        Node::BoxLeaders(_) => 0,
    }
}

/// What a break at a place of a list costs \insertpenalties.
fn price_at(list: &[Node], place: usize) -> i32
    ensures { result ≡ spec.price_in (list_of list.now) place }
{
    match list.get(place) {
        None => -10_000,
        Some(node) => item_price(node),
    }
}

/// A class that was split, where its break costs so much.
fn cut_penalized(
    class: Class,
    price: i32,
    measures: Result<Measures, PageError>,
) -> Result<Inserted, PageError>
    requires { IfOk measures IsMeasured }
    ensures value { result ≡ spec.cut_penalized class price measures }
    ensures measured { IfOk result (λ i. IsMeasured i.measures) }
{
    let low = measures?;
    with_measures(class, penalized(&low, price))
}

/// An insertion at a place of the page whose list is broken, at so much, where the class has so much then.
fn cut_with(
    measures: &Measures,
    class: &Class,
    made: Break,
    place: usize,
    price: i32,
    params: &ClassParams,
    sum: Result<i32, PageError>,
) -> Result<Inserted, PageError>
    requires measured { IsMeasured measures.now }
    requires size { IsDimension made.size }
    ensures value { result ≡ spec.cut_with measures.now class.now made place price params.now sum }
    ensures measured { IfOk result (λ i. IsMeasured i.measures) }
{
    let sum = sum?;
    let class = Class {
        number: class.number,
        size: sum,
        split: Some(Cut {
            insert: place,
            place: made.place,
        }),
    };
    let low = lowered_by(measures, params.count, narrow(made.size));
    cut_penalized(class, price, low)
}

/// An insertion at a place of the page whose list is broken there.
fn cut_made(
    measures: &Measures,
    class: &Class,
    place: usize,
    list: &[Node],
    params: &ClassParams,
    made: Break,
) -> Result<Inserted, PageError>
    requires measured { IsMeasured measures.now }
    requires size { IsDimension made.size }
    ensures value { result ≡ spec.cut_at measures.now class.now place (list_of list.now) params.now (Ok made) }
    ensures measured { IfOk result (λ i. IsMeasured i.measures) }
{
    let price = price_at(list, made.place);
    let sum = dimension(plus(wide(class.size), made.size));
    cut_with(measures, class, made, place, price, params, sum)
}

/// An insertion at a place of the page whose list is broken, or why it isn't.
fn cut_at(
    measures: &Measures,
    class: &Class,
    place: usize,
    list: &[Node],
    params: &ClassParams,
    made: Result<Break, SplitError>,
) -> Result<Inserted, PageError>
    requires measured { IsMeasured measures.now }
    requires size { IfOk made (λ b. IsDimension b.size) }
    ensures value { result ≡ spec.cut_at measures.now class.now place (list_of list.now) params.now made }
    ensures measured { IfOk result (λ i. IsMeasured i.measures) }
{
    let made = made?;
    cut_made(measures, class, place, list, params, made)
}

/// An insertion at a place of the page that is split to this height and greatest depth, in sp.
fn cut_by(
    measures: &Measures,
    class: &Class,
    place: usize,
    list: &[Node],
    params: &ClassParams,
    goal: Result<i32, PageError>,
    most: Result<i32, PageError>,
) -> Result<Inserted, PageError>
    requires measured { IsMeasured measures.now }
    requires goal { IfOk goal IsDimension }
    requires most { IfOk most IsDimension }
    ensures value { result ≡ spec.cut_by measures.now class.now place (list_of list.now) params.now goal most }
    ensures measured { IfOk result (λ i. IsMeasured i.measures) }
{
    let goal = goal?;
    let most = most?;
    let made = vbreak(list, i64::from(goal), i64::from(most));
    cut_at(measures, class, place, list, params, made)
}

/// An insertion at a place of the page that is split.
fn cut(
    measures: &Measures,
    class: &Class,
    place: usize,
    head: &InsertHead,
    list: &[Node],
    params: &ClassParams,
) -> Result<Inserted, PageError>
    requires { IsMeasured measures.now }
    ensures value { result ≡ spec.cut measures.now class.now place head.now (list_of list.now) params.now }
    ensures measured { IfOk result (λ i. IsMeasured i.measures) }
{
    let goal = dimension(split_size(measures, class, params));
    let most = dimension(i64::from(head.split_max_depth));
    cut_by(measures, class, place, list, params, goal, most)
}

/// An insertion at a place of the page, of a class that wasn't split.
fn unsplit(
    measures: &Measures,
    class: &Class,
    place: usize,
    head: &InsertHead,
    list: &[Node],
    params: &ClassParams,
) -> Result<Inserted, PageError>
    requires { IsMeasured measures.now }
    ensures value { result ≡ spec.unsplit measures.now class.now place head.now (list_of list.now) params.now }
    ensures measured { IfOk result (λ i. IsMeasured i.measures) }
{
    if fits_in(measures, class, head.size, params) {
        whole(measures, class, head.size, params)
    } else {
        cut(measures, class, place, head, list, params)
    }
}

/// An insertion that floats to another page.
fn floated(measures: &Measures, class: &Class, penalty: i32) -> Result<Inserted, PageError>
    requires { IsMeasured measures.now }
    ensures value { result ≡ spec.inserted class.now (spec.penalized measures.now penalty) }
    ensures measured { IfOk result (λ i. IsMeasured i.measures) }
{
    with_measures(*class, penalized(measures, penalty))
}

/// An insertion at a place of the page.
fn counted(
    measures: &Measures,
    class: &Class,
    place: usize,
    head: &InsertHead,
    list: &[Node],
    params: &ClassParams,
) -> Result<Inserted, PageError>
    requires { IsMeasured measures.now }
    ensures value { result ≡ spec.counted measures.now class.now place head.now (list_of list.now) params.now }
    ensures measured { IfOk result (λ i. IsMeasured i.measures) }
{
    match class.split {
        None => unsplit(measures, class, place, head, list, params),
        Some(_) => floated(measures, class, head.floating_penalty),
    }
}

/// A class, as it is on the page or comes there.
fn class_on(
    measures: &Measures,
    classes: &[Class],
    number: u8,
    params: &ClassParams,
) -> Result<Inserted, PageError>
    requires { IsMeasured measures.now }
    ensures value { result ≡ spec.class_on measures.now number params.now (spec.class_of number classes.now) }
    ensures measured { IfOk result (λ i. IsMeasured i.measures) }
{
    match class_of(number, classes) {
        None => opened(measures, number, params),
        Some(class) => Ok(Inserted {
            measures: *measures,
            class,
        }),
    }
}

/// An insertion at a place of the page, whose class is on the page or can't come there.
fn counted_in(
    place: usize,
    head: &InsertHead,
    list: &[Node],
    params: &ClassParams,
    found: Result<Inserted, PageError>,
) -> Result<Inserted, PageError>
    requires { IfOk found (λ i. IsMeasured i.measures) }
    ensures value { result ≡ spec.counted_in place head.now (list_of list.now) params.now found }
    ensures measured { IfOk result (λ i. IsMeasured i.measures) }
{
    let found = found?;
    counted(&found.measures, &found.class, place, head, list, params)
}

/// What an insertion at a place of the page makes of its measures and its class.
#[tactic(auto, unfolding(crate::specs::Inserts::taken_in))]
pub(crate) fn taken_in(
    measures: &Measures,
    classes: &[Class],
    place: usize,
    head: &InsertHead,
    list: &[Node],
    params: &ClassParams,
) -> Result<Inserted, PageError>
    requires { IsMeasured measures.now }
    ensures value { result ≡ spec.taken_in measures.now classes.now place head.now (list_of list.now) params.now }
    ensures measured { IfOk result (λ i. IsMeasured i.measures) }
{
    let found = class_on(measures, classes, head.class, params);
    counted_in(place, head, list, params, found)
}
