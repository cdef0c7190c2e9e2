//! Sums over a list.
ghost use Rattle.std.specs.Prelude.{◌≡◌, ◌≤◌, ◌+◌, ◌^◌, ◌+ℤ◌, ◌-ℤ◌, unsigned_abs, IfSome};
ghost use Rattle.std.specs.Int.{int_max};
ghost use Rattle.tx_num.specs.Glue.{IsDimension};
ghost use Rattle.tx_node.specs.declared.head.Direction.TheVariants.{Horizontal};
ghost use Rattle.tx_node.specs.Setting.{glue_part};
ghost use Rattle.tx_node.specs.Sizes.{advance, glue_of_item};
ghost use Rattle.tx_node.specs.Nodes.{item_of, list_of};
ghost use Rattle.tx_node.specs.Items.{plain};
ghost use Rattle.tx_node.specs.declared.plain.Plain.TheVariants as small;
ghost use Rattle.tx_pack.specs.Sums as spec;

use crate::asked::{depth_asked, depth_left, height_asked, width_asked};
use tx_node::{Change, Character, Direction, Node, Plain};
use tx_num::{Glue, fits};

/// Stretch or shrink by its order, in sp.
#[derive(Clone, Copy)]
pub struct Orders {
    pub normal: i64,
    pub fil: i64,
    pub fill: i64,
    pub filll: i64,
}

/// What a list has so far, in sp: its sizes, and the stretch and shrink of its glue.
#[derive(Clone, Copy)]
pub struct Sums {
    pub width: i64,
    pub height: i64,
    pub depth: i64,
    pub stretch: Orders,
    pub shrink: Orders,
}

/// A sum with one more size, in sp.
pub fn plus(sum: i64, more: i64) -> i64
    requires sum_in { unsigned_abs sum ≤ 2 ^ 40 }
    requires more_in { unsigned_abs more ≤ 2 ^ 40 }
    ensures value { result ≡ sum +ℤ more }
    ensures size { unsigned_abs result ≤ unsigned_abs sum + unsigned_abs more }
{
    sum + more
}

/// A size less another, in sp.
pub fn minus(size: i64, other: i64) -> i64
    requires size_in { unsigned_abs size ≤ 2 ^ 41 }
    requires other_in { unsigned_abs other ≤ 2 ^ 41 }
    ensures value { result ≡ size -ℤ other }
    ensures size { unsigned_abs result ≤ unsigned_abs size + unsigned_abs other }
{
    size - other
}

/// The greater of two sizes.
fn greater(size: i64, other: i64) -> i64
    ensures { result ≡ int_max size other }
{
    size.max(other)
}

/// The stretch or shrink of an order, with that of more glue.
fn part_of(change: Change, order: u8, glue: &Glue, sum: i64) -> i64
    requires { IsDimension sum }
    ensures { result ≡ sum +ℤ glue_part change order glue.now }
{
    plus(sum, tx_node::glue_part(change, order, glue))
}

/// With the stretch or shrink of more glue.
fn with_some_glue(change: Change, glue: &Glue, orders: &Orders) -> Orders
    requires { spec.AreSmall orders.now }
    ensures { result ≡ spec.with_glue change (Some glue.now) orders.now }
{
    Orders {
        normal: part_of(change, 0, glue, orders.normal),
        fil: part_of(change, 1, glue, orders.fil),
        fill: part_of(change, 2, glue, orders.fill),
        filll: part_of(change, 3, glue, orders.filll),
    }
}

/// With that of a node, if it has glue.
fn with_glue(change: Change, node: &Node, orders: &Orders) -> Orders
    requires { spec.AreSmall orders.now }
    ensures { result ≡ spec.with_glue change (glue_of_item (item_of node.now)) orders.now }
{
    match node.glue() {
        None => *orders,
        Some(glue) => with_some_glue(change, &glue, orders),
    }
}

/// The width of a horizontal list with one more node.
fn width_beside(sums: &Sums, node: &Node) -> i64
    requires { spec.IsSmall sums.now }
    ensures { result ≡ sums.now.width +ℤ advance Horizontal (item_of node.now) }
{
    plus(sums.width, node.advance(Direction::Horizontal))
}

/// Its height.
fn height_beside(sums: &Sums, node: &Node) -> i64
    ensures { result ≡ int_max sums.now.height (spec.height_asked (item_of node.now)) }
{
    greater(sums.height, height_asked(node))
}

/// Its depth.
fn depth_beside(sums: &Sums, node: &Node) -> i64
    ensures { result ≡ int_max sums.now.depth (spec.depth_asked (item_of node.now)) }
{
    greater(sums.depth, depth_asked(node))
}

/// The sums of a horizontal list with one more node.
fn beside(sums: &Sums, node: &Node) -> Sums
    requires { spec.IsSmall sums.now }
    ensures { result ≡ spec.beside sums.now (item_of node.now) }
{
    Sums {
        width: width_beside(sums, node),
        height: height_beside(sums, node),
        depth: depth_beside(sums, node),
        stretch: with_glue(Change::Stretch, node, &sums.stretch),
        shrink: with_glue(Change::Shrink, node, &sums.shrink),
    }
}

/// The width of a vertical list with one more node.
fn width_below(sums: &Sums, node: &Node) -> i64
    ensures { result ≡ int_max sums.now.width (spec.width_asked (item_of node.now)) }
{
    greater(sums.width, width_asked(node))
}

/// Its depth.
fn depth_below(sums: &Sums, node: &Node) -> i64
    requires { spec.IsSmall sums.now }
    ensures value { result ≡ spec.depth_left sums.now.depth (item_of node.now) }
    ensures size { unsigned_abs result ≤ 2 ^ 31 }
{
    depth_left(sums.depth, node)
}

/// Its height.
fn height_below(sums: &Sums, node: &Node) -> i64
    requires { spec.IsSmall sums.now }
    ensures { result ≡ spec.height_below sums.now (item_of node.now) }
{
    let reached = plus(sums.height, sums.depth);
    minus(
        plus(reached, node.advance(Direction::Vertical)),
        depth_below(sums, node),
    )
}

/// The sums of a vertical list with one more node.
fn below(sums: &Sums, node: &Node) -> Sums
    requires { spec.IsSmall sums.now }
    ensures { result ≡ spec.below sums.now (item_of node.now) }
{
    Sums {
        width: width_below(sums, node),
        height: height_below(sums, node),
        depth: depth_below(sums, node),
        stretch: with_glue(Change::Stretch, node, &sums.stretch),
        shrink: with_glue(Change::Shrink, node, &sums.shrink),
    }
}

fn joined(direction: Direction, sums: &Sums, node: &Node) -> Sums
    requires { spec.IsSmall sums.now }
    ensures { result ≡ spec.joined direction sums.now (item_of node.now) }
{
    match direction {
        Direction::Horizontal => beside(sums, node),
        Direction::Vertical => below(sums, node),
    }
}

/// The sums of the empty list.
fn nothing() -> Sums
    ensures value { result ≡ spec.nothing }
    ensures small { spec.IsSmall result }
{
    let none = Orders {
        normal: 0,
        fil: 0,
        fill: 0,
        filll: 0,
    };
    Sums {
        width: 0,
        height: 0,
        depth: 0,
        stretch: none,
        shrink: none,
    }
}

/// Whether what a node asks across its list are dimensions.
fn asked_fit(direction: Direction, node: &Node) -> bool
    ensures { result ≡ spec.asked_fit direction (item_of node.now) }
{
    match direction {
        Direction::Horizontal => fits(height_asked(node)) && fits(depth_asked(node)),
        Direction::Vertical => fits(width_asked(node)),
    }
}

fn orders_fit(orders: &Orders) -> bool
    ensures { result ≡ spec.orders_fit orders.now }
{
    (fits(orders.normal) && fits(orders.fil)) && (fits(orders.fill) && fits(orders.filll))
}

fn sizes_fit(sums: &Sums) -> bool
    ensures { result ≡ spec.sizes_fit sums.now }
{
    (fits(sums.width) && fits(sums.height)) && fits(sums.depth)
}

/// Whether all sums are dimensions.
fn all_fit(sums: &Sums) -> bool
    ensures { result ≡ spec.all_fit sums.now }
{
    sizes_fit(sums) && (orders_fit(&sums.stretch) && orders_fit(&sums.shrink))
}

/// The sums with one more node, None where one of them is no dimension.
fn any_if_fit(direction: Direction, sums: &Sums, node: &Node) -> Option<Sums>
    requires { spec.IsSmall sums.now }
    ensures value { result ≡ spec.joined_if_fit direction sums.now (item_of node.now) }
    ensures small { IfSome result spec.IsSmall }
{
    let more = joined(direction, sums, node);
    if asked_fit(direction, node) && all_fit(&more) {
        Some(more)
    } else {
        None
    }
}

/// Whether a character's height and depth are dimensions.
fn character_fits(character: Character) -> bool
    ensures { result ≡ spec.asked_fit Horizontal (plain (small.Character character)) }
{
    fits(i64::from(character.height)) && fits(i64::from(character.depth))
}

/// The sums of a horizontal list with one more character, which has no glue: those of stretch and shrink stay.
fn beside_character(sums: &Sums, character: Character) -> Sums
    requires { spec.IsSmall sums.now }
    ensures { result ≡ spec.beside sums.now (plain (small.Character character)) }
{
    Sums {
        width: plus(sums.width, i64::from(character.width)),
        height: greater(sums.height, i64::from(character.height)),
        depth: greater(sums.depth, i64::from(character.depth)),
        stretch: sums.stretch,
        shrink: sums.shrink,
    }
}

/// These, None where one of them is no dimension. The sums that stay are dimensions, so only the others are looked at.
fn character_if_fits(sums: &Sums, character: Character) -> Option<Sums>
    requires { spec.IsSmall sums.now }
    ensures value { result ≡ spec.joined_if_fit Horizontal sums.now (plain (small.Character character)) }
    ensures small { IfSome result spec.IsSmall }
{
    let more = beside_character(sums, character);
    if character_fits(character) && sizes_fit(&more) {
        Some(more)
    } else {
        None
    }
}

/// The sums with one more node, None where one of them is no dimension. Most nodes of a line are characters.
fn joined_if_fit(direction: Direction, sums: &Sums, node: &Node) -> Option<Sums>
    requires { spec.IsSmall sums.now }
    ensures value { result ≡ spec.joined_if_fit direction sums.now (item_of node.now) }
    ensures small { IfSome result spec.IsSmall }
{
    match (direction, node) {
        (Direction::Horizontal, Node::Plain(Plain::Character(character))) => character_if_fits(
            sums, *character,
        ),
        (Direction::Horizontal, _) | (Direction::Vertical, _) => any_if_fit(direction, sums, node),
    }
}

/// The sums of a list, None exactly where one of them is no dimension behind some node.
pub fn sums_of(direction: Direction, list: &[Node]) -> Option<Sums>
    ensures value { result ≡ spec.sums_of direction (list_of list.now) }
    ensures small { IfSome result spec.IsSmall }
{
    let mut sums = nothing();
    for node in list {
        match joined_if_fit(direction, &sums, node) {
            Some(more) => sums = more,
            None => return None,
        }
    }
    Some(sums)
}
