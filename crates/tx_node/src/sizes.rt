//! How far items reach.
ghost use Rattle.std.specs.Prelude.{◌≡◌, ◌≤◌, ◌^◌, unsigned_abs};
ghost use Rattle.tx_node.specs.Nodes.{item_of};
ghost use Rattle.tx_node.specs.Sizes as spec;

use crate::character::Character;
use crate::head::{BoxHead, Direction};
use crate::node::Node;
use crate::plain::{Plain, Shared};
use crate::rule::Rule;
use tx_num::Glue;

/// A side of a rule, nothing where it runs.
pub fn side(given: Option<i32>) -> i32
    ensures { result ≡ spec.side given }
{
    given.unwrap_or(0)
}

/// How far a rule reaches in a list of this direction, in sp.
fn rule_advance(direction: Direction, rule: Rule) -> i64
    ensures value { result ≡ spec.rule_advance direction rule }
    ensures size { unsigned_abs result ≤ 2 ^ 32 }
{
    match direction {
        Direction::Horizontal => i64::from(side(rule.width)),
        Direction::Vertical => i64::from(side(rule.height)) + i64::from(side(rule.depth)),
    }
}

impl BoxHead {
    /// How far the box reaches in a list of this direction, in sp.
    pub fn advance(&self, direction: Direction) -> i64
        ensures value { result ≡ spec.box_advance direction self.now }
        ensures size { unsigned_abs result ≤ 2 ^ 32 }
    {
        match direction {
            Direction::Horizontal => i64::from(self.width),
            Direction::Vertical => i64::from(self.height) + i64::from(self.depth),
        }
    }
}

impl Character {
    /// How far the character reaches in a list of this direction, in sp.
    pub fn advance(&self, direction: Direction) -> i64
        ensures value { result ≡ spec.character_advance direction self.now }
        ensures size { unsigned_abs result ≤ 2 ^ 32 }
    {
        match direction {
            Direction::Horizontal => i64::from(self.width),
            Direction::Vertical => i64::from(self.height) + i64::from(self.depth),
        }
    }
}

/// How far a small item moves the reference point naturally, in a list of this direction, in sp.
fn plain_advance(direction: Direction, item: Plain) -> i64
    ensures value { result ≡ spec.plain_advance direction item }
    ensures size { unsigned_abs result ≤ 2 ^ 32 }
{
    match item {
        Plain::Kern(_, size) => i64::from(size),
        Plain::Glue(glue) => glue.width(),
        Plain::Penalty(_) => 0,
        Plain::Character(character) => character.advance(direction),
    }
}

/// How far a larger item does.
fn shared_advance(direction: Direction, item: &Shared) -> i64
    ensures value { result ≡ spec.shared_advance direction item.now }
    ensures size { unsigned_abs result ≤ 2 ^ 32 }
{
    match item {
        Shared::Rule(rule) => rule_advance(direction, *rule),
        Shared::Leaders(leaders) => leaders.glue.width(),
        Shared::Special(_) | Shared::Mark(_) => 0,
        Shared::Ligature(ligature) => ligature.character.advance(direction),
    }
}

impl Node {
    /// How far the node moves the reference point naturally, in sp: to the right in a horizontal list, down in a vertical one.
    #[inline(always)]
    pub fn advance(&self, direction: Direction) -> i64
        ensures value { result ≡ spec.advance direction (item_of self.now) }
        ensures size { unsigned_abs result ≤ 2 ^ 32 }
    {
        match self {
            Node::Plain(item) => plain_advance(direction, *item),
            Node::Shared(item) => shared_advance(direction, item),
            Node::Box(_, inner) => inner.head().advance(direction),
            Node::Discretionary(_) | Node::Adjustment(_) | Node::Insertion(_) => 0,
            Node::BoxLeaders(leaders) => leaders.head().glue.width(),
        }
    }

    /// Its glue, or that of the leaders that it is.
    pub fn glue(&self) -> Option<Glue>
        ensures { result ≡ spec.glue_of_item (item_of self.now) }
    {
        match self {
            Node::Plain(item) => plain_glue(*item),
            Node::Shared(item) => shared_glue(item),
            Node::Box(_, _) | Node::Discretionary(_) | Node::Adjustment(_) | Node::Insertion(_) =>
                None,
            Node::BoxLeaders(leaders) => Some(leaders.head().glue),
        }
    }
}

fn plain_glue(item: Plain) -> Option<Glue>
    ensures { result ≡ spec.plain_glue item }
{
    match item {
        Plain::Kern(_, _) | Plain::Penalty(_) | Plain::Character(_) => None,
        Plain::Glue(glue) => Some(glue),
    }
}

fn shared_glue(item: &Shared) -> Option<Glue>
    ensures { result ≡ spec.shared_glue item.now }
{
    match item {
        Shared::Rule(_) | Shared::Special(_) | Shared::Ligature(_) | Shared::Mark(_) => None,
        Shared::Leaders(leaders) => Some(leaders.glue),
    }
}
