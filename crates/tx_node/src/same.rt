//! Whether two boxes or lists are equal. Counts and sizes are compared before what they belong to.
ghost use Rattle.std.specs.Prelude.{◌≡◌, ◌↔◌, IsTrue};
ghost use Rattle.tx_node.specs.Nodes.{item_of, list_of};

use crate::character::{Character, Ligature};
use crate::head::{
    BoxHead, BreakHead, Change, Direction, GlueSet, InsertHead, LeadersHead, Setting,
};
use crate::node::{BoxLeaders, BoxNode, Discretionary, Insertion, Node, Sublist};
use crate::plain::{KernKind, Leaders, LeadersKind, Plain, Shared};
use crate::rule::Rule;
use tx_num::Glue;

/// Whether two sides are equal.
fn same_side(a: Option<i32>, b: Option<i32>) -> bool
    ensures { IsTrue result ↔ (a ≡ b) }
{
    match (a, b) {
        (None, None) => true,
        (Some(a), Some(b)) => a == b,
        (None, Some(_)) | (Some(_), None) => false,
    }
}

/// Whether two rules have the same sides.
pub fn same_rule(a: Rule, b: Rule) -> bool
    ensures { IsTrue result ↔ (a ≡ b) }
{
    same_side(a.width, b.width) && same_side(a.height, b.height) && same_side(a.depth, b.depth)
}

/// Whether two kinds of leaders are equal.
fn same_kind(a: LeadersKind, b: LeadersKind) -> bool
    ensures { IsTrue result ↔ (a ≡ b) }
{
    a == b
}

/// Whether two glues are equal.
fn same_glue(a: Glue, b: Glue) -> bool
    ensures { IsTrue result ↔ (a ≡ b) }
{
    a.width() == b.width()
        && a.stretch() == b.stretch()
        && a.stretch_order() == b.stretch_order()
        && a.shrink() == b.shrink()
        && a.shrink_order() == b.shrink_order()
}

/// Whether two ways of setting glue are equal.
fn same_glue_set(a: GlueSet, b: GlueSet) -> bool
    ensures { IsTrue result ↔ (a ≡ b) }
{
    same_change(a.change, b.change)
        && a.order == b.order
        && a.total == b.total
        && a.excess == b.excess
}

fn same_change(a: Change, b: Change) -> bool
    ensures { IsTrue result ↔ (a ≡ b) }
{
    a == b
}

fn same_setting(a: Setting, b: Setting) -> bool
    ensures { IsTrue result ↔ (a ≡ b) }
{
    match (a, b) {
        (Setting::Natural, Setting::Natural) => true,
        (Setting::Set(a), Setting::Set(b)) => same_glue_set(a, b),
        (Setting::Natural, Setting::Set(_)) | (Setting::Set(_), Setting::Natural) => false,
    }
}

fn same_direction(a: Direction, b: Direction) -> bool
    ensures { IsTrue result ↔ (a ≡ b) }
{
    a == b
}

/// Whether two boxes are equal beside their lists.
fn same_head(a: BoxHead, b: BoxHead) -> bool
    ensures { IsTrue result ↔ (a ≡ b) }
{
    same_direction(a.direction, b.direction)
        && a.width == b.width
        && a.height == b.height
        && a.depth == b.depth
        && same_setting(a.setting, b.setting)
}

/// Whether two leaders are equal.
fn same_leaders(a: Leaders, b: Leaders) -> bool
    ensures { IsTrue result ↔ (a ≡ b) }
{
    if !same_kind(a.kind, b.kind) {
        return false;
    }
    if !same_glue(a.glue, b.glue) {
        return false;
    }
    same_rule(a.rule, b.rule)
}

/// Whether two characters are equal.
pub fn same_character(a: Character, b: Character) -> bool
    ensures { IsTrue result ↔ (a ≡ b) }
{
    a.font == b.font
        && a.code == b.code
        && a.width == b.width
        && a.height == b.height
        && a.depth == b.depth
}

/// Whether two ligatures are equal.
fn same_ligature(a: &Ligature, b: &Ligature) -> bool
    ensures { IsTrue result ↔ (a.now ≡ b.now) }
{
    same_character(a.character, b.character) && a.from.same(&b.from)
}

/// Whether two small items are equal.
fn same_plain(a: &Plain, b: &Plain) -> bool
    ensures { IsTrue result ↔ (a.now ≡ b.now) }
{
    match (a, b) {
        (Plain::Kern(k, x), Plain::Kern(l, y)) => same_origin(*k, *l) && *x == *y,
        (Plain::Glue(x), Plain::Glue(y)) => same_glue(*x, *y),
        (Plain::Penalty(x), Plain::Penalty(y)) => *x == *y,
        (Plain::Character(x), Plain::Character(y)) => same_character(*x, *y),
        _ => false,
    }
}

/// Whether two kerns come from the same.
fn same_origin(a: KernKind, b: KernKind) -> bool
    ensures { IsTrue result ↔ (a ≡ b) }
{
    a == b
}

/// Whether two larger items are equal.
fn same_shared(a: &Shared, b: &Shared) -> bool
    ensures { IsTrue result ↔ (a.now ≡ b.now) }
{
    match (a, b) {
        (Shared::Rule(a), Shared::Rule(b)) => same_rule(*a, *b),
        (Shared::Leaders(a), Shared::Leaders(b)) => same_leaders(*a, *b),
        (Shared::Special(a), Shared::Special(b)) => a.same(b),
        (Shared::Ligature(a), Shared::Ligature(b)) => same_ligature(a, b),
        (Shared::Mark(a), Shared::Mark(b)) => a.same(b),
        _ => false,
    }
}

/// Whether two discretionaries are equal beside their texts.
fn same_break(a: BreakHead, b: BreakHead) -> bool
    ensures { IsTrue result ↔ (a ≡ b) }
{
    a.replaced == b.replaced && a.hyphenated == b.hyphenated
}

/// Whether two insertions are equal beside their lists.
fn same_insert(a: &InsertHead, b: &InsertHead) -> bool
    ensures { IsTrue result ↔ (a.now ≡ b.now) }
{
    a.class == b.class
        && a.size == b.size
        && same_glue(a.split_top_skip, b.split_top_skip)
        && a.split_max_depth == b.split_max_depth
        && a.floating_penalty == b.floating_penalty
}

/// Whether leaders of two boxes are equal beside these.
fn same_leaders_head(a: LeadersHead, b: LeadersHead) -> bool
    ensures { IsTrue result ↔ (a ≡ b) }
{
    same_kind(a.kind, b.kind) && same_glue(a.glue, b.glue)
}

/// Whether two nodes are the same item.
#[cycle(same)]
pub fn same_node(a: &Node, b: &Node) -> bool
    ensures { IsTrue result ↔ (item_of a.now ≡ item_of b.now) }
{
    match (a, b) {
        (Node::Plain(a), Node::Plain(b)) => same_plain(a, b),
        (Node::Shared(a), Node::Shared(b)) => same_shared(a, b),
        (Node::Box(s, a), Node::Box(t, b)) => *s == *t && same_box(a, b),
        (Node::Discretionary(a), Node::Discretionary(b)) => same_discretionary(a, b),
        (Node::Adjustment(a), Node::Adjustment(b)) => same_sublist(a, b),
        (Node::Insertion(a), Node::Insertion(b)) => same_insertion(a, b),
        (Node::BoxLeaders(a), Node::BoxLeaders(b)) => same_box_leaders(a, b),
        _ => false,
    }
}

/// Whether two boxes are equal.
#[cycle(same)]
pub fn same_box(a: &BoxNode, b: &BoxNode) -> bool
    ensures { IsTrue result ↔ (a.now ≡ b.now) }
{
    if a.count() != b.count() {
        return false;
    }
    if !same_head(a.head(), b.head()) {
        return false;
    }
    same_list(a.list(), b.list())
}

/// Whether two discretionaries are equal.
#[cycle(same)]
fn same_discretionary(a: &Discretionary, b: &Discretionary) -> bool
    ensures { IsTrue result ↔ (a.now ≡ b.now) }
{
    if !same_break(a.head, b.head) {
        return false;
    }
    if !same_sublist(&a.before, &b.before) {
        return false;
    }
    same_sublist(&a.behind, &b.behind)
}

/// Whether two insertions are equal.
#[cycle(same)]
fn same_insertion(a: &Insertion, b: &Insertion) -> bool
    ensures { IsTrue result ↔ (a.now ≡ b.now) }
{
    if !same_insert(&a.head, &b.head) {
        return false;
    }
    same_sublist(&a.list, &b.list)
}

/// Whether leaders of two boxes are equal.
#[cycle(same)]
fn same_box_leaders(a: &BoxLeaders, b: &BoxLeaders) -> bool
    ensures { IsTrue result ↔ (a.now ≡ b.now) }
{
    if !same_leaders_head(a.head, b.head) {
        return false;
    }
    same_box(&a.inner, &b.inner)
}

/// Whether two lists that nodes have are equal.
#[cycle(same)]
fn same_sublist(a: &Sublist, b: &Sublist) -> bool
    ensures { IsTrue result ↔ (a.now ≡ b.now) }
{
    if a.count() != b.count() {
        return false;
    }
    same_list(a.as_slice(), b.as_slice())
}

/// Whether two lists have the same items.
#[cycle(same)]
pub fn same_list(a: &[Node], b: &[Node]) -> bool
    ensures { IsTrue result ↔ (list_of a.now ≡ list_of b.now) }
{
    if a.len() != b.len() {
        return false;
    }
    for i in 0..a.len() {
        if !same_node(&a[i], &b[i]) {
            return false;
        }
    }
    true
}
