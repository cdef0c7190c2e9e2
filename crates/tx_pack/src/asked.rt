//! What an item asks of the box that its list is packed in.
ghost use Rattle.std.specs.Prelude.{◌≡◌, ◌≤◌, ◌^◌, unsigned_abs};
ghost use Rattle.tx_node.specs.Nodes.{item_of};
ghost use Rattle.tx_pack.specs.Sums as spec;

use tx_node::{Character, Node, Plain, Rule, Shared, side};

/// No sides at all.
fn no_sides() -> Rule
    ensures { result ≡ spec.no_sides }
{
    Rule {
        width: None,
        height: None,
        depth: None,
    }
}

/// The sides of a character.
fn character_sides(character: Character) -> Rule
    ensures { result ≡ spec.character_sides character }
{
    Rule {
        width: Some(character.width),
        height: Some(character.height),
        depth: Some(character.depth),
    }
}

/// The sides that a small item shows: those of a character, none of all else.
fn plain_sides(item: Plain) -> Rule
    ensures { result ≡ spec.plain_sides item }
{
    match item {
        Plain::Kern(_, _) | Plain::Glue(_) | Plain::Penalty(_) => no_sides(),
        Plain::Character(character) => character_sides(character),
    }
}

/// The sides that a larger item shows: those of a rule, that of leaders too, and of a ligature; specials and marks have none.
fn shared_sides(item: &Shared) -> Rule
    ensures { result ≡ spec.shared_sides item.now }
{
    match item {
        Shared::Rule(rule) => *rule,
        Shared::Leaders(leaders) => leaders.rule,
        Shared::Special(_) | Shared::Mark(_) => no_sides(),
        Shared::Ligature(ligature) => character_sides(ligature.character),
    }
}

/// The height that a node asks of a horizontal list's box, in sp.
pub fn height_asked(node: &Node) -> i64
    ensures { result ≡ spec.height_asked (item_of node.now) }
{
    match node {
        Node::Plain(item) => i64::from(side(plain_sides(*item).height)),
        Node::Shared(item) => i64::from(side(shared_sides(item).height)),
        Node::Box(shift, inner) => i64::from(inner.height()) - i64::from(*shift),
        Node::Discretionary(_) | Node::Adjustment(_) | Node::Insertion(_) => 0,
        Node::BoxLeaders(leaders) => i64::from(leaders.inner().height()),
    }
}

/// The depth that a node asks of a horizontal list's box, in sp.
pub fn depth_asked(node: &Node) -> i64
    ensures { result ≡ spec.depth_asked (item_of node.now) }
{
    match node {
        Node::Plain(item) => i64::from(side(plain_sides(*item).depth)),
        Node::Shared(item) => i64::from(side(shared_sides(item).depth)),
        Node::Box(shift, inner) => i64::from(inner.depth()) + i64::from(*shift),
        Node::Discretionary(_) | Node::Adjustment(_) | Node::Insertion(_) => 0,
        Node::BoxLeaders(leaders) => i64::from(leaders.inner().depth()),
    }
}

/// The width that a node asks of a vertical list's box, in sp.
pub fn width_asked(node: &Node) -> i64
    ensures { result ≡ spec.width_asked (item_of node.now) }
{
    match node {
        Node::Plain(item) => i64::from(side(plain_sides(*item).width)),
        Node::Shared(item) => i64::from(side(shared_sides(item).width)),
        Node::Box(shift, inner) => i64::from(inner.width()) + i64::from(*shift),
        Node::Discretionary(_) | Node::Adjustment(_) | Node::Insertion(_) => 0,
        Node::BoxLeaders(leaders) => i64::from(leaders.inner().width()),
    }
}

fn plain_left(depth: i64, item: Plain) -> i64
    requires { unsigned_abs depth ≤ 2 ^ 31 }
    ensures value { result ≡ spec.plain_left depth item }
    ensures size { unsigned_abs result ≤ 2 ^ 31 }
{
    match item {
        Plain::Kern(_, _) | Plain::Glue(_) => 0,
        Plain::Penalty(_) => depth,
        Plain::Character(character) => i64::from(character.depth),
    }
}

fn shared_left(depth: i64, item: &Shared) -> i64
    requires { unsigned_abs depth ≤ 2 ^ 31 }
    ensures value { result ≡ spec.shared_left depth item.now }
    ensures size { unsigned_abs result ≤ 2 ^ 31 }
{
    match item {
        Shared::Rule(rule) => i64::from(side(rule.depth)),
        Shared::Leaders(_) => 0,
        Shared::Special(_) | Shared::Mark(_) => depth,
        Shared::Ligature(ligature) => i64::from(ligature.character.depth),
    }
}

/// The depth of a vertical list whose last node this is, where it was so deep before, in sp.
pub fn depth_left(depth: i64, node: &Node) -> i64
    requires { unsigned_abs depth ≤ 2 ^ 31 }
    ensures value { result ≡ spec.depth_left depth (item_of node.now) }
    ensures size { unsigned_abs result ≤ 2 ^ 31 }
{
    match node {
        Node::Plain(item) => plain_left(depth, *item),
        Node::Shared(item) => shared_left(depth, item),
        Node::Box(_, inner) => i64::from(inner.depth()),
        Node::Discretionary(_) | Node::Adjustment(_) | Node::Insertion(_) => depth,
        Node::BoxLeaders(_) => 0,
    }
}
