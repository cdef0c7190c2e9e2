//! What an item is where a vertical list is broken.
ghost use Rattle.std.specs.Prelude.{◌≡◌, Some};
ghost use Rattle.tx_node.specs.Nodes.{item_of, list_of};
ghost use Rattle.tx_insert.specs.Kinds as spec;

use tx_node::{Character, Node, Plain, Rule, Shared, side};
use tx_num::Glue;

/// What an item is where a vertical list is broken, its sizes in sp.
#[derive(Clone, Copy)]
pub enum Kind {
    /// A box or a rule: its height and depth.
    Solid(i32, i32),
    /// Glue, or leaders.
    Skip(Glue),
    /// A kern.
    Kern(i32),
    /// A penalty.
    Penalty(i32),
    /// What has no size and stays: a special, a mark, an insertion.
    Still,
}

fn rule_kind(rule: &Rule) -> Kind
    ensures { result ≡ spec.rule_kind rule.now }
{
    Kind::Solid(side(rule.height), side(rule.depth))
}

fn character_kind(character: &Character) -> Kind
    ensures { result ≡ spec.character_kind character.now }
{
    Kind::Solid(character.height, character.depth)
}

fn plain_kind(item: &Plain) -> Kind
    ensures { result ≡ spec.plain_kind item.now }
{
    match item {
        Plain::Kern(_, size) => Kind::Kern(*size),
        Plain::Glue(glue) => Kind::Skip(*glue),
        Plain::Penalty(penalty) => Kind::Penalty(*penalty),
        Plain::Character(character) => character_kind(character),
    }
}

fn shared_kind(item: &Shared) -> Kind
    ensures { result ≡ spec.shared_kind item.now }
{
    match item {
        Shared::Rule(rule) => rule_kind(rule),
        Shared::Leaders(leaders) => Kind::Skip(leaders.glue),
        Shared::Ligature(ligature) => character_kind(&ligature.character),
        Shared::Special(_) | Shared::Mark(_) => Kind::Still,
    }
}

/// What a node is where a vertical list is broken.
pub fn kind_of(node: &Node) -> Kind
    ensures { result ≡ spec.kind_of (item_of node.now) }
{
    match node {
        Node::Plain(item) => plain_kind(item),
        Node::Shared(item) => shared_kind(item),
        Node::Box(_, inner) => Kind::Solid(inner.height(), inner.depth()),
        Node::Discretionary(_) | Node::Adjustment(_) | Node::Insertion(_) => Kind::Still,
        Node::BoxLeaders(leaders) => Kind::Skip(leaders.head().glue),
    }
}

/// Whether it stays where a break comes before it: all but glue, kerns and penalties does.
pub fn stays(kind: &Kind) -> bool
    ensures { result ≡ spec.stays kind.now }
{
    matches!(kind, Kind::Solid(_, _) | Kind::Still)
}

/// Whether it is glue or leaders.
pub fn is_glue(kind: &Kind) -> bool
    ensures { result ≡ spec.is_glue kind.now }
{
    matches!(kind, Kind::Skip(_))
}

/// Whether a list begins with glue.
pub fn begins_with_glue(list: &[Node]) -> bool
    ensures { result ≡ spec.begins_with_glue (spec.kinds_of (list_of list.now)) }
{
    match list {
        [] => false,
        [first, ..] => is_glue(&kind_of(first)),
    }
}

/// The penalty of a break where something holds, None where it doesn't.
fn penalty_if(legal: bool, penalty: i32) -> Option<i32>
    ensures { result ≡ spec.penalty_if legal penalty }
{
    if legal { Some(penalty) } else { None }
}

/// The penalty of a break at an item, None where none is legal: `after_solid` says whether an item that stays comes right
/// before it, `before_glue` whether glue comes right behind it.
pub fn penalty_at(after_solid: bool, kind: &Kind, before_glue: bool) -> Option<i32>
    ensures { result ≡ spec.penalty_at after_solid kind.now before_glue }
{
    match kind {
        Kind::Skip(_) => penalty_if(after_solid, 0),
        Kind::Kern(_) => penalty_if(before_glue, 0),
        Kind::Penalty(penalty) => penalty_if(*penalty < 10_000, *penalty),
        Kind::Solid(_, _) | Kind::Still => None,
    }
}

/// Whether it is glue with infinite shrink that isn't 0.
pub fn shrinks_endlessly(kind: &Kind) -> bool
    ensures { result ≡ spec.shrinks_endlessly kind.now }
{
    match kind {
        Kind::Skip(glue) => glue.shrink() != 0 && glue.shrink_order() != 0,
        Kind::Solid(_, _) | Kind::Kern(_) | Kind::Penalty(_) | Kind::Still => false,
    }
}

/// Whether glue of a list shrinks infinitely.
pub fn is_endless(list: &[Node]) -> bool
    ensures { result ≡ spec.is_endless (list_of list.now) }
{
    for node in list {
        if shrinks_endlessly(&kind_of(node)) {
            return true;
        }
    }
    false
}
