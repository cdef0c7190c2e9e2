//! How tall the delimiters of \left and \right are (TeX: The Program, sections 727, 730 and 762).
ghost use Rattle.std.specs.Prelude.{◌≡◌, ◌≤◌, ◌^◌, pos, int_div, unsigned_abs};
ghost use Rattle.tx_node.specs.Items.{shared};
ghost use Rattle.tx_node.specs.Nodes.{item_of, list_of};
ghost use Rattle.tx_math.specs.Converting.{piece_in, pieces_in};
ghost use Rattle.tx_math.specs.Fences as spec;
ghost use Rattle.tx_math.specs.Setters.{IsReach, math_in};

use crate::piece::{Fences, Piece, Reach};
use crate::setter::Setter;
use crate::sums::{greater, minus, plus, times};
use tx_node::{Node, Plain, Shared, side};

/// That of nothing.
fn no_reach() -> Reach
    ensures value { result ≡ spec.no_reach }
    ensures near { IsReach result }
{
    Reach {
        height: 0,
        depth: 0,
    }
}

/// How high and deep a larger item is: a rule and a ligature.
fn shared_reach(item: &Shared) -> Reach
    ensures value { result ≡ spec.item_reach (shared item.now) }
    ensures near { IsReach result }
{
    match item {
        Shared::Rule(rule) => Reach {
            height: i64::from(side(rule.height)),
            depth: i64::from(side(rule.depth)),
        },
        Shared::Ligature(ligature) => Reach {
            height: i64::from(ligature.character.height),
            depth: i64::from(ligature.character.depth),
        },
        Shared::Leaders(_) | Shared::Special(_) | Shared::Mark(_) => no_reach(),
    }
}

/// How high and deep a node is: a character, a box, a rule.
fn node_reach(node: &Node) -> Reach
    ensures value { result ≡ spec.item_reach (item_of node.now) }
    ensures near { IsReach result }
{
    match node {
        Node::Plain(Plain::Character(character)) => Reach {
            height: i64::from(character.height),
            depth: i64::from(character.depth),
        },
        Node::Plain(Plain::Kern(_, _) | Plain::Glue(_) | Plain::Penalty(_)) => no_reach(),
        Node::Shared(item) => shared_reach(item),
        Node::Box(shift, inner) => Reach {
            height: minus(i64::from(inner.height()), i64::from(*shift)),
            depth: plus(i64::from(inner.depth()), i64::from(*shift)),
        },
        Node::Discretionary(_) | Node::Adjustment(_) | Node::Insertion(_) => no_reach(),
        Node::BoxLeaders(_) => no_reach(),
    }
}

/// The greatest height and depth with a node more.
fn with_item(reach: Reach, node: &Node) -> Reach
    requires { IsReach reach }
    ensures value { result ≡ spec.with_item reach (item_of node.now) }
    ensures near { IsReach result }
{
    let own = node_reach(node);
    Reach {
        height: greater(reach.height, own.height),
        depth: greater(reach.depth, own.depth),
    }
}

/// The same with those of a list.
fn with_items(begun: Reach, list: &[Node]) -> Reach
    requires { IsReach begun }
    ensures value { result ≡ spec.with_items begun (list_of list.now) }
    ensures near { IsReach result }
{
    let mut reach = begun;
    for node in list {
        reach = with_item(reach, node);
    }
    reach
}

/// The same with those of a piece.
fn with_piece(reach: Reach, piece: &Piece) -> Reach
    requires { IsReach reach }
    ensures value { result ≡ spec.with_piece reach (piece_in piece.now) }
    ensures near { IsReach result }
{
    match piece {
        Piece::Noad(_, nodes) => with_items(reach, nodes.as_slice()),
        Piece::Lone(node) => with_item(reach, node),
        Piece::Fence(_, _) | Piece::Restyled(_) => reach,
    }
}

/// That of pieces.
fn reach_of(pieces: &[Piece]) -> Reach
    ensures value { result ≡ spec.with_pieces spec.no_reach (pieces_in pieces.now) }
    ensures near { IsReach result }
{
    let mut reach = no_reach();
    for piece in pieces {
        reach = with_piece(reach, piece);
    }
    reach
}

/// A size by 500, in sp, rounded towards 0.
#[tactic(auto, using(crate::proofs::Bounds::part_small))]
fn five_hundredth(size: i64) -> i64
    requires { unsigned_abs size ≤ 2 ^ 33 }
    ensures value { result ≡ int_div size (pos 500) }
    ensures bound { unsigned_abs result ≤ 2 ^ 25 }
{
    size / 500
}

impl Setter<'_> {
    /// How far from the axis they reach at most, in sp.
    fn farthest(&self, style: u8, reach: Reach) -> i64
        requires { IsReach reach }
        ensures value { result ≡ spec.farthest (math_in self.now) style reach }
        ensures bound { unsigned_abs result ≤ 2 ^ 33 }
    {
        let axis = self.symbol_in(style, 22);
        greater(minus(reach.height, axis), plus(reach.depth, axis))
    }

    /// How tall delimiters are at least about what reaches so far from the axis, in sp.
    #[tactic(auto, unfolding(crate::specs::Fences::fence_size))]
    fn fence_size(&self, far: i64) -> i64
        requires { unsigned_abs far ≤ 2 ^ 33 }
        ensures value { result ≡ spec.fence_size (math_in self.now) far }
        ensures bound { unsigned_abs result ≤ 2 ^ 59 }
    {
        let part = times(five_hundredth(far), i64::from(self.params.delimiter_factor));
        let shortfall = i64::from(self.params.delimiter_shortfall);
        greater(part, minus(plus(far, far), shortfall))
    }

    /// How the delimiters of \left and \right are set in a list that becomes these pieces and begins in this style.
    #[tactic(auto, unfolding(crate::specs::Fences::fences_of))]
    pub fn fences_of(&self, style: u8, pieces: &[Piece]) -> Fences
        ensures value { result ≡ spec.fences_of (math_in self.now) style (pieces_in pieces.now) }
        ensures near { unsigned_abs result.size ≤ 2 ^ 59 }
    {
        let far = self.farthest(style, reach_of(pieces));
        Fences {
            style,
            size: self.fence_size(far),
        }
    }
}
