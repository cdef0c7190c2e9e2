//! What line breaking sees of a list.
ghost use Rattle.std.specs.Prelude.{◌≡◌, min, IfOk};
ghost use Rattle.tx_num.specs.Glue.{IsDimension};
ghost use Rattle.tx_node.specs.Nodes.{item_of, list_of};
ghost use Rattle.tx_par.specs.Pieces as spec;

use std::alloc::{AllocError, Global};
use tx_linebreak::{Discretionary as Break, Piece, Pieces};
use tx_node::{Direction, Discretionary, KernKind, Node, Plain, Shared, side};
use tx_num::GREATEST_DIMENSION;

/// The penalty that forces the last break.
const FORCING: i32 = -10_000;

/// What a kern is, of so many sp.
fn kern_piece(kind: KernKind, size: i32) -> Piece
    ensures { result ≡ spec.kern_piece kind size }
{
    match kind {
        KernKind::Implicit | KernKind::Accent => Piece::Solid(size),
        KernKind::Explicit => Piece::Kern(size),
        KernKind::MathOn => Piece::MathOn(size),
        KernKind::MathOff => Piece::MathOff(size),
    }
}

/// What a small item is.
fn plain_piece(item: Plain) -> Piece
    ensures { result ≡ spec.plain_piece item }
{
    match item {
        Plain::Kern(kind, size) => kern_piece(kind, size),
        Plain::Glue(glue) => Piece::Glue(glue),
        Plain::Penalty(penalty) => Piece::Penalty(penalty),
        Plain::Character(character) => Piece::Solid(character.width),
    }
}

/// What a larger item is.
fn shared_piece(item: &Shared) -> Piece
    ensures { result ≡ spec.shared_piece item.now }
{
    match item {
        Shared::Rule(rule) => Piece::Solid(side(rule.width)),
        Shared::Leaders(leaders) => Piece::Glue(leaders.glue),
        Shared::Special(_) | Shared::Mark(_) => Piece::Solid(0),
        Shared::Ligature(ligature) => Piece::Solid(ligature.character.width),
    }
}

/// How far a text reaches with one more node, in sp, held within the range of dimensions.
fn further(width: i64, node: &Node) -> i64
    requires { IsDimension width }
    ensures value { result ≡ spec.further width (item_of node.now) }
    ensures dimension { IsDimension result }
{
    (width + node.advance(Direction::Horizontal))
        .min(GREATEST_DIMENSION)
        .max(-GREATEST_DIMENSION)
}

/// How far a text reaches, in sp, held within the range of dimensions.
fn text_width(text: &[Node]) -> i64
    ensures { result ≡ spec.text_width (list_of text.now) }
{
    let mut width = 0;
    for node in text {
        width = further(width, node);
    }
    width
}

/// How far a text reaches, None where it is empty.
fn width_unless_empty(text: &[Node]) -> Option<i64>
    ensures { result ≡ spec.width_unless_empty (list_of text.now) }
{
    match text {
        [] => None,
        [_, ..] => Some(text_width(text)),
    }
}

/// How many of the nodes behind a discretionary are its no-break text, where there are so many.
fn replaced(left: usize, broken: &Discretionary) -> u32
    ensures { result ≡ min broken.now.head.replaced left }
{
    usize::from(broken.replaced()).min(left) as u32
}

/// What a discretionary is that has so many nodes behind it.
fn discretionary_piece(left: usize, broken: &Discretionary) -> Piece
    ensures { result ≡ spec.discretionary_piece left broken.now.head broken.now.before broken.now.behind }
{
    Piece::Discretionary(Break {
        before: width_unless_empty(broken.before()),
        behind: width_unless_empty(broken.behind()),
        replaced: replaced(left, broken),
        hyphenated: broken.is_hyphenated(),
    })
}

/// What a node is that has so many behind it.
#[tactic(auto, using(crate::proofs::Lists::listed))]
fn piece_of(left: usize, node: &Node) -> Piece
    ensures { result ≡ spec.piece_of left (item_of node.now) }
{
    match node {
        Node::Plain(item) => plain_piece(*item),
        Node::Shared(item) => shared_piece(item),
        Node::Box(_, inner) => Piece::Solid(inner.width()),
        Node::Discretionary(broken) => discretionary_piece(left, broken),
        Node::Adjustment(_) | Node::Insertion(_) => Piece::Solid(0),
        Node::BoxLeaders(leaders) => Piece::Glue(leaders.head().glue),
    }
}

/// The pieces of an ended list. Its only error is want of memory.
pub(crate) fn pieces_of(alloc: Global, nodes: &[Node]) -> Result<Pieces, AllocError>
    ensures { IfOk result (λ pieces. pieces ≡ spec.pieces_of (list_of nodes.now)) }
{
    let count = nodes.len();
    let mut pieces = Vec::with_capacity(alloc, count + 1)?;
    for at in 0..count {
        pieces.push(piece_of(count - at - 1, &nodes[at]))?;
    }
    pieces.push(Piece::Penalty(FORCING))?;
    Ok(Pieces::from_vec(pieces))
}
