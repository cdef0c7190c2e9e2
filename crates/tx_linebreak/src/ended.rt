//! How a list has to end.
ghost use Rattle.std.specs.Prelude.{◌≡◌, ◌↔◌, ◌≤◌, true, length};
ghost use Rattle.tx_linebreak.specs.Breaks.{context_from, outset};
ghost use Rattle.tx_linebreak.specs.Chosen.{IsEnded, forces_break};

use crate::legal::Context;
use crate::piece::{Piece, Pieces};

/// Whether a piece is a penalty that forces a break.
fn forces_break(piece: &Piece) -> bool
    ensures { result ≡ forces_break piece.now }
{
    match piece {
        Piece::Solid(_) => false,
        Piece::Kern(_) => false,
        Piece::Glue(_) => false,
        Piece::Penalty(penalty) => *penalty <= -10_000,
        Piece::Discretionary(_) => false,
        Piece::MathOn(_) => false,
        Piece::MathOff(_) => false,
    }
}

/// What the pieces before a place say of it.
fn context_before(pieces: &[Piece], place: usize) -> Context
    requires { place ≤ length pieces.now }
    ensures { result ≡ context_from outset pieces.now place }
{
    let mut context = Context::outset();
    for at in 0..place {
        context.go_past(&pieces[at]);
    }
    context
}

/// Whether a list ends as `breaks` asks: with a penalty that forces a break, and that no no-break text takes.
pub fn is_ended(pieces: &Pieces) -> bool
    ensures { (result ≡ true) ↔ IsEnded pieces.now }
{
    let list = pieces.as_slice();
    if list.is_empty() {
        return false;
    }
    let last = list.len() - 1;
    let forces = forces_break(&list[last]);
    let context = context_before(list, last);
    forces & (context.replaced == 0)
}
