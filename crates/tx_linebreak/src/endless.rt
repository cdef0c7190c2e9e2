//! Glue that shrinks infinitely (TeX: The Program, section 825).
ghost use Rattle.std.specs.Prelude.{◌≡◌, ◌||◌};
ghost use Rattle.std.specs.List.{list_any};
ghost use Rattle.tx_linebreak.specs.Chosen.{has_endless_shrink, piece_shrinks_endlessly, shrinks_endlessly};

use crate::params::BreakParams;
use crate::piece::Piece;
use tx_num::Glue;

/// Whether glue shrinks infinitely.
fn shrinks_endlessly(glue: &Glue) -> bool
    ensures { result ≡ shrinks_endlessly glue.now }
{
    glue.shrink_order() != 0 && glue.shrink() != 0
}

/// Whether a piece is glue that does.
fn piece_shrinks_endlessly(piece: &Piece) -> bool
    ensures { result ≡ piece_shrinks_endlessly piece.now }
{
    match piece {
        Piece::Solid(_) => false,
        Piece::Kern(_) => false,
        Piece::Glue(glue) => shrinks_endlessly(glue),
        Piece::Penalty(_) => false,
        Piece::Discretionary(_) => false,
        Piece::MathOn(_) => false,
        Piece::MathOff(_) => false,
    }
}

/// Whether a piece of a list is glue that does.
fn some_shrinks_endlessly(pieces: &[Piece]) -> bool
    ensures { result ≡ list_any piece_shrinks_endlessly pieces.now }
{
    pieces.iter().any(|piece| piece_shrinks_endlessly(piece))
}

/// Whether glue of the list or at the ends of its lines shrinks infinitely.
pub(crate) fn has_endless_shrink(pieces: &[Piece], params: &BreakParams) -> bool
    ensures { result ≡ has_endless_shrink pieces.now params.now }
{
    shrinks_endlessly(&params.left_skip)
        || shrinks_endlessly(&params.right_skip)
        || some_shrinks_endlessly(pieces)
}
