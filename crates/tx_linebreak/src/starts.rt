//! Where lines start.
ghost use Rattle.std.specs.Prelude.{IfOk};
ghost use Rattle.tx_linebreak.specs.Sums.{AreStarts};

use crate::piece::Piece;
use std::alloc::{AllocError, Global};

/// For each place, up to the list's end, the first one from there on whose piece doesn't vanish behind a break; so no line's
/// discardables are walked twice.
pub(crate) fn running_starts(alloc: Global, pieces: &[Piece]) -> Result<Vec<usize>, AllocError>
    ensures { IfOk result (λ starts. AreStarts starts.items pieces.now) }
{
    let end = pieces.len();
    let mut starts = vec![in alloc; end; end + 1]?;
    let mut place = end;
    while place > 0 {
        place -= 1;
        let mut start = place;
        if pieces[place].is_discardable() {
            start = starts[place + 1];
        }
        starts[place] = start;
    }
    Ok(starts)
}
