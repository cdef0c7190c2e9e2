//! Seams that are noted while a word is composed.
//!
//! The cursor passes from left to right, and each step looks at one pair: at the piece at the cursor and the next one. As long as
//! a character hasn't been the next one, nothing of what was done depends on it or on what stands behind it; so when it comes to be
//! the next one, what stands before it has become what it becomes by itself. Where that first pair meets no ligature command, the
//! cursor goes on to the character as if the word began there, and the place before it is a seam. One composition of the whole word
//! is enough to see this of all its places. Where the pair meets a ligature command, the place is mostly inside a ligature; that a
//! ligature command leaves everything as if it weren't there is rare, and is found out by composing both parts.
ghost use Rattle.std.specs.Prelude.{◌≡◌, ◌+◌, ◌++◌, ◌≤◌, suc, min, length, IfOk, OnOk};
ghost use Rattle.tx_ligkern.specs.Pieces.{items_of};
ghost use Rattle.tx_ligkern.specs.Seams as spec;

use crate::item::Items;
use crate::pair::{Met, pair_meets};
use crate::piece::Piece;
use crate::seam::{Seam, Seams};
use std::alloc::AllocError;
use tx_tfm::Font;

/// The place behind the last piece of a word, of whose pieces all but the first are these.
pub(crate) fn end_place(rest: &[Piece], left: bool) -> usize
    ensures { spec.boundary_count left + result ≡ suc (length rest.now) }
{
    let count = rest.len();
    if left { count } else { count + 1 }
}

/// How many of these pieces haven't been met, all of them where seams are to be noted, and else none.
pub(crate) fn fresh_count(rest: &[Piece], noting: bool) -> usize
    ensures { result ≤ length rest.now }
{
    if noting { rest.len() } else { 0 }
}

/// How many items there are with those of a piece.
fn count_with(done: &Items, piece: &Piece) -> usize
    ensures { result ≡ length done.now + length (items_of piece.now) }
{
    let count = done.as_slice().len();
    match piece {
        Piece::Boundary => count,
        Piece::Char(_) => count + 1,
        Piece::Ligature { .. } => count + 1,
    }
}

/// Notes the seam before a piece that is met for the first time, where the pair meets no ligature command.
fn note(seams: &mut Seams, met: Met, place: usize, item: usize) -> Result<(), AllocError>
    ensures { OnOk result (seams.new ≡ seams.old ++ spec.noted_by met place item) }
{
    match met {
        Met::Nothing => seams.push(Seam {
            place,
            item,
            replaced: 0,
        }),
        Met::Kern(_) => seams.push(Seam {
            place,
            item,
            replaced: 1,
        }),
        Met::Ligature => Ok(()),
    }
}

/// Looks at a pair behind which so many pieces stand, where `fresh` of the last pieces hadn't been met: notes the seam between both,
/// if the second one is met for the first time, and answers how many haven't been met now.
#[inline(always)]
pub(crate) fn see(
    font: &Font,
    seams: &mut Seams,
    current: &Piece,
    next: &Piece,
    fresh: usize,
    behind: usize,
    end: usize,
    done: &Items,
) -> Result<usize, AllocError>
    requires { fresh ≤ end }
    ensures fresh { IfOk result (λ left. left ≡ min fresh behind) }
    ensures seams { OnOk result (seams.new ≡ seams.old ++ spec.seen font.now current.now next.now fresh behind end (length done.now)) }
{
    if fresh <= behind {
        return Ok(fresh);
    }
    let met = pair_meets(font, current.code(), next.code());
    note(seams, met, end - fresh, count_with(done, current))?;
    Ok(behind)
}
