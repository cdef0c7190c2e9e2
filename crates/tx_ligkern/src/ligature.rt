//! Carrying out a ligature command.

ghost use Rattle.std.specs.Prelude.{◌≡◌, ◌∷◌, ◌++◌, [], reverse, IfOk, OnOk};
ghost use Rattle.tx_ligkern.specs.Pieces.{originals};
ghost use Rattle.tx_ligkern.specs.Steps.{Carried};

use crate::item::Items;
use crate::piece::{Piece, put};
use std::alloc::{AllocError, Global};
use std::mem;
use tx_bytes::Bytes;
use tx_tfm::Word;

/// Carries out a ligature command at a pair, of which the first piece stands at the cursor. `rest` is what follows the pair, its last
/// piece first. What is passed over goes to the end of `done`, and what follows the new cursor into `rest`.
pub(crate) fn carry_out(
    alloc: Global,
    command: Word,
    cursor: &mut Piece,
    next: Piece,
    rest: &mut Vec<Piece>,
    done: &mut Items,
) -> Result<(), AllocError>
    ensures { OnOk result (Carried command cursor.old next (reverse rest.old.items) done.old cursor.new (reverse rest.new.items) done.new) }
{
    let code = command.d;
    match command.c {
        1 => {
            push(rest, next)?;
            replace(alloc, code, cursor)
        }
        2 => push(rest, in_stead(alloc, code, next)?),
        3 => {
            push(rest, next)?;
            push(rest, made(alloc, code))
        }
        5 => put(done, in_stead(alloc, code, mem::replace(cursor, next))?),
        6 => put(done, mem::replace(cursor, in_stead(alloc, code, next)?)),
        7 => {
            push(rest, next)?;
            put(done, mem::replace(cursor, made(alloc, code)))
        }
        11 => {
            put(done, mem::replace(cursor, next))?;
            put(done, made(alloc, code))
        }
        _ => join(alloc, code, cursor, next),
    }
}

/// Puts a piece before what follows the cursor.
fn push(rest: &mut Vec<Piece>, piece: Piece) -> Result<(), AllocError>
    ensures { OnOk result (rest.new.items ≡ rest.old.items ++ piece ∷ []) }
{
    rest.push(piece)?;
    Ok(())
}

/// A ligature that stands in the stead of nothing.
fn made(alloc: Global, code: u8) -> Piece
    ensures { result ≡ Piece.Ligature code [] }
{
    Piece::Ligature {
        code,
        from: Bytes::new(alloc),
    }
}

/// A ligature in the stead of a piece.
fn in_stead(alloc: Global, code: u8, piece: Piece) -> Result<Piece, AllocError>
    ensures { IfOk result (λ made. made ≡ Piece.Ligature code (originals piece)) }
{
    let from = piece.into_originals(alloc)?;
    Ok(Piece::Ligature { code, from })
}

/// Puts a ligature in the stead of the piece at the cursor.
fn replace(alloc: Global, code: u8, cursor: &mut Piece) -> Result<(), AllocError>
    ensures { OnOk result (cursor.new ≡ Piece.Ligature code (originals cursor.old)) }
{
    let current = mem::replace(cursor, Piece::Boundary);
    *cursor = in_stead(alloc, code, current)?;
    Ok(())
}

/// The characters of the word in whose stead both pieces stand.
fn both_originals(alloc: Global, current: Piece, next: Piece) -> Result<Bytes, AllocError>
    ensures { IfOk result (λ from. from ≡ originals current ++ originals next) }
{
    let mut from = current.into_originals(alloc)?;
    next.append_originals(&mut from)?;
    Ok(from)
}

/// Puts a ligature in the stead of the piece at the cursor and the next one.
fn join(alloc: Global, code: u8, cursor: &mut Piece, next: Piece) -> Result<(), AllocError>
    ensures { OnOk result (cursor.new ≡ Piece.Ligature code (originals cursor.old ++ originals next)) }
{
    let from = both_originals(alloc, mem::replace(cursor, Piece::Boundary), next)?;
    *cursor = Piece::Ligature { code, from };
    Ok(())
}
