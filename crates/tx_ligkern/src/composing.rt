//! A whole word by the ligatures and kerns of its font.
ghost use Rattle.std.specs.Prelude.{◌≡◌, ◌≤◌, ◌∷◌, ◌++◌, [], List, length, min, reverse, All, IsTrue, IfOk, OnOk};
ghost use Rattle.tx_tfm.specs.Format.{is_there};
ghost use Rattle.tx_ligkern.specs.Composing.{AllWordsEnd, Becomes};
ghost use Rattle.tx_ligkern.specs.Composed.{composed};
ghost use Rattle.tx_ligkern.specs.Pieces.{word_of};
ghost use Rattle.tx_ligkern.specs.Seams.{IsCut, IsSeam, seen};
ghost use Rattle.tx_ligkern.specs.Steps.{Ends, Moved};
ghost use Rattle.tx_ligkern.specs.declared.item.LigItem.{LigItem};

use crate::item::{Items, LigItem};
use crate::ligature::carry_out;
use crate::noting::{end_place, fresh_count, see};
use crate::piece::{Piece, put, word};
use crate::seam::Seams;
use crate::seamed::Seamed;
use std::alloc::{AllocError, Global};
use std::mem;
use tx_tfm::Font;

/// What a word becomes by its font's ligatures and kerns. `left` and `right` tell whether the boundaries before and behind
/// the word count. Its only error is want of memory.
pub fn compose(
    alloc: Global,
    font: &Font,
    chars: &[u8],
    left: bool,
    right: bool,
) -> Result<Items, AllocError>
    requires { All (λ c. IsTrue (is_there font.now.file c)) chars.now }
    ensures becomes { IfOk result (λ items. Becomes font.now (word_of chars.now left right) items) }
    ensures only { IfOk result (λ items. (others : List LigItem) → Becomes font.now (word_of chars.now left right) others → items ≡ others) }
    ensures value { IfOk result (λ items. items ≡ composed font.now chars.now left right) }
{
    font.is_sound();
    let made = whole(alloc, font, chars, left, right, false)?;
    Ok(made.into_items())
}

/// The same, with seams of the word in their order: all places whose character, when it is met for the first time, meets no
/// ligature command with what stands before it, and so mostly all seams. Its only error is want of memory.
pub fn compose_with_seams(
    alloc: Global,
    font: &Font,
    chars: &[u8],
    left: bool,
    right: bool,
) -> Result<Seamed, AllocError>
    requires { All (λ c. IsTrue (is_there font.now.file c)) chars.now }
    ensures becomes { IfOk result (λ made. Becomes font.now (word_of chars.now left right) made.items) }
    ensures value { IfOk result (λ made. made.items ≡ composed font.now chars.now left right) }
    ensures seams { IfOk result (λ made. All (IsSeam font.now chars.now left right) made.seams) }
{
    font.is_sound();
    let made = whole(alloc, font, chars, left, right, true)?;
    Ok(made)
}

/// What holds of every font: each word of its characters becomes something, so composing it ends.
pub fn every_word_ends(font: &Font)
    ensures { AllWordsEnd font.now }
{
    font.is_sound();
}

/// What becomes of a word, and seams of it if they are to be noted.
fn whole(
    alloc: Global,
    font: &Font,
    chars: &[u8],
    left: bool,
    right: bool,
    noting: bool,
) -> Result<Seamed, AllocError>
    requires { All (λ c. IsTrue (is_there font.now.file c)) chars.now }
    ensures becomes { IfOk result (λ made. Becomes font.now (word_of chars.now left right) made.items) }
    ensures seams { IfOk result (λ made. All (IsCut font.now left (word_of chars.now left right)) made.seams) }
{
    font.is_sound();
    let mut rest = word(alloc, chars, left, right)?;
    rest.reverse();
    match rest.pop() {
        None => Ok(Seamed {
            items: Items::new(alloc),
            seams: Seams::new(alloc),
        }),
        Some(first) => {
            let fresh = fresh_count(rest.as_slice(), noting);
            pass_through(alloc, font, first, rest, left, fresh)
        }
    }
}

/// What becomes of pieces, of which all but the first stand in `rest`, the last one first; and seams before the last ones of them,
/// `fresh` in number.
fn pass_through(
    alloc: Global,
    font: &Font,
    first: Piece,
    mut rest: Vec<Piece>,
    left: bool,
    fresh: usize,
) -> Result<Seamed, AllocError>
    requires ends { Ends font.now (first ∷ reverse rest.items) }
    requires fresh { fresh ≤ length rest.items }
    ensures items { IfOk result (λ made. Becomes font.now (first ∷ reverse rest.items) made.items) }
    ensures seams { IfOk result (λ made. All (IsCut font.now left (first ∷ reverse rest.items)) made.seams) }
{
    let room = Vec::with_capacity(alloc, rest.len())?;
    let mut made = Seamed {
        items: Items::from_vec(room),
        seams: Seams::new(alloc),
    };
    run(alloc, font, first, &mut rest, left, fresh, &mut made)?;
    Ok(made)
}

/// Puts what becomes of pieces where nothing is yet, of which all but the first stand in `rest`, the last one first; and seams before
/// the last ones of them, `fresh` in number.
fn run(
    alloc: Global,
    font: &Font,
    first: Piece,
    rest: &mut Vec<Piece>,
    left: bool,
    fresh: usize,
    made: &mut Seamed,
) -> Result<(), AllocError>
    requires ends { Ends font.now (first ∷ reverse rest.old.items) }
    requires fresh { fresh ≤ length rest.old.items }
    requires items { made.old.items ≡ [] }
    requires seams { made.old.seams ≡ [] }
    ensures items { OnOk result (Becomes font.now (first ∷ reverse rest.old.items) made.new.items) }
    ensures seams { OnOk result (All (IsCut font.now left (first ∷ reverse rest.old.items)) made.new.seams) }
{
    let end = end_place(rest.as_slice(), left);
    let mut current = first;
    let mut fresh = fresh;
    while let Some(next) = rest.pop() {
        fresh = advance(alloc, font, &mut current, next, rest, fresh, end, made)?;
    }
    put(&mut made.items, current)
}

/// One step at a pair, and the seam between both pieces, if the second one is met for the first time: `fresh` of the last pieces
/// hadn't been met, and the answer is how many haven't been met now.
fn advance(
    alloc: Global,
    font: &Font,
    cursor: &mut Piece,
    next: Piece,
    rest: &mut Vec<Piece>,
    fresh: usize,
    end: usize,
    made: &mut Seamed,
) -> Result<usize, AllocError>
    requires { fresh ≤ end }
    ensures moved { OnOk result (Moved font.now cursor.old next (reverse rest.old.items) made.old.items cursor.new (reverse rest.new.items) made.new.items) }
    ensures fresh { IfOk result (λ count. count ≡ min fresh (length rest.old.items)) }
    ensures seams { OnOk result (made.new.seams ≡ made.old.seams ++ seen font.now cursor.old next fresh (length rest.old.items) end (length made.old.items)) }
{
    let count = see(
        font,
        &mut made.seams,
        cursor,
        &next,
        fresh,
        rest.len(),
        end,
        &made.items,
    )?;
    step(alloc, font, cursor, next, rest, &mut made.items)?;
    Ok(count)
}

/// One step at a pair, of which the first piece stands at the cursor, where `rest` is what follows it, the last piece first. What is
/// finished goes to the end of `done`.
fn step(
    alloc: Global,
    font: &Font,
    cursor: &mut Piece,
    next: Piece,
    rest: &mut Vec<Piece>,
    done: &mut Items,
) -> Result<(), AllocError>
    ensures { OnOk result (Moved font.now cursor.old next (reverse rest.old.items) done.old cursor.new (reverse rest.new.items) done.new) }
{
    match font.command(cursor.code(), next.code()) {
        None => put(done, mem::replace(cursor, next)),
        Some(command) if command.c >= 128 => {
            put(done, mem::replace(cursor, next))?;
            done.push(LigItem::Kern(font.kern(command) as i32))
        }
        Some(command) => carry_out(alloc, command, cursor, next, rest, done),
    }
}
