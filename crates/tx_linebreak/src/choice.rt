//! The breaks that are chosen.
ghost use Rattle.std.specs.Prelude.{◌≡◌, ◌↔◌, ◌<◌, ◌^◌, [], true, false, length, Err, IfNone, IfSome, IfOk, IsSome};
ghost use Rattle.tx_linebreak.specs.declared.error.BreakError.TheVariants.{InfiniteShrink};
ghost use Rattle.tx_linebreak.specs.declared.params.Pass.TheVariants.{Emergency};
ghost use Rattle.tx_linebreak.specs.Chains.{is_last_pass};
ghost use Rattle.tx_linebreak.specs.Chosen.{IsAnswer, IsAnswerOf, IsEnded, answers, attempt, first_succeeds, has_endless_shrink};
ghost use Rattle.tx_linebreak.specs.Lines.{background, skips};
ghost use Rattle.tx_linebreak.specs.Shared.{IsFound};
ghost use Rattle.tx_linebreak.specs.Sums.{AreStarts, AreSums};
ghost use Rattle.tx_linebreak.specs.Tasks.{IsTask, attempt_of};
ghost use Rattle.tx_linebreak.specs.Totals.{IsWithin};

use crate::answer::Chosen;
use crate::attempt::Task;
use crate::chains::Chains;
use crate::endless::has_endless_shrink;
use crate::error::BreakError;
use crate::found::Found;
use crate::params::{BreakParams, LineShape, Pass, Shape};
use crate::piece::{Piece, Pieces};
use crate::starts::running_starts;
use crate::told::told;
use crate::totals::{Totals, running_sums};
use std::alloc::{AllocError, Global};

/// What stands at both ends of each line.
fn skips(params: &BreakParams) -> Totals
    ensures value { result ≡ skips params.now }
    ensures small { IsWithin (2 ^ 32) result }
{
    Totals::of_glue(&params.left_skip).plus(&Totals::of_glue(&params.right_skip))
}

/// The same in the third pass, with the stretch that it adds.
fn emergency(params: &BreakParams) -> Totals
    ensures value { result ≡ background params.now Emergency }
    ensures small { IsWithin (2 ^ 65) result }
{
    skips(params).plus(&Totals::emergency(params))
}

/// What a pass adds to each line.
fn background(params: &BreakParams, pass: Pass) -> Totals
    ensures value { result ≡ background params.now pass }
    ensures small { IsWithin (2 ^ 65) result }
{
    match pass {
        Pass::First => skips(params),
        Pass::Second => skips(params),
        Pass::Emergency => emergency(params),
    }
}

impl<'a> Task<'a> {
    /// A pass over a list, given the totals before each of its places, and where lines start.
    fn new(
        pieces: &'a [Piece],
        sums: &'a [Totals],
        starts: &'a [usize],
        shape: &'a [LineShape],
        params: &'a BreakParams,
        pass: Pass,
    ) -> Task<'a>
        requires sums { AreSums sums.now pieces.now }
        requires starts { AreStarts starts.now pieces.now }
        requires shaped { 0 < length shape.now }
        ensures task { IsTask result }
        ensures attempt { attempt_of result ≡ attempt pieces.now shape.now params.now pass }
    {
        Task {
            pieces,
            sums,
            starts,
            shape,
            params,
            pass,
            background: background(params, pass),
        }
    }

    /// The answer of a pass that found this chain: None where a further pass is to be made.
    fn answer(
        &self,
        alloc: Global,
        chains: &Chains,
        found: &Found,
    ) -> Result<Option<Chosen>, AllocError>
        requires { IsFound (attempt_of self.now) chains.now found.now }
        ensures none { IfOk result (λ answer. IfNone answer (answers (attempt_of self.now) ≡ false)) }
        ensures some { IfOk result (λ answer. IfSome answer (λ chosen. IsAnswerOf (attempt_of self.now) chosen)) }
        ensures last { is_last_pass self.now.params.now self.now.pass ≡ true → IfOk result (λ answer. IsSome answer) }
    {
        if !self.is_enough(found) {
            return Ok(None);
        }
        Ok(Some(told(alloc, chains, found, self.pass)?))
    }

    /// The answer of a pass: None where it has no chain, or none as long as is asked for and a further pass is made; the last pass
    /// gives one.
    fn find(&self, alloc: Global) -> Result<Option<Chosen>, AllocError>
        requires task { IsTask self.now }
        requires ended { IsEnded self.now.pieces.now }
        ensures none { IfOk result (λ found. IfNone found (answers (attempt_of self.now) ≡ false)) }
        ensures some { IfOk result (λ found. IfSome found (λ chosen. IsAnswerOf (attempt_of self.now) chosen)) }
        ensures last { is_last_pass self.now.params.now self.now.pass ≡ true → IfOk result (λ found. IsSome found) }
    {
        let mut chains = Chains::new(alloc);
        match self.find_chain(alloc, &mut chains)? {
            None => Ok(None),
            Some(found) => self.answer(alloc, &chains, &found),
        }
    }
}

/// The answer of the first pass; None where it isn't made, or gives none.
fn find_first(
    alloc: Global,
    pieces: &[Piece],
    sums: &[Totals],
    starts: &[usize],
    shape: &[LineShape],
    params: &BreakParams,
) -> Result<Option<Chosen>, AllocError>
    requires sums { AreSums sums.now pieces.now }
    requires starts { AreStarts starts.now pieces.now }
    requires shaped { 0 < length shape.now }
    requires ended { IsEnded pieces.now }
    ensures none { IfOk result (λ found. IfNone found (first_succeeds pieces.now shape.now params.now ≡ false)) }
    ensures some { IfOk result (λ found. IfSome found (λ chosen. (first_succeeds pieces.now shape.now params.now ≡ true) × IsAnswer pieces.now shape.now params.now chosen)) }
{
    if params.pretolerance < 0 {
        return Ok(None);
    }
    let first = Task::new(pieces, sums, starts, shape, params, Pass::First);
    first.find(alloc)
}

/// The answer of the first pass that gives one, behind the first of all.
fn choose_later(
    alloc: Global,
    pieces: &[Piece],
    sums: &[Totals],
    starts: &[usize],
    shape: &[LineShape],
    params: &BreakParams,
) -> Result<Chosen, AllocError>
    requires sums { AreSums sums.now pieces.now }
    requires starts { AreStarts starts.now pieces.now }
    requires shaped { 0 < length shape.now }
    requires ended { IsEnded pieces.now }
    requires later { first_succeeds pieces.now shape.now params.now ≡ false }
    ensures { IfOk result (λ chosen. IsAnswer pieces.now shape.now params.now chosen) }
{
    let second = Task::new(pieces, sums, starts, shape, params, Pass::Second);
    let found = second.find(alloc)?;
    if params.emergency_stretch <= 0 {
        return Ok(found.unwrap());
    }
    if let Some(chosen) = found {
        return Ok(chosen);
    }
    let third = Task::new(pieces, sums, starts, shape, params, Pass::Emergency);
    Ok(third.find(alloc)?.unwrap())
}

/// The answer of the first pass that gives one.
fn choose(
    alloc: Global,
    pieces: &[Piece],
    sums: &[Totals],
    starts: &[usize],
    shape: &[LineShape],
    params: &BreakParams,
) -> Result<Chosen, AllocError>
    requires sums { AreSums sums.now pieces.now }
    requires starts { AreStarts starts.now pieces.now }
    requires shaped { 0 < length shape.now }
    requires ended { IsEnded pieces.now }
    ensures { IfOk result (λ chosen. IsAnswer pieces.now shape.now params.now chosen) }
{
    match find_first(alloc, pieces, sums, starts, shape, params)? {
        Some(chosen) => Ok(chosen),
        None => choose_later(alloc, pieces, sums, starts, shape, params),
    }
}

/// The same, with the totals before each place, and where lines start.
fn choose_in(
    alloc: Global,
    pieces: &[Piece],
    shape: &[LineShape],
    params: &BreakParams,
) -> Result<Chosen, AllocError>
    requires shaped { 0 < length shape.now }
    requires ended { IsEnded pieces.now }
    ensures { IfOk result (λ chosen. IsAnswer pieces.now shape.now params.now chosen) }
{
    let sums = running_sums(alloc, pieces)?;
    let starts = running_starts(alloc, pieces)?;
    let (sums, starts) = (sums.as_slice(), starts.as_slice());
    choose(alloc, pieces, sums, starts, shape, params)
}

/// The answer of the first pass, with the totals before each place, and where lines start.
fn find_first_in(
    alloc: Global,
    pieces: &[Piece],
    shape: &[LineShape],
    params: &BreakParams,
) -> Result<Option<Chosen>, AllocError>
    requires shaped { 0 < length shape.now }
    requires ended { IsEnded pieces.now }
    ensures none { IfOk result (λ found. IfNone found (first_succeeds pieces.now shape.now params.now ≡ false)) }
    ensures some { IfOk result (λ found. IfSome found (λ chosen. (first_succeeds pieces.now shape.now params.now ≡ true) × IsAnswer pieces.now shape.now params.now chosen)) }
{
    let sums = running_sums(alloc, pieces)?;
    let starts = running_starts(alloc, pieces)?;
    let (sums, starts) = (sums.as_slice(), starts.as_slice());
    find_first(alloc, pieces, sums, starts, shape, params)
}

/// Breaks a paragraph's list into lines: of the first pass that has a chain, the chain of least demerits, and of equals the
/// greatest (TeX: The Program, parts 38 and 39). Where \looseness isn't 0, it is the best one of those with as many lines more or
/// fewer, or as nearly so many as there are, and further passes are made as long as there aren't so many (sections 873 to 875). The
/// list ends with a penalty that forces a break, as `is_ended` tests, and there is a shape.
///
/// Its errors are glue in the list, or at the ends of its lines, that shrinks infinitely, which is looked for before any memory
/// is taken, and want of memory.
pub fn breaks(
    alloc: Global,
    pieces: &Pieces,
    shape: &Shape,
    params: &BreakParams,
) -> Result<Chosen, BreakError>
    requires shaped { 0 < length shape.now }
    requires ended { IsEnded pieces.now }
    ensures answer { IfOk result (λ chosen. IsAnswer pieces.now shape.now params.now chosen) }
    ensures endless { (result ≡ Err InfiniteShrink) ↔ (has_endless_shrink pieces.now params.now ≡ true) }
{
    let list = pieces.as_slice();
    if has_endless_shrink(list, params) {
        return Err(BreakError::InfiniteShrink);
    }
    Ok(choose_in(alloc, list, shape.as_slice(), params)?)
}

/// The breaks of the first pass alone, as `breaks` answers them; None where this pass isn't made, or doesn't give the answer, so
/// that words are to be hyphenated for the others (TeX: The Program, section 863). The list ends as for `breaks`, and there is a
/// shape.
///
/// Its errors are those of `breaks`.
pub fn first_breaks(
    alloc: Global,
    pieces: &Pieces,
    shape: &Shape,
    params: &BreakParams,
) -> Result<Option<Chosen>, BreakError>
    requires shaped { 0 < length shape.now }
    requires ended { IsEnded pieces.now }
    ensures none { IfOk result (λ found. IfNone found (first_succeeds pieces.now shape.now params.now ≡ false)) }
    ensures some { IfOk result (λ found. IfSome found (λ chosen. (first_succeeds pieces.now shape.now params.now ≡ true) × IsAnswer pieces.now shape.now params.now chosen)) }
    ensures endless { (result ≡ Err InfiniteShrink) ↔ (has_endless_shrink pieces.now params.now ≡ true) }
{
    let list = pieces.as_slice();
    if has_endless_shrink(list, params) {
        return Err(BreakError::InfiniteShrink);
    }
    Ok(find_first_in(alloc, list, shape.as_slice(), params)?)
}
