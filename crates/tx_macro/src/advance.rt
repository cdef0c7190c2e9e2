//! What the next token makes of a use.
ghost use Rattle.std.specs.Prelude.{◌≡◌, ◌≢◌, ◌≤◌, ◌<◌, ◌∷◌, ◌++◌, [], true, List, None, IfOk, IfSome, OnErr, OnOk, IsTrue, length, drop};
ghost use Rattle.tx_char.specs.declared.tokens.Token.{Token};
ghost use Rattle.tx_toklist.specs.Macros.{is_delimiter, no_parameters};
ghost use Rattle.tx_macro.specs.Matchers.{HasGathered, goes_on};
ghost use Rattle.tx_macro.specs.Rests.{IsNext, IsPart, IsStage, IsStep, delimiter_behind, next_rest, others, part_rest, step_rest, use_rest};
ghost use Rattle.tx_macro.specs.Matching.{behind};
ghost use Rattle.tx_macro.specs.Stages.{Before, next_of, part_of, stage_of, step_of};

use crate::borders::borders_of;
use crate::stage::{Advance, Awaited, Gathered, Kind, Move};
use crate::{delimited, undelimited};
use std::alloc::{AllocError, Global};
use std::mem;
use tx_char::Token;
use tx_list::Items;
use tx_seen::TexError;
use tx_toklist::{Lists, Macro, Toks};

/// What a token makes of a use that waits for this. Its only error is want of memory.
pub(crate) fn advance(
    alloc: Global,
    made: &Macro,
    gathered: &mut Gathered,
    awaited: Awaited,
    token: Token,
) -> Result<Advance, AllocError>
    requires stage { IsStage made.now (stage_of awaited gathered.old) }
    requires within { gathered.old.from ≤ length gathered.old.taken }
    ensures rest { IfOk result (λ next. (more : List Token) → use_rest made.now (stage_of awaited gathered.old) (token ∷ more) ≡ next_rest made.now (next_of next gathered.new) more) }
    ensures stage { IfOk result (λ next. IsNext made.now (next_of next gathered.new)) }
    ensures taken { OnOk result (gathered.new.taken ≡ gathered.old.taken ++ token ∷ []) }
    ensures within { OnOk result (gathered.new.from ≤ length gathered.new.taken) }
{
    match awaited {
        Awaited::Before { met } => advance_before(alloc, made, gathered, met, token),
        Awaited::Argument(kind) => advance_within(alloc, made, gathered, kind, token),
        Awaited::Over => unreachable!(),
    }
}

/// Takes a token before the first parameter, where exactly those of the parameter text are wanted. Its only error is want
/// of memory.
fn advance_before(
    alloc: Global,
    made: &Macro,
    gathered: &mut Gathered,
    met: usize,
    token: Token,
) -> Result<Advance, AllocError>
    requires { met < length made.now.parameters.before }
    ensures rest { IfOk result (λ next. (more : List Token) → use_rest made.now (Before met) (token ∷ more) ≡ next_rest made.now (next_of next gathered.new) more) }
    ensures stage { IfOk result (λ next. IsNext made.now (next_of next gathered.new)) }
    ensures taken { OnOk result (gathered.new.taken ≡ gathered.old.taken ++ token ∷ []) }
    ensures within { gathered.old.from ≤ length gathered.old.taken → OnOk result (gathered.new.from ≤ length gathered.new.taken) }
{
    let before = made.before();
    let wanted = before[met].same(&token);
    gathered.taken.push(token)?;
    if !wanted {
        return Ok(Advance::Fails(TexError::UseDiffers));
    }
    if met + 1 < before.len() {
        return Ok(Advance::On(Awaited::Before { met: met + 1 }));
    }
    // no argument is whole before the first parameter
    gathered.arguments.clear();
    begin(alloc, made, gathered)
}

/// Takes a token of an argument. Its only error is want of memory.
fn advance_within(
    alloc: Global,
    made: &Macro,
    gathered: &mut Gathered,
    kind: Kind,
    token: Token,
) -> Result<Advance, AllocError>
    requires stage { IsStage made.now (stage_of (Awaited.Argument kind) gathered.old) }
    requires within { gathered.old.from ≤ length gathered.old.taken }
    ensures rest { IfOk result (λ next. (more : List Token) → use_rest made.now (stage_of (Awaited.Argument kind) gathered.old) (token ∷ more) ≡ next_rest made.now (next_of next gathered.new) more) }
    ensures stage { IfOk result (λ next. IsNext made.now (next_of next gathered.new)) }
    ensures taken { OnOk result (gathered.new.taken ≡ gathered.old.taken ++ token ∷ []) }
    ensures within { OnOk result (gathered.new.from ≤ length gathered.new.taken) }
{
    let delimiter = made.delimiters()[gathered.arguments.len()].as_slice();
    let step = take(
        made.is_long(),
        delimiter,
        gathered.borders.as_slice(),
        kind,
        &token,
    )?;
    follow(alloc, made, gathered, step, token)
}

/// Takes a token with which an argument goes on, and answers as what it does; else nothing changes. Its only error is want of
/// memory, after which nothing has changed either.
#[inline(always)]
pub(crate) fn join_within(
    made: &Macro,
    gathered: &mut Gathered,
    kind: Kind,
    token: &Token,
) -> Result<Option<Kind>, AllocError>
    requires stage { IsStage made.now (stage_of (Awaited.Argument kind) gathered.old) }
    requires within { gathered.old.from ≤ length gathered.old.taken }
    ensures rest { IfOk result (λ on. IfSome on (λ next. (more : List Token) → use_rest made.now (stage_of (Awaited.Argument kind) gathered.old) (token.now ∷ more) ≡ use_rest made.now (stage_of (Awaited.Argument next) gathered.new) more)) }
    ensures stage { IfOk result (λ on. IfSome on (λ next. IsStage made.now (stage_of (Awaited.Argument next) gathered.new))) }
    ensures taken { IfOk result (λ on. IfSome on (λ next. gathered.new.taken ≡ gathered.old.taken ++ token.now ∷ [])) }
    ensures within { IfOk result (λ on. IfSome on (λ next. gathered.new.from ≤ length gathered.new.taken)) }
    ensures none { IfOk result (λ on. on ≡ None → gathered.new ≡ gathered.old) }
    ensures err { OnErr result (gathered.new ≡ gathered.old) }
{
    let delimiter = made.delimiters()[gathered.arguments.len()].as_slice();
    let step = take(
        made.is_long(),
        delimiter,
        gathered.borders.as_slice(),
        kind,
        token,
    )?;
    match step {
        Move::On(next) => {
            gathered.taken.push(token.clone()?)?;
            Ok(Some(next))
        }
        Move::Opens => {
            let opening = token.clone()?;
            gathered.taken.push(opening)?;
            gathered.from = gathered.taken.len();
            Ok(Some(Kind::Group { depth: 0 }))
        }
        _ => Ok(None),
    }
}

/// What a token makes of the argument of a parameter with this delimiter. Its only error is that no more groups can be
/// counted.
#[inline(always)]
fn take(
    long: bool,
    delimiter: &[Token],
    borders: &[usize],
    kind: Kind,
    token: &Token,
) -> Result<Move, AllocError>
    requires delimiter { IsTrue (is_delimiter delimiter.now) }
    requires part { (met : List Token) × IsPart delimiter.now (part_of borders.now kind met) }
    ensures rest { IfOk result (λ step. (met more : List Token) → IsPart delimiter.now (part_of borders.now kind met) → part_rest long delimiter.now (part_of borders.now kind met) (token.now ∷ more) ≡ step_rest long delimiter.now (step_of borders.now step met token.now) more) }
    ensures part { IfOk result (λ step. (met : List Token) → IsPart delimiter.now (part_of borders.now kind met) → IsStep delimiter.now (step_of borders.now step met token.now)) }
{
    match kind {
        Kind::Undelimited => Ok(undelimited::begin(long, token)),
        Kind::Group { depth } => undelimited::go_on(depth, long, token),
        Kind::Delimited { agreed, depth } => {
            delimited::take(delimiter, borders, agreed, depth, long, token)
        }
    }
}

/// What a use comes to where a token makes this of its argument. Its only error is want of memory.
fn follow(
    alloc: Global,
    made: &Macro,
    gathered: &mut Gathered,
    step: Move,
    token: Token,
) -> Result<Advance, AllocError>
    requires some { length gathered.old.arguments < length made.now.parameters.delimiters }
    requires within { gathered.old.from ≤ length gathered.old.taken }
    requires step { IsStep (delimiter_behind (length gathered.old.arguments) made.now) (step_of gathered.old.borders step (drop gathered.old.from gathered.old.taken) token) }
    ensures rest { IfOk result (λ next. (more : List Token) → behind (λ text rest. others made.now (gathered.old.arguments ++ text ∷ []) rest) (step_rest made.now.long (delimiter_behind (length gathered.old.arguments) made.now) (step_of gathered.old.borders step (drop gathered.old.from gathered.old.taken) token) more) ≡ next_rest made.now (next_of next gathered.new) more) }
    ensures stage { IfOk result (λ next. IsNext made.now (next_of next gathered.new)) }
    ensures taken { OnOk result (gathered.new.taken ≡ gathered.old.taken ++ token ∷ []) }
    ensures within { OnOk result (gathered.new.from ≤ length gathered.new.taken) }
{
    match step {
        Move::On(kind) => {
            gathered.taken.push(token)?;
            Ok(Advance::On(Awaited::Argument(kind)))
        }
        Move::Opens => {
            gathered.taken.push(token)?;
            gathered.from = gathered.taken.len();
            Ok(Advance::On(Awaited::Argument(Kind::Group { depth: 0 })))
        }
        Move::Broken(error) => {
            gathered.taken.push(token)?;
            Ok(Advance::Fails(error))
        }
        Move::Single => {
            let argument = Items::one(alloc, token.clone()?)?;
            end(alloc, made, gathered, argument, token)
        }
        Move::Closes => {
            let argument = Items::from_slice(alloc, met(gathered))?;
            end(alloc, made, gathered, argument, token)
        }
        Move::Delimits { agreed } => {
            let argument = delimited::argument(alloc, met(gathered), agreed)?;
            end(alloc, made, gathered, argument, token)
        }
    }
}

/// What was met of the argument that is being taken, lent.
fn met(gathered: &Gathered) -> &[Token]
    requires { gathered.now.from ≤ length gathered.now.taken }
    ensures { result.now ≡ drop gathered.now.from gathered.now.taken }
{
    &gathered.taken.as_slice()[gathered.from..]
}

/// What a use comes to where this argument is whole with a token. Its only error is want of memory.
fn end(
    alloc: Global,
    made: &Macro,
    gathered: &mut Gathered,
    argument: Toks,
    token: Token,
) -> Result<Advance, AllocError>
    requires { length gathered.old.arguments < length made.now.parameters.delimiters }
    ensures rest { IfOk result (λ next. (more : List Token) → others made.now (gathered.old.arguments ++ argument ∷ []) more ≡ next_rest made.now (next_of next gathered.new) more) }
    ensures stage { IfOk result (λ next. IsNext made.now (next_of next gathered.new)) }
    ensures taken { OnOk result (gathered.new.taken ≡ gathered.old.taken ++ token ∷ []) }
    ensures within { gathered.old.from ≤ length gathered.old.taken → OnOk result (gathered.new.from ≤ length gathered.new.taken) }
{
    gathered.arguments.push(argument)?;
    gathered.taken.push(token)?;
    begin(alloc, made, gathered)
}

/// What comes behind the arguments that are whole: the next one, if there is one more parameter. Its only error is want of
/// memory.
fn begin(alloc: Global, made: &Macro, gathered: &mut Gathered) -> Result<Advance, AllocError>
    requires { length gathered.old.arguments ≤ length made.now.parameters.delimiters }
    ensures rest { IfOk result (λ next. (more : List Token) → others made.now gathered.old.arguments more ≡ next_rest made.now (next_of next gathered.new) more) }
    ensures stage { IfOk result (λ next. IsNext made.now (next_of next gathered.new)) }
    ensures taken { OnOk result (gathered.new.taken ≡ gathered.old.taken) }
    ensures within { gathered.old.from ≤ length gathered.old.taken → OnOk result (gathered.new.from ≤ length gathered.new.taken) }
{
    let delimiters = made.delimiters();
    let count = gathered.arguments.len();
    if count == delimiters.len() {
        let arguments = mem::replace(&mut gathered.arguments, Lists::new(alloc));
        return Ok(Advance::Fits(arguments));
    }
    gathered.from = gathered.taken.len();
    let delimiter = delimiters[count].as_slice();
    if delimiter.is_empty() {
        return Ok(Advance::On(Awaited::Argument(Kind::Undelimited)));
    }
    gathered.borders = borders_of(alloc, delimiter)?;
    Ok(Advance::On(Awaited::Argument(Kind::Delimited {
        agreed: 0,
        depth: 0,
    })))
}

/// What a use of which nothing is taken waits for. Its only error is want of memory.
pub(crate) fn first(
    alloc: Global,
    made: &Macro,
    gathered: &mut Gathered,
) -> Result<Awaited, AllocError>
    requires some { made.now.parameters ≢ no_parameters }
    requires nothing { gathered.old.taken ≡ [] }
    requires no_arguments { gathered.old.arguments ≡ [] }
    requires from { gathered.old.from ≡ 0 }
    ensures begun { IfOk result (HasGathered made.now gathered.new) }
    ensures taken { OnOk result (gathered.new.taken ≡ []) }
    ensures on { IfOk result (λ awaited. goes_on awaited ≡ true) }
{
    if !made.before().is_empty() {
        return Ok(Awaited::Before { met: 0 });
    }
    let next = begin(alloc, made, gathered)?;
    Ok(awaited_behind(next))
}

/// What a use waits for that goes on.
fn awaited_behind(next: Advance) -> Awaited
    ensures { (awaited : Awaited) → next ≡ Advance.On awaited → awaited ≡ result }
{
    match next {
        Advance::On(awaited) => awaited,
        Advance::Fits(_) => Awaited::Over,
        Advance::Fails(_) => Awaited::Over,
    }
}
