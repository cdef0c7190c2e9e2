//! Delimited arguments.
ghost use Rattle.std.specs.Prelude.{◌≡◌, ◌≤◌, ◌<◌, ◌-◌, ◌∷◌, ◌++◌, [], List, ℕ, IfOk, IsTrue, length, take};
ghost use Rattle.tx_char.specs.declared.tokens.Token.{Token};
ghost use Rattle.tx_toklist.specs.Macros.{is_delimiter};
ghost use Rattle.tx_macro.specs.Agreement.{IsTable};
ghost use Rattle.tx_macro.specs.Arguments.{closes_last, common, delimited, is_one_group, level, without_braces};
ghost use Rattle.tx_macro.specs.Rests.{IsStep, IsTaking, part_rest, step_rest};
ghost use Rattle.tx_macro.specs.Stages.{Delimited, step_of};

use crate::borders::agreed;
use crate::stage::{Kind, Move};
use crate::tokens::is_paragraph;
use crate::undelimited::{level_behind, level_of};
use std::alloc::{AllocError, Global};
use tx_char::Token;
use tx_list::Items;
use tx_seen::TexError;
use tx_toklist::{Toks, begins_group, ends_group};

/// Takes a token of a delimited argument or of its delimiter. Its only error is that no more groups can be counted.
pub(crate) fn take(
    delimiter: &[Token],
    borders: &[usize],
    before: usize,
    depth: usize,
    long: bool,
    token: &Token,
) -> Result<Move, AllocError>
    requires delimiter { IsTrue (is_delimiter delimiter.now) }
    requires table { IsTable delimiter.now borders.now (length delimiter.now) }
    requires fewer { before < length delimiter.now }
    ensures rest { IfOk result (λ step. (met more : List Token) → IsTaking delimiter.now (record { met = met; agreed = before; depth = depth; borders = borders.now }) → part_rest long delimiter.now (Delimited (record { met = met; agreed = before; depth = depth; borders = borders.now })) (token.now ∷ more) ≡ step_rest long delimiter.now (step_of borders.now step met token.now) more) }
    ensures part { IfOk result (λ step. (met : List Token) → IsTaking delimiter.now (record { met = met; agreed = before; depth = depth; borders = borders.now }) → IsStep delimiter.now (step_of borders.now step met token.now)) }
{
    if depth > 0 {
        return take_inside(depth, long, token);
    }
    let now = agreed(delimiter, borders, before, token);
    if now == delimiter.len() {
        return Ok(Move::Delimits { agreed: before });
    }
    if now == 0 {
        return take_outside(long, token);
    }
    Ok(Move::On(Kind::Delimited {
        agreed: now,
        depth: 0,
    }))
}

/// Takes a token outside of groups with which nothing of the delimiter agrees. Its only error is that no more groups can be
/// counted.
fn take_outside(long: bool, token: &Token) -> Result<Move, AllocError>
    ensures rest { IfOk result (λ step. (borders : List ℕ) (delimiter met more : List Token) → 0 < length delimiter → common delimiter (token.now ∷ more) ≡ 0 → delimited long delimiter met 0 0 (token.now ∷ more) ≡ step_rest long delimiter (step_of borders step met token.now) more) }
    ensures part { IfOk result (λ step. (borders : List ℕ) (delimiter met : List Token) → IsTable delimiter borders (length delimiter) → 0 < length delimiter → IsStep delimiter (step_of borders step met token.now)) }
{
    if is_paragraph(token) && !long {
        return Ok(Move::Broken(TexError::ParagraphInArgument));
    }
    if ends_group(token) {
        return Ok(Move::Broken(TexError::GroupEndInArgument));
    }
    go_on(0, token)
}

/// Takes a token within a group, where no delimiter counts. Its only error is that no more groups can be counted.
fn take_inside(depth: usize, long: bool, token: &Token) -> Result<Move, AllocError>
    requires { 0 < depth }
    ensures rest { IfOk result (λ step. (borders : List ℕ) (delimiter met more : List Token) → delimited long delimiter met 0 depth (token.now ∷ more) ≡ step_rest long delimiter (step_of borders step met token.now) more) }
    ensures part { IfOk result (λ step. (borders : List ℕ) (delimiter met : List Token) → IsTable delimiter borders (length delimiter) → 0 < length delimiter → IsStep delimiter (step_of borders step met token.now)) }
{
    if is_paragraph(token) && !long {
        return Ok(Move::Broken(TexError::ParagraphInArgument));
    }
    go_on(depth, token)
}

/// The token belongs to the argument, and not to a delimiter. Its only error is that no more groups can be counted.
fn go_on(depth: usize, token: &Token) -> Result<Move, AllocError>
    ensures { IfOk result (λ step. step ≡ Move.On (Kind.Delimited 0 (level depth token.now))) }
{
    let depth = level_behind(depth, token)?;
    Ok(Move::On(Kind::Delimited { agreed: 0, depth }))
}

/// What was met before the last tokens, so many of which belong to the delimiter, without the braces of a group that it
/// is. Its only error is want of memory.
pub(crate) fn argument(alloc: Global, met: &[Token], delimiting: usize) -> Result<Toks, AllocError>
    ensures { IfOk result (λ text. text ≡ without_braces (take (length met.now - delimiting) met.now)) }
{
    let text = &met[..met.len().saturating_sub(delimiting)];
    if !is_group(text) {
        return Items::from_slice(alloc, text);
    }
    Items::from_slice(alloc, &text[1..text.len() - 1])
}

/// Whether the first token begins a group that the last one ends.
fn is_group(tokens: &[Token]) -> bool
    ensures { result ≡ is_one_group tokens.now }
{
    match tokens {
        [first, rest @ ..] => begins_group(first) && ends_at_last(rest),
        [] => false,
    }
}

/// Whether the group that is open before these tokens ends at the last of them, and not before.
fn ends_at_last(tokens: &[Token]) -> bool
    ensures { result ≡ closes_last 1 tokens.now }
{
    let mut depth: usize = 1;
    for place in 0..tokens.len() {
        let token = &tokens[place];
        if ends_group(token) && depth == 1 {
            return place + 1 == tokens.len();
        }
        depth = level_of(depth, token);
    }
    false
}
