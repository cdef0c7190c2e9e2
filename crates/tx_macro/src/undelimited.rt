//! Undelimited arguments.
ghost use Rattle.std.specs.Prelude.{◌≡◌, ◌<◌, ◌-◌, ◌^◌, ◌∷◌, ◌++◌, [], List, ℕ, IfOk};
ghost use Rattle.tx_char.specs.declared.tokens.Token.{Token};
ghost use Rattle.tx_macro.specs.Arguments.{group, level, undelimited};
ghost use Rattle.tx_macro.specs.Rests.{IsStep, step_rest};
ghost use Rattle.tx_macro.specs.Stages.{step_of};

use crate::stage::{Kind, Move};
use crate::tokens::{is_paragraph, is_space_token};
use std::alloc::AllocError;
use tx_char::Token;
use tx_seen::TexError;
use tx_toklist::{begins_group, ends_group};

/// Takes the first token of an undelimited argument, or a space before it.
pub(crate) fn begin(long: bool, token: &Token) -> Move
    ensures rest { (borders : List ℕ) (met more : List Token) → undelimited long (token.now ∷ more) ≡ step_rest long [] (step_of borders result met token.now) more }
    ensures part { (borders : List ℕ) (met : List Token) → IsStep [] (step_of borders result met token.now) }
{
    if is_space_token(token) {
        return Move::On(Kind::Undelimited);
    }
    if begins_group(token) {
        return Move::Opens;
    }
    if ends_group(token) {
        return Move::Broken(TexError::GroupEndInArgument);
    }
    if is_paragraph(token) && !long {
        return Move::Broken(TexError::ParagraphInArgument);
    }
    Move::Single
}

/// Takes a token of a group in which so many further groups are open. Its only error is that no more can be counted.
pub(crate) fn go_on(depth: usize, long: bool, token: &Token) -> Result<Move, AllocError>
    ensures rest { IfOk result (λ step. (borders : List ℕ) (met more : List Token) → group long depth met (token.now ∷ more) ≡ step_rest long [] (step_of borders step met token.now) more) }
    ensures part { IfOk result (λ step. (borders : List ℕ) (met : List Token) → IsStep [] (step_of borders step met token.now)) }
{
    if is_paragraph(token) && !long {
        return Ok(Move::Broken(TexError::ParagraphInArgument));
    }
    if ends_group(token) && depth == 0 {
        return Ok(Move::Closes);
    }
    let depth = level_behind(depth, token)?;
    Ok(Move::On(Kind::Group { depth }))
}

/// How many groups are open behind a token, by how many are before it. Its only error is that no more can be counted.
pub(crate) fn level_behind(depth: usize, token: &Token) -> Result<usize, AllocError>
    ensures { IfOk result (λ behind. behind ≡ level depth token.now) }
{
    if depth == usize::MAX {
        return Err(AllocError);
    }
    Ok(level_of(depth, token))
}

/// How many groups are open behind a token, by how many are before it.
pub(crate) fn level_of(depth: usize, token: &Token) -> usize
    requires { depth < 2 ^ 64 - 1 }
    ensures { result ≡ level depth token.now }
{
    if begins_group(token) {
        return depth + 1;
    }
    if ends_group(token) {
        return depth.saturating_sub(1);
    }
    depth
}
