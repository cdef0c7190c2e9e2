//! The level of braces at which pending input is read (TeX: The Program, sections 309 and 347).
ghost use Rattle.std.specs.Prelude.{◌≡◌, Some, IfOk};
ghost use Rattle.tx_pending.specs.Elements as spec;

use crate::next::{ColumnPart, Next};
use std::alloc::AllocError;
use tx_char::Token;
use tx_toklist::{begins_group, ends_group};

/// The level, if it can be counted.
fn counted(level: Option<i64>) -> Result<i64, AllocError>
    ensures { IfOk result (λ now. level ≡ Some now) }
{
    match level {
        Some(level) => Ok(level),
        None => Err(AllocError),
    }
}

/// The level behind a token that is read. Its only error is that it can't be counted.
#[inline(always)]
fn level_behind(level: i64, token: &Token) -> Result<i64, AllocError>
    ensures { IfOk result (λ now. now ≡ spec.level_behind level token.now) }
{
    if begins_group(token) {
        return counted(level.checked_add(1));
    }
    if ends_group(token) {
        return counted(level.checked_sub(1));
    }
    Ok(level)
}

/// The level behind what comes next; behind a u-part the entry begins. Its only error is that it can't be counted.
#[inline(always)]
pub(crate) fn level_after(level: i64, next: &Next) -> Result<i64, AllocError>
    ensures { IfOk result (λ now. now ≡ spec.level_after level next.now) }
{
    match next {
        Next::Token(token) | Next::Held(token) => level_behind(level, token),
        Next::PartEnd(ColumnPart::U) => Ok(0),
        Next::PartEnd(ColumnPart::V) | Next::Marker => Ok(level),
        Next::Used { .. } | Next::E1 => Ok(level),
    }
}

/// The level as if a token hadn't been read. Its only error is that it can't be counted.
pub(crate) fn level_before(level: i64, token: &Token) -> Result<i64, AllocError>
    ensures { IfOk result (λ now. now ≡ spec.level_before level token.now) }
{
    if begins_group(token) {
        return counted(level.checked_sub(1));
    }
    if ends_group(token) {
        return counted(level.checked_add(1));
    }
    Ok(level)
}
