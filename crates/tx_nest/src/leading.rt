//! The leading between the lines of a vertical list.
ghost use Rattle.std.specs.Prelude.{◌≡◌, ◌-ℤ◌};
ghost use Rattle.tx_nest.specs.Leading as spec;
ghost use Rattle.tx_nest.specs.declared.leading.NestError.TheVariants.{OutOfMemory};

use crate::state::IGNORE_DEPTH;
use std::alloc::AllocError;
use thiserror::Error;
use tx_num::{Glue, Range};

/// The parameters of leading: \baselineskip, \lineskip, and \lineskiplimit in sp (The TeXbook, chapter 12).
#[derive(Clone, Copy)]
pub struct LeadingParams {
    pub baseline_skip: Glue,
    pub line_skip: Glue,
    pub line_skip_limit: i64,
}

/// Why a box can't be appended.
#[derive(Clone, Copy, Debug, Error)]
pub enum NestError {
    #[error("the leading leaves the range of dimensions")]
    SizeOutOfRange,
    #[error("out of memory")]
    OutOfMemory,
}

impl From<AllocError> for NestError {
    ghost from_gives = { λ _ e. e ≡ OutOfMemory };

    fn from(_: AllocError) -> Self {
        NestError::OutOfMemory
    }
}

/// Glue of another width, in sp, which has to be a dimension.
fn widened(glue: &Glue, width: i64) -> Result<Option<Glue>, NestError>
    ensures { result ≡ spec.widened glue.now width }
{
    if !Range::Dimen.holds(width) {
        return Err(NestError::SizeOutOfRange);
    }
    Ok(Some(Glue::new(
        width,
        glue.stretch(),
        glue.stretch_order(),
        glue.shrink(),
        glue.shrink_order(),
    )))
}

/// The leading where so much of \baselineskip is left between two boxes, in sp.
fn leading_by(params: &LeadingParams, distance: i64) -> Result<Option<Glue>, NestError>
    ensures { result ≡ spec.leading_by params.now distance }
{
    if distance < params.line_skip_limit {
        return Ok(Some(params.line_skip));
    }
    widened(&params.baseline_skip, distance)
}

/// How much of \baselineskip is left between so much depth and a box so high, in sp.
fn distance(params: &LeadingParams, prev_depth: i32, height: i32) -> i64
    ensures { result ≡ params.now.baseline_skip.width -ℤ prev_depth -ℤ height }
{
    params.baseline_skip.width() - i64::from(prev_depth) - i64::from(height)
}

/// The leading before a box so high, below so much depth, in sp.
fn leading(params: &LeadingParams, prev_depth: i32, height: i32) -> Result<Option<Glue>, NestError>
    ensures { result ≡ spec.leading params.now prev_depth height }
{
    if prev_depth <= IGNORE_DEPTH {
        return Ok(None);
    }
    leading_by(params, distance(params, prev_depth, height))
}

/// The leading before a box so high, in sp, by \prevdepth, which lists that aren't vertical don't have.
pub fn leading_behind(
    params: &LeadingParams,
    prev_depth: Option<i32>,
    height: i32,
) -> Result<Option<Glue>, NestError>
    ensures { result ≡ spec.leading_behind params.now prev_depth height }
{
    match prev_depth {
        Some(depth) => leading(params, depth, height),
        None => Ok(None),
    }
}
