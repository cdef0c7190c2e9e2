//! The penalty between two lines.
ghost use Rattle.std.specs.Prelude.{◌≡◌, ◌≢◌, ◌≤◌, ◌^◌, ◌==◌, ◌+◌, ◌+ℤ◌, suc, unsigned_abs, IfErr, OnOk, Ok, Err};
ghost use Rattle.tx_par.specs.declared.error.ParError.TheVariants.{OutOfMemory};
ghost use Rattle.tx_par.specs.Setting as spec;

use crate::error::ParError;
use crate::params::ParParams;
use crate::so_far::SoFar;
use tx_nest::append_item;
use tx_node::{Node, Plain};
use tx_num::Range;

/// So much where this holds, else 0.
fn where_so(holds: bool, penalty: i32) -> i64
    ensures value { result ≡ spec.where_so holds penalty }
    ensures small { unsigned_abs result ≤ 2 ^ 31 }
{
    if holds { i64::from(penalty) } else { 0 }
}

/// Whether a line is the last but one, by how many lines come before it, and how many there are.
fn is_before_last(lines: usize, count: usize) -> bool
    ensures { result ≡ (suc (suc lines) == count) }
{
    count >= 2 && lines == count - 2
}

/// Whether it is the last one.
fn is_last(lines: usize, count: usize) -> bool
    ensures { result ≡ (suc lines == count) }
{
    count >= 1 && lines == count - 1
}

/// A sum with one more penalty.
fn plus(sum: i64, more: i64) -> i64
    requires sum_in { unsigned_abs sum ≤ 2 ^ 40 }
    requires more_in { unsigned_abs more ≤ 2 ^ 31 }
    ensures value { result ≡ sum +ℤ more }
    ensures small { unsigned_abs result ≤ unsigned_abs sum + 2 ^ 31 }
{
    sum + more
}

/// The penalty behind a line, by how many lines come before it, how many there are, and whether it ends at a discretionary.
fn penalty_behind(params: &ParParams, lines: usize, count: usize, broken: bool) -> i64
    ensures { result ≡ spec.penalty_behind params.now lines count broken }
{
    let line = i64::from(params.inter_line_penalty);
    let club = where_so(lines == 0, params.club_penalty);
    let widow = where_so(is_before_last(lines, count), params.widow_penalty);
    let hyphen = where_so(broken, params.broken_penalty);
    plus(plus(plus(line, club), widow), hyphen)
}

/// Puts a penalty at the end of the list, unless it is 0; it has to be an integer.
fn push_penalty(so_far: &mut SoFar, penalty: i64) -> Result<(), ParError>
    ensures put { OnOk result (spec.with_penalty penalty so_far.old ≡ Ok so_far.new) }
    ensures error { IfErr result (λ e. e ≢ OutOfMemory → spec.with_penalty penalty so_far.old ≡ Err e) }
    ensures cause { IfErr result spec.IsOfLines }
{
    if penalty == 0 {
        return Ok(());
    }
    if !Range::Integer.holds(penalty) {
        return Err(ParError::SizeOutOfRange);
    }
    append_item(
        &mut so_far.list,
        Node::Plain(Plain::Penalty(penalty as i32)),
    )?;
    Ok(())
}

/// Puts the penalty behind a line at the end of the list; there is none behind the last one.
pub(crate) fn part(
    so_far: &mut SoFar,
    params: &ParParams,
    lines: usize,
    count: usize,
    broken: bool,
) -> Result<(), ParError>
    ensures put { OnOk result (spec.parted params.now lines count broken so_far.old ≡ Ok so_far.new) }
    ensures error { IfErr result (λ e. e ≢ OutOfMemory → spec.parted params.now lines count broken so_far.old ≡ Err e) }
    ensures cause { IfErr result spec.IsOfLines }
{
    if is_last(lines, count) {
        return Ok(());
    }
    push_penalty(so_far, penalty_behind(params, lines, count, broken))
}
