//! The innermost of the expansions that have begun, where it stands.
ghost use Rattle.std.specs.Prelude.{◌≡◌, ◌∷◌, reverse, true, List, ℕ, IfOk, OnOk};
ghost use Rattle.tx_cond.specs.declared.types.Conditional.{Conditional};
ghost use Rattle.tx_expand.specs.Values.{lent, value_now};
ghost use Rattle.tx_expand.specs.Expanding.{reader};
ghost use Rattle.tx_expand.specs.Taken.{HasUseJoined, IsJoinedBegun, IsJoinedFirst, IsPassedBegun, IsPassedFirst, IsReadBegun, IsReadFirst};
ghost use Rattle.tx_expand.specs.Turns as turns;
ghost use Rattle.tx_expand.specs.Turns.{released};

use crate::begun::Begun;
use crate::known::Known;
use crate::types::{Destination, Read, Scanned};
use std::alloc::{AllocError, Global};
use tx_char::Token;
use tx_cond::SkipItem;
use tx_list::Stack;
use tx_pending::Pending;
use tx_prim::CondWord;
use tx_seen::{Fed, Seen};

/// The token that the innermost expansion holds back, if it does. Its only error is that no more owners can be counted.
fn held_back(begun: &Stack<Begun>) -> Result<Option<Token>, AllocError>
    ensures { IfOk result (λ held. held ≡ turns.held_back begun.now) }
{
    match begun.first() {
        Some(Begun::Before(token)) => Ok(Some(token.clone()?)),
        _ => Ok(None),
    }
}

/// A \span that waits for an expansion waits no more.
fn drop_once(begun: &mut Stack<Begun>)
    ensures { begun.new ≡ turns.without_once begun.old }
{
    if matches!(begun.first(), Some(Begun::Once)) {
        begun.drop_first();
    }
}

/// Puts what \expandafter held back before an expansion that has ended at the front of the input; a \span that waits for it
/// waits no more. Its only error is want of memory.
pub(crate) fn release(begun: &mut Stack<Begun>, input: &mut Pending) -> Result<(), AllocError>
    ensures { (conditionals : List Conditional) (job : List ℕ) → OnOk result (reader begun.new input.new conditionals job ≡ released (reader begun.old input.old conditionals job)) }
{
    while let Some(token) = held_back(begun)? {
        begun.drop_first();
        input.give_back(token)?;
    }
    drop_once(begun);
    Ok(())
}

/// Where the tokens of \the go: to the text that the caller takes, where it takes such, and nothing else has begun.
pub(crate) fn destination(takes_the: bool, begun: &Stack<Begun>) -> Destination
    ensures { result ≡ turns.destination takes_the begun.now }
{
    match begun.first() {
        None if takes_the => Destination::Text,
        _ => Destination::Input,
    }
}

/// Whether an expansion reads a file's name.
fn finds(begun: &Begun) -> bool
    ensures { result ≡ turns.finds begun.now }
{
    match begun {
        Begun::Scanning(scanning) => matches!(scanning.what(), Scanned::File),
        _ => false,
    }
}

/// Whether one of these expansions, the outermost first, reads a file's name.
pub(crate) fn is_finding(begun: &[Begun]) -> bool
    ensures { result ≡ turns.is_finding (reverse begun.now) }
{
    let mut place = begun.len();
    while place > 0 {
        place -= 1;
        if finds(&begun[place]) {
            return true;
        }
    }
    false
}

/// Whether the innermost expansion reads tokens that are expanded.
pub(crate) fn is_scanning(begun: &Stack<Begun>) -> bool
    ensures { result ≡ turns.is_scanning begun.now }
{
    matches!(begun.first(), Some(Begun::Scanning(_)))
}

/// Whether text is skipped.
pub(crate) fn is_skipping(begun: &Stack<Begun>) -> bool
    ensures { result ≡ turns.is_skipping begun.now }
{
    matches!(begun.first(), Some(Begun::Skipping(_)))
}

/// Whether the innermost expansion is the use of a macro.
pub(crate) fn is_matching(begun: &Stack<Begun>) -> bool
    ensures { result ≡ turns.is_matching begun.now }
{
    matches!(begun.first(), Some(Begun::Use(_)))
}

/// Whether the innermost expansion is an \expandafter that waits for the token that it holds back.
pub(crate) fn is_waiting(begun: &Stack<Begun>) -> bool
    ensures { result ≡ turns.is_waiting begun.now }
{
    matches!(begun.first(), Some(Begun::After))
}

/// From now on it holds this token back, in the same place among those that have begun.
pub(crate) fn hold_back(begun: &mut Stack<Begun>, token: Token)
    requires { turns.is_waiting begun.old ≡ true }
    ensures { (outer : List Begun) → begun.old ≡ Begun.After ∷ outer → begun.new ≡ Begun.Before token ∷ outer }
{
    *begun.first_mut() = Begun::Before(token);
}

/// A token joins what an expansion reads. Its only error is want of memory.
fn read_by(
    alloc: Global,
    begun: &mut Begun,
    input: &mut Pending,
    known: &Known,
    token: Seen,
) -> Result<Read, AllocError>
    requires { turns.scans begun.old ≡ true }
    ensures { IfOk result (IsReadBegun (value_now (lent known.now)) begun.old token input.old begun.new input.new) }
{
    match begun {
        Begun::Scanning(scanning) => scanning.feed(alloc, known, input, token),
        _ => unreachable!(),
    }
}

/// An item joins the text that is skipped. Its only error is that no more open conditionals can be counted.
fn skip_by(begun: &mut Begun, item: SkipItem) -> Result<Fed<CondWord>, AllocError>
    requires { turns.skips begun.old ≡ true }
    ensures { IfOk result (IsPassedBegun begun.old item begun.new) }
{
    match begun {
        Begun::Skipping(skipper) => skipper.feed(item),
        _ => unreachable!(),
    }
}

/// A token joins what the innermost expansion reads, where it stands. Its only error is want of memory.
pub(crate) fn feed_scan(
    alloc: Global,
    begun: &mut Stack<Begun>,
    input: &mut Pending,
    known: &Known,
    token: Seen,
) -> Result<Read, AllocError>
    requires { turns.is_scanning begun.old ≡ true }
    ensures { IfOk result (IsReadFirst (value_now (lent known.now)) begun.old token input.old begun.new input.new) }
{
    read_by(alloc, begun.first_mut(), input, known, token)
}

/// An item joins the text that is skipped, where that stands. Its only error is that no more open conditionals can be counted.
pub(crate) fn feed_skipper(
    begun: &mut Stack<Begun>,
    item: SkipItem,
) -> Result<Fed<CondWord>, AllocError>
    requires { turns.is_skipping begun.old ≡ true }
    ensures { IfOk result (IsPassedFirst begun.old item begun.new) }
{
    skip_by(begun.first_mut(), item)
}

/// A token joins the use of a macro, if an argument goes on with it; else nothing changes. Its only error is want of memory.
#[inline(always)]
fn join_by(begun: &mut Begun, token: &Token) -> Result<bool, AllocError>
    requires { turns.matches begun.old ≡ true }
    ensures { IfOk result (λ joined. IsJoinedBegun begun.old token.now joined begun.new) }
{
    match begun {
        Begun::Use(using) => using.join(token),
        _ => unreachable!(),
    }
}

/// A token joins the use of a macro that is the innermost expansion, where that stands, if an argument goes on with it; else
/// nothing changes. Its only error is want of memory.
#[inline(always)]
fn join_first(begun: &mut Stack<Begun>, token: &Token) -> Result<bool, AllocError>
    requires { turns.is_matching begun.old ≡ true }
    ensures { IfOk result (λ joined. IsJoinedFirst begun.old token.now joined begun.new) }
{
    join_by(begun.first_mut(), token)
}

/// The same, whatever the innermost expansion is: where it is no use of a macro nothing changes. Its only error is want of memory.
#[inline(always)]
pub(crate) fn join_use(begun: &mut Stack<Begun>, token: &Token) -> Result<bool, AllocError>
    ensures { IfOk result (λ joined. HasUseJoined begun.old token.now joined begun.new) }
{
    if !is_matching(begun) {
        return Ok(false);
    }
    join_first(begun, token)
}
