//! Legal breaks.
ghost use Rattle.std.specs.Prelude.{◌≡◌, option_copied, Some};
ghost use Rattle.tx_linebreak.specs.Breaks.{behind, discretionary_of, discretionary_penalty, free, hyphenates, is_discardable, is_glue, outset, piece_penalty, unless_forbidden};

use crate::params::{BreakParams, Pass};
use crate::piece::{Discretionary, Piece};

/// What the pieces before a place say of it: glue there may be a break, it is in mathematics, and from it on so many pieces
/// are the no-break text of a discretionary.
#[derive(Clone, Copy)]
pub(crate) struct Context {
    pub after_solid: bool,
    pub in_math: bool,
    pub replaced: u32,
}

impl Context {
    /// What is said at the list's beginning.
    pub fn outset() -> Context
        ensures { result ≡ outset }
    {
        Context {
            after_solid: false,
            in_math: false,
            replaced: 0,
        }
    }

    /// Goes past one more piece.
    pub fn go_past(&mut self, piece: &Piece)
        ensures { self.new ≡ behind self.old piece.now }
    {
        if self.replaced > 0 {
            self.replaced -= 1;
            return;
        }
        match piece {
            Piece::Solid(_) => self.after_solid = true,
            Piece::Kern(_) | Piece::Glue(_) | Piece::Penalty(_) => self.after_solid = false,
            Piece::Discretionary(d) => {
                self.after_solid = true;
                self.replaced = d.replaced;
            }
            Piece::MathOn(_) => {
                self.after_solid = false;
                self.in_math = true;
            }
            Piece::MathOff(_) => {
                self.after_solid = false;
                self.in_math = false;
            }
        }
    }
}

impl Pass {
    /// Whether it breaks at discretionaries that hyphenation made.
    pub fn hyphenates(self) -> bool
        ensures { result ≡ hyphenates self }
    {
        match self {
            Pass::First => false,
            Pass::Second => true,
            Pass::Emergency => true,
        }
    }
}

impl Piece {
    /// Whether it is glue.
    fn is_glue(&self) -> bool
        ensures { result ≡ is_glue (Some self.now) }
    {
        match self {
            Piece::Solid(_) => false,
            Piece::Kern(_) => false,
            Piece::Glue(_) => true,
            Piece::Penalty(_) => false,
            Piece::Discretionary(_) => false,
            Piece::MathOn(_) => false,
            Piece::MathOff(_) => false,
        }
    }

    /// Whether it vanishes behind a break.
    pub fn is_discardable(&self) -> bool
        ensures { result ≡ is_discardable self.now }
    {
        match self {
            Piece::Solid(_) => false,
            Piece::Kern(_) => true,
            Piece::Glue(_) => true,
            Piece::Penalty(_) => true,
            Piece::Discretionary(_) => false,
            Piece::MathOn(_) => true,
            Piece::MathOff(_) => true,
        }
    }

    /// The discretionary that it is, if it is one.
    pub(crate) fn discretionary(&self) -> Option<Discretionary>
        ensures { result ≡ discretionary_of (Some self.now) }
    {
        match self {
            Piece::Solid(_) => None,
            Piece::Kern(_) => None,
            Piece::Glue(_) => None,
            Piece::Penalty(_) => None,
            Piece::Discretionary(d) => Some(*d),
            Piece::MathOn(_) => None,
            Piece::MathOff(_) => None,
        }
    }
}

/// A break at this penalty, which 10000 forbids.
fn unless_forbidden(penalty: i32) -> Option<i32>
    ensures { result ≡ unless_forbidden penalty }
{
    if penalty < 10_000 {
        Some(penalty)
    } else {
        None
    }
}

/// A break that costs nothing, if it may be there.
fn free(allowed: bool) -> Option<i32>
    ensures { result ≡ free allowed }
{
    if allowed { Some(0) } else { None }
}

/// The penalty of a break at a discretionary, None where there is no legal break.
fn discretionary_penalty(params: &BreakParams, pass: Pass, d: &Discretionary) -> Option<i32>
    ensures { result ≡ discretionary_penalty params.now pass d.now }
{
    if d.hyphenated && !pass.hyphenates() {
        return None;
    }
    match d.before {
        None => unless_forbidden(params.ex_hyphen_penalty),
        Some(_) => unless_forbidden(params.hyphen_penalty),
    }
}

/// Whether there is a piece, and it is glue.
fn is_some_glue(piece: Option<&Piece>) -> bool
    ensures { result ≡ is_glue (option_copied piece.entry) }
{
    match piece {
        None => false,
        Some(piece) => piece.is_glue(),
    }
}

/// The penalty of a break at a piece, None where there is no legal break, given what stands before and behind it.
#[inline(always)]
pub(crate) fn penalty(
    params: &BreakParams,
    pass: Pass,
    context: Context,
    piece: &Piece,
    next: Option<&Piece>,
) -> Option<i32>
    ensures { result ≡ piece_penalty params.now pass context.replaced context (Some piece.now) (option_copied next.entry) }
{
    if context.replaced > 0 {
        return None;
    }
    match piece {
        Piece::Solid(_) => None,
        Piece::Kern(_) => free(!context.in_math && is_some_glue(next)),
        Piece::Glue(_) => free(context.after_solid && !context.in_math),
        Piece::Penalty(penalty) => unless_forbidden(*penalty),
        Piece::Discretionary(d) => discretionary_penalty(params, pass, d),
        Piece::MathOn(_) => None,
        Piece::MathOff(_) => free(is_some_glue(next)),
    }
}

/// The penalty of a break at a piece, as above; and what the pieces before say goes past the piece. Most pieces are solid.
#[inline(always)]
pub(crate) fn penalty_past(
    params: &BreakParams,
    pass: Pass,
    context: &mut Context,
    piece: &Piece,
    next: Option<&Piece>,
) -> Option<i32>
    ensures penalty { result ≡ piece_penalty params.now pass context.old.replaced context.old (Some piece.now) (option_copied next.entry) }
    ensures context { context.new ≡ behind context.old piece.now }
{
    if context.replaced == 0 {
        if let Piece::Solid(_) = piece {
            context.after_solid = true;
            return None;
        }
    }
    let penalty = penalty(params, pass, *context, piece, next);
    context.go_past(piece);
    penalty
}
