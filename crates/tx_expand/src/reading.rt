//! How a token is read: whether it is expanded, and what is looked at before.
ghost use Rattle.std.specs.Prelude.{◌≡◌, true, IfOk, OnOk};
ghost use Rattle.tx_expand.specs.Values.{lent};
ghost use Rattle.tx_prim.specs.declared.modes.Mode.{Mode as Any_mode};
ghost use Rattle.tx_expand.specs.Expanding.{reader_of, world_of};
ghost use Rattle.tx_expand.specs.Turns as turns;
ghost use Rattle.tx_expand.specs.Turns.{expanded, met, token_read, IsTurned};

use crate::begun::Begun;
use crate::entries::entry_end_in;
use crate::innermost::{is_skipping, release};
use crate::known::Known;
use crate::state::Expander;
use crate::types::{Expanded, Scanned, Wanted};
use std::alloc::{AllocError, Global};
use tx_pending::Pending;
use tx_prim::{Mode, Test};
use tx_scan::token_of;
use tx_seen::{Meaning, Seen, TexError, Want};
use tx_toklist::Macro;

impl Expander {
    /// The expansion of a token; what isn't expanded is taken. Its only error is want of memory.
    #[inline(always)]
    fn expand(
        &mut self,
        alloc: Global,
        input: &mut Pending,
        known: &Known,
        mode: Mode,
        wanted: Wanted,
        token: Seen,
    ) -> Result<Expanded, AllocError>
        ensures { IfOk result (IsTurned (expanded (world_of (lent known.now) mode) wanted token (reader_of self.old input.old) token.meaning) (reader_of self.new input.new)) }
    {
        match &token.meaning {
            Meaning::Undefined => Ok(Expanded::Wrong(TexError::Undefined)),
            Meaning::Expandable(primitive) => {
                let primitive = *primitive;
                self.expand_primitive(
                    alloc,
                    input,
                    known,
                    mode,
                    wanted,
                    token_of(token),
                    primitive,
                )
            }
            Meaning::Macro(made) => self.use_macro(alloc, input, made),
            _ => self.take(alloc, input, known, token),
        }
    }

    /// How the next token is wanted.
    #[inline(always)]
    pub(crate) fn want(&self, wanted: Wanted) -> Want
        ensures { result ≡ turns.wanted_by wanted self.now.begun }
    {
        match self.begun.first() {
            None => wanted.want,
            Some(Begun::Before(_) | Begun::Once) => Want::Expanded,
            Some(Begun::Scanning(scanning)) => scanning.want(),
            Some(_) => Want::Raw,
        }
    }

    /// The error where the innermost file has ended and isn't closed yet, and at an \outer macro; whether the caller takes a text.
    pub fn ended(&self, text: bool) -> Option<TexError>
        ensures { result ≡ turns.incomplete text self.now.begun }
    {
        match self.begun.first() {
            Some(Begun::Skipping(_)) => Some(TexError::IncompleteConditional),
            Some(Begun::Use(_)) => Some(TexError::IncompleteText),
            _ if text => Some(TexError::IncompleteText),
            _ => None,
        }
    }

    /// Whether the next token is taken whatever it is.
    fn takes_all(&self) -> bool
        ensures { result ≡ turns.takes_all self.now.begun }
    {
        match self.begun.first() {
            Some(Begun::Hold | Begun::Print(_)) => true,
            Some(Begun::Scanning(scanning)) => matches!(
                scanning.what(),
                Scanned::Test(Test::Same, _)
            ),
            _ => false,
        }
    }

    /// The error that an \outer macro is here.
    #[inline(always)]
    fn refused(&self, text: bool, meaning: &Meaning) -> Option<TexError>
        ensures { result ≡ turns.refused text meaning.now self.now.begun }
    {
        match meaning {
            Meaning::Macro(made) if made.is_outer() && !self.takes_all() => self.ended(text),
            _ => None,
        }
    }

    /// Whether a token that means this is the caller's, however it wants it.
    #[inline(always)]
    fn passes(&self, meaning: &Meaning) -> bool
        ensures { result ≡ turns.passes meaning.now self.now.begun }
    {
        self.begun.is_empty() && is_plain(meaning)
    }

    /// Whether a macro is used where it comes next: a token is wanted expanded, and the macro isn't \outer.
    #[inline(always)]
    fn expands(&self, wanted: Wanted, made: &Macro) -> bool
        ensures { result ≡ turns.expands_macro wanted made.now self.now.begun }
    {
        !made.is_outer() && matches!(self.want(wanted), Want::Expanded)
    }

    /// A token is read. Its only error is want of memory.
    #[inline(always)]
    fn read(
        &mut self,
        alloc: Global,
        input: &mut Pending,
        known: &Known,
        mode: Mode,
        wanted: Wanted,
        token: Seen,
    ) -> Result<Expanded, AllocError>
        ensures { IfOk result (IsTurned (token_read (world_of (lent known.now) mode) wanted token (reader_of self.old input.old)) (reader_of self.new input.new)) }
    {
        if let Some(error) = self.refused(wanted.text, &token.meaning) {
            return Ok(Expanded::Wrong(error));
        }
        match self.want(wanted) {
            Want::Expanded => self.expand(alloc, input, known, mode, wanted, token),
            Want::Raw => self.take(alloc, input, known, token),
        }
    }

    /// A token is read that isn't the caller's however it wants it. It is large, and stays out of the turns of all others. Its
    /// only error is want of memory.
    #[inline(never)]
    fn read_other(
        &mut self,
        alloc: Global,
        input: &mut Pending,
        known: &Known,
        mode: Mode,
        wanted: Wanted,
        token: Seen,
    ) -> Result<Expanded, AllocError>
        ensures { IfOk result (IsTurned (token_read (world_of (lent known.now) mode) wanted token (reader_of self.old input.old)) (reader_of self.new input.new)) }
    {
        match &token.meaning {
            Meaning::Macro(made) if self.expands(wanted, made) => {
                self.use_macro(alloc, input, made)
            }
            _ => self.read(alloc, input, known, mode, wanted, token),
        }
    }

    /// A token is read within an argument, or text that is skipped: it is taken as it stands, unless it is an \outer macro. Its
    /// only error is want of memory.
    #[inline(never)]
    fn read_within(
        &mut self,
        alloc: Global,
        input: &mut Pending,
        known: &Known,
        wanted: Wanted,
        token: Seen,
    ) -> Result<Expanded, AllocError>
        requires { turns.takes_characters self.old.begun ≡ true }
        ensures { (any : Any_mode) → IfOk result (IsTurned (token_read (world_of (lent known.now) any) wanted token (reader_of self.old input.old)) (reader_of self.new input.new)) }
    {
        if let Some(error) = self.refused(wanted.text, &token.meaning) {
            return Ok(Expanded::Wrong(error));
        }
        if is_skipping(&self.begun) {
            return self.skip_on(input, token);
        }
        self.take_within(alloc, input, known, token)
    }

    /// A token is met: it ends an entry of an alignment, or is read; where it is the caller's however that wants it, nothing else
    /// is looked at, and within an argument or skipped text only whether it is \outer. Its only error is want of memory.
    #[inline(always)]
    pub(crate) fn met(
        &mut self,
        alloc: Global,
        input: &mut Pending,
        known: &Known,
        mode: Mode,
        wanted: Wanted,
        token: Seen,
    ) -> Result<Expanded, AllocError>
        ensures { IfOk result (IsTurned (met (world_of (lent known.now) mode) wanted token (reader_of self.old input.old)) (reader_of self.new input.new)) }
    {
        if let Some(word) = entry_end_in(input, &token.meaning) {
            return Ok(Expanded::EndsEntry(word));
        }
        if self.passes(&token.meaning) {
            return Ok(Expanded::Got(token));
        }
        if self.takes_characters() {
            return self.read_within(alloc, input, known, wanted, token);
        }
        self.read_other(alloc, input, known, mode, wanted, token)
    }

    /// Whether the first line of a file is awaited.
    #[inline(always)]
    pub fn is_opening(&self) -> bool
        ensures { result ≡ turns.is_opening self.now.begun }
    {
        matches!(self.begun.first(), Some(Begun::Opening))
    }

    /// The first line of the file that \input opened stands in front, or there is none: what \expandafter held back comes
    /// before it. Its only error is want of memory.
    pub fn line_came(&mut self, input: &mut Pending) -> Result<(), AllocError>
        ensures { OnOk result (reader_of self.new input.new ≡ turns.opened (reader_of self.old input.old)) }
    {
        if self.is_opening() {
            self.begun.drop_first();
            release(&mut self.begun, input)?;
        }
        Ok(())
    }
}

/// Whether a token that means this is never expanded.
#[inline(always)]
fn is_plain(meaning: &Meaning) -> bool
    ensures { result ≡ turns.is_plain meaning.now }
{
    !matches!(
        meaning,
        Meaning::Undefined | Meaning::Expandable(_) | Meaning::Macro(_)
    )
}
