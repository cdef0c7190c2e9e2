//! How a token is taken: by the innermost expansion, or by the caller.
ghost use Rattle.std.specs.Prelude.{◌≡◌, true, false, IfOk, OnOk};
ghost use Rattle.tx_convert.specs.Texts.{as_tokens};
ghost use Rattle.tx_expand.specs.Values.{lent};
ghost use Rattle.tx_prim.specs.declared.modes.Mode.{Mode as Any_mode};
ghost use Rattle.tx_expand.specs.Expanding.{reader_of, world_of};
ghost use Rattle.tx_expand.specs.Reader.{World};
ghost use Rattle.tx_expand.specs.Taken.{HasTakenIn, character};
ghost use Rattle.tx_expand.specs.Turns as turns;
ghost use Rattle.tx_expand.specs.Turns.{given_by, given_to, replaced, text_of, use_on, IsTurned};
ghost use Rattle.tx_expand.specs.Uses.{comes_to, with_taken};

use crate::begun::Begun;
use crate::innermost::{
    feed_scan, feed_skipper, hold_back, is_matching, is_scanning, is_skipping, is_waiting, join_use,
};
use crate::known::Known;
use crate::printing::push_printed;
use crate::scanning::Scanning;
use crate::state::Expander;
use crate::step::Step;
use crate::types::{Expanded, Printed, Read, Scanned};
use crate::using::Using;
use std::alloc::{AllocError, Global};
use tx_char::{Cat, Token};
use tx_cond::SkipItem;
use tx_pending::Pending;
use tx_prim::Test;
use tx_scan::token_of;
use tx_seen::{Fed, Seen, Want};
use tx_toklist::{Toks, begins_group};

impl Expander {
    /// Whether the innermost expansion wants what stands behind a backquote: a number by its code.
    fn wants_constant(&self) -> bool
        ensures { result ≡ turns.wants_constant self.now.begun }
    {
        match self.begun.first() {
            Some(Begun::Scanning(scanning)) => is_constant(scanning),
            _ => false,
        }
    }

    /// A token joins what the innermost expansion reads. Its only error is want of memory.
    pub(crate) fn scan_on(
        &mut self,
        alloc: Global,
        input: &mut Pending,
        known: &Known,
        token: Seen,
    ) -> Result<Expanded, AllocError>
        requires { turns.is_scanning self.old.begun ≡ true }
        ensures { (any : Any_mode) → IfOk result (IsTurned (given_to (world_of (lent known.now) any) token (reader_of self.old input.old) self.old.begun) (reader_of self.new input.new)) }
    {
        count(input, self.wants_constant(), &token)?;
        match feed_scan(alloc, &mut self.begun, input, known, token)? {
            Read::More => Ok(Expanded::Went),
            Read::Made(made) => {
                self.begun.drop_first();
                self.come(alloc, input, known, made)
            }
            Read::Wrong(error) => Ok(Expanded::Wrong(error)),
        }
    }

    /// A token joins the use of a macro. Its only error is want of memory.
    fn use_on(
        &mut self,
        alloc: Global,
        input: &mut Pending,
        usage: Using,
        token: Token,
    ) -> Result<Expanded, AllocError>
        ensures { IfOk result (IsTurned (use_on token (with_taken usage token) (reader_of self.old input.old) (comes_to (with_taken usage token))) (reader_of self.new input.new)) }
    {
        let opens = begins_group(&token);
        match usage.feed(alloc, token)? {
            Step::On(using) => self.begin(Begun::Use(using)),
            Step::Fits(made, arguments) => {
                lower_behind(input, opens)?;
                input.push_use(&made, arguments.as_slice())?;
                self.went(input)
            }
            Step::Wrong(error) => Ok(Expanded::Wrong(error)),
        }
    }

    /// A token joins skipped text. Its only error is want of memory.
    pub(crate) fn skip_on(
        &mut self,
        input: &mut Pending,
        token: Seen,
    ) -> Result<Expanded, AllocError>
        requires { turns.is_skipping self.old.begun ≡ true }
        ensures { (w : World) → IfOk result (IsTurned (given_to w token (reader_of self.old input.old) self.old.begun) (reader_of self.new input.new)) }
    {
        let item = SkipItem::of(&token.meaning);
        if is_other(item) {
            return Ok(Expanded::Went);
        }
        match feed_skipper(&mut self.begun, item)? {
            Fed::More(_) => Ok(Expanded::Went),
            Fed::Need(_) => unreachable!(),
            Fed::Done(word, _) => {
                self.begun.drop_first();
                self.meet(input, token_of(token), word)
            }
            Fed::Wrong(error) => Ok(Expanded::Wrong(error)),
        }
    }

    /// What is printed of a token. Its only error is want of memory.
    fn print(
        &mut self,
        alloc: Global,
        input: &mut Pending,
        known: &Known,
        what: Printed,
        token: &Seen,
    ) -> Result<Expanded, AllocError>
        ensures { (any : Any_mode) → IfOk result (IsTurned (replaced (as_tokens (text_of (world_of (lent known.now) any) what token.now)) (reader_of self.old input.old)) (reader_of self.new input.new)) }
    {
        let mut tokens = Toks::new(alloc);
        push_printed(alloc, &mut tokens, known, what, token)?;
        self.replace(alloc, input, tokens)
    }

    /// The innermost expansion takes a token, or the caller does. Its only error is want of memory.
    #[inline(always)]
    pub(crate) fn take(
        &mut self,
        alloc: Global,
        input: &mut Pending,
        known: &Known,
        token: Seen,
    ) -> Result<Expanded, AllocError>
        ensures { (any : Any_mode) → IfOk result (IsTurned (given_to (world_of (lent known.now) any) token (reader_of self.old input.old) self.old.begun) (reader_of self.new input.new)) }
    {
        if self.begun.is_empty() {
            return Ok(Expanded::Got(token));
        }
        self.take_other(alloc, input, known, token)
    }

    /// A token joins an argument where that stands, if this goes on with it, or else the innermost expansion takes it. Its only
    /// error is want of memory.
    #[inline(always)]
    pub(crate) fn take_within(
        &mut self,
        alloc: Global,
        input: &mut Pending,
        known: &Known,
        token: Seen,
    ) -> Result<Expanded, AllocError>
        ensures { (any : Any_mode) → IfOk result (IsTurned (given_to (world_of (lent known.now) any) token (reader_of self.old input.old) self.old.begun) (reader_of self.new input.new)) }
    {
        let joined = join_use(&mut self.begun, &token.token)?;
        if joined {
            return Ok(Expanded::Went);
        }
        self.take_other(alloc, input, known, token)
    }

    /// The innermost expansion takes a token, or the caller does. It is a function of its own, so that a token which is the
    /// caller's isn't moved on its way through it. Its only error is want of memory.
    #[inline(never)]
    fn take_other(
        &mut self,
        alloc: Global,
        input: &mut Pending,
        known: &Known,
        token: Seen,
    ) -> Result<Expanded, AllocError>
        ensures { (any : Any_mode) → IfOk result (IsTurned (given_to (world_of (lent known.now) any) token (reader_of self.old input.old) self.old.begun) (reader_of self.new input.new)) }
    {
        if is_scanning(&self.begun) {
            return self.scan_on(alloc, input, known, token);
        }
        if is_skipping(&self.begun) {
            return self.skip_on(input, token);
        }
        if is_waiting(&self.begun) {
            hold_back(&mut self.begun, token_of(token));
            return Ok(Expanded::Went);
        }
        match self.begun.pop() {
            Some(begun) => self.take_by(alloc, input, known, begun, token),
            None => Ok(Expanded::Got(token)),
        }
    }

    /// Whether the innermost expansion takes characters as they stand, one after the other: it is the use of a macro, or text that
    /// is skipped.
    #[inline(always)]
    pub fn takes_characters(&self) -> bool
        ensures { result ≡ turns.takes_characters self.now.begun }
    {
        is_matching(&self.begun) || is_skipping(&self.begun)
    }

    /// A character of this category, which means itself, joins the argument that is taken, if that goes on with it, or the text
    /// that is skipped; answers whether it did, as a turn does. Else nothing changes. Its only error is want of memory.
    #[inline(always)]
    pub fn take_character(&mut self, code: u8, category: Cat) -> Result<bool, AllocError>
        ensures { IfOk result (λ taken. HasTakenIn self.old (character code category) taken self.new) }
    {
        if is_skipping(&self.begun) {
            return Ok(true);
        }
        join_use(&mut self.begun, &Token::Character(code, category))
    }

    /// An expansion that neither reads nor skips takes a token. Its only error is want of memory.
    fn take_by(
        &mut self,
        alloc: Global,
        input: &mut Pending,
        known: &Known,
        begun: Begun,
        token: Seen,
    ) -> Result<Expanded, AllocError>
        requires scans { turns.scans begun ≡ false }
        requires skips { turns.skips begun ≡ false }
        ensures { (any : Any_mode) → IfOk result (IsTurned (given_by (world_of (lent known.now) any) token (reader_of self.old input.old) begun) (reader_of self.new input.new)) }
    {
        match begun {
            Begun::Use(using) => self.use_on(alloc, input, using, token_of(token)),
            Begun::After => self.begin(Begun::Before(token_of(token))),
            Begun::Before(held) => {
                input.give_back(token_of(token))?;
                input.give_back(held)?;
                self.went(input)
            }
            Begun::Once => {
                input.give_back(token_of(token))?;
                self.went(input)
            }
            Begun::Hold => {
                input.push_held(token_of(token))?;
                self.went(input)
            }
            Begun::Print(what) => self.print(alloc, input, known, what, &token),
            Begun::Scanning(_) | Begun::Skipping(_) => unreachable!(),
            Begun::Opening => self.begin(Begun::Opening),
        }
    }
}

/// Whether what an expansion reads goes on with the character behind a backquote.
fn is_constant(scanning: &Scanning) -> bool
    ensures { result ≡ turns.is_constant scanning.now }
{
    match scanning.want() {
        Want::Expanded => false,
        Want::Raw => !matches!(scanning.what(), Scanned::Test(Test::Same, _)),
    }
}

/// A brace that is a number behind a backquote counts as if it hadn't been read. Its only error is that the level can't be counted.
fn count(input: &mut Pending, constant: bool, token: &Seen) -> Result<(), AllocError>
    ensures { OnOk result (input.new ≡ turns.counted constant token.now input.old) }
{
    if constant {
        input.unread(&token.token)?;
    }
    Ok(())
}

/// A begin-group token with which a macro's parameter text ends stands in the body too: it is as if it hadn't been read. Its only
/// error is that the level can't be counted.
fn lower_behind(input: &mut Pending, opens: bool) -> Result<(), AllocError>
    ensures { OnOk result (input.new ≡ turns.behind_begin opens input.old) }
{
    if opens {
        input.lower()?;
    }
    Ok(())
}

/// Whether skipped text goes on behind an item as it did before.
fn is_other(item: SkipItem) -> bool
    ensures { result ≡ turns.is_other item }
{
    matches!(item, SkipItem::Other)
}
