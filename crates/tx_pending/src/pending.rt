//! The pending input (TeX: The Program, sections 321 to 331 and 357).
ghost use Rattle.std.specs.Prelude.{◌≡◌, ◌↔◌, ◌++◌, ◌-◌, drop, false, map, take, true, IsTrue, IfOk, IfSome, OnOk, OnErr};
ghost use Rattle.tx_pending.specs.Elements as spec;
ghost use Rattle.tx_toklist.specs.Bodies.{argument, filled, filled_from};
ghost use Rattle.tx_pending.specs.Elements.{Given as Element_given, begins_entry, behind_part, entered, no_input, step, with_close, with_held, with_level, with_line, with_list, with_part_end, with_token, with_use};
ghost use Rattle.tx_pending.specs.Plain.{IsNext, behind_first, passed};
ghost use Rattle.tx_pending.specs.Sources.{IsReady, elements_of, stack_elements};
ghost use Rattle.tx_pending.specs.Steps.{BeginsPlain, Takes};

use crate::level::{level_after, level_before};
use crate::line::LineReading;
use crate::list::ListReading;
use crate::next::{ColumnPart, Next};
use crate::same::same_elements;
use crate::source::Source;
use std::alloc::{AllocError, Global};
use std::marker::Model;
use tx_bytes::Bytes;
use tx_char::{Codes, Token};
use tx_lex::{KnownNames, NoNames, PlainToken, ReadState};
use tx_toklist::{Macro, Slot, TokList};

/// What is read before another line is asked for. Contracts see one list of tokens, markers and lines, whether \endinput
/// came since a line was used up, and the level of braces.
#[derive(Drop)]
pub struct Pending {
    /// The innermost source stands last.
    stack: Vec<Source>,
    closing: bool,
    level: i64,
}

impl Model for Pending {
    ghost use Rattle.tx_pending.specs.Elements.{Input};

    ghost Value = { Input };

    ghost use Rattle.tx_pending.specs.Sources.{stack_elements};

    ghost view = { λ p. record { elements = stack_elements p.stack.items; closing = p.closing; level = p.level } };
}

impl Pending {
    /// Nothing is pending; takes no memory.
    pub fn new(alloc: Global) -> Pending
        ensures { result ≡ no_input }
    {
        Pending {
            stack: Vec::new(alloc),
            closing: false,
            level: 1_000_000,
        }
    }

    /// Puts a list at the front, and a marker behind it if it is marked. No token is copied. After want of memory nothing has
    /// changed.
    pub fn push_list(&mut self, list: TokList, marked: bool) -> Result<(), AllocError>
        ensures ok { OnOk result (self.new ≡ with_list self.old list marked) }
        ensures err { OnErr result (self.new ≡ self.old) }
    {
        drop_spent(&mut self.stack);
        put(
            &mut self.stack,
            Source::List(ListReading::new(list, marked)),
        )
    }

    /// Puts the end of a part of an alignment's column at the front: what the part has is put there next. After want of memory
    /// nothing has changed.
    pub fn push_part_end(&mut self, part: ColumnPart) -> Result<(), AllocError>
        ensures ok { OnOk result (self.new ≡ with_part_end self.old part) }
        ensures err { OnErr result (self.new ≡ self.old) }
    {
        drop_spent(&mut self.stack);
        put(&mut self.stack, Source::PartEnd(Some(part)))
    }

    /// Leaves a u-part that is read to its end, if one is: its entry begins, at level 0.
    #[inline(always)]
    fn enter(&mut self)
        ensures { self.new ≡ entered self.old }
    {
        drop_spent(&mut self.stack);
        if take_entry(&mut self.stack) {
            self.level = 0;
        }
    }

    /// Puts the body of a macro at the front, with these arguments in place of its parameters; a u-part that is read to its
    /// end is left before. No token is copied: it takes as much as parameters are named in the body. Its only error is want of
    /// memory, after which the input may only be dropped.
    pub fn push_use(&mut self, made: &Macro, arguments: &[TokList]) -> Result<(), AllocError>
        ensures { OnOk result (self.new ≡ with_use self.old (filled made.now.body arguments.now)) }
    {
        self.enter();
        put_filled(&mut self.stack, made.tokens(), made.slots(), arguments)
    }

    /// Puts a token that was read at the front, to be read again; a u-part that is read to its end is left before. After want
    /// of memory nothing else has changed.
    pub fn give_back(&mut self, token: Token) -> Result<(), AllocError>
        ensures ok { OnOk result (self.new ≡ with_token self.old token) }
        ensures err { OnErr result (self.new ≡ entered self.old) }
    {
        self.enter();
        let level = level_before(self.level, &token)?;
        put(&mut self.stack, Source::Token(Some(token)))?;
        self.level = level;
        Ok(())
    }

    /// Puts a token at the front that \noexpand holds: it is the next that is read, and is an ordinary one again where it is
    /// given back (TeX: The Program, sections 358 and 369); a u-part that is read to its end is left before. After want of
    /// memory nothing else has changed.
    pub fn push_held(&mut self, token: Token) -> Result<(), AllocError>
        ensures ok { OnOk result (self.new ≡ with_held self.old token) }
        ensures err { OnErr result (self.new ≡ entered self.old) }
    {
        self.enter();
        let level = level_before(self.level, &token)?;
        put(&mut self.stack, Source::Held(Some(token)))?;
        self.level = level;
        Ok(())
    }

    /// At which level of braces it is read.
    #[inline(always)]
    pub fn level(&self) -> i64
        ensures { result ≡ self.now.level }
    {
        self.level
    }

    /// Whether an entry of an alignment is read, in no braces of its own.
    #[inline(always)]
    pub fn is_at_entry(&self) -> bool
        ensures { result ≡ spec.is_at_entry self.now }
    {
        self.level == 0
    }

    /// From now on it is read at this level.
    pub fn set_level(&mut self, level: i64)
        ensures { self.new ≡ with_level self.old level }
    {
        self.level = level;
    }

    /// The level is one lower, as if a begin-group token hadn't been read that stands in what is put in (TeX: The Program, section
    /// 394). Its only error is that it can't be counted, and then nothing has changed.
    pub fn lower(&mut self) -> Result<(), AllocError>
        ensures ok { OnOk result (self.new ≡ spec.lowered self.old) }
        ensures err { OnErr result (self.new ≡ self.old) }
    {
        let Some(level) = self.level.checked_sub(1) else {
            return Err(AllocError);
        };
        self.level = level;
        Ok(())
    }

    /// The level becomes as if this token hadn't been read: it is a number behind a backquote (TeX: The Program, section 442). Its
    /// only error is that the level can't be counted, and then nothing has changed.
    pub fn unread(&mut self, token: &Token) -> Result<(), AllocError>
        ensures ok { OnOk result (self.new ≡ spec.unread self.old token.now) }
        ensures err { OnErr result (self.new ≡ self.old) }
    {
        self.level = level_before(self.level, token)?;
        Ok(())
    }

    /// Puts a new line at the front, which is read from the state at a line's start on. After want of memory nothing has
    /// changed.
    pub fn push_line(&mut self, alloc: Global, line: Bytes) -> Result<(), AllocError>
        ensures ok { OnOk result (self.new ≡ with_line self.old line) }
        ensures err { OnErr result (self.new ≡ self.old) }
    {
        let reading = LineReading::new(alloc, line)?;
        drop_spent(&mut self.stack);
        put(&mut self.stack, Source::Line(reading))
    }

    /// \endinput: the next `Used` is to tell that the file is to be closed.
    pub fn end_input(&mut self)
        ensures { self.new ≡ with_close self.old }
    {
        self.closing = true;
    }

    /// Takes what comes next. `Marker` and `PartEnd` come exactly where such is at the front; `Used` exactly where a line of which
    /// nothing but dropped characters is left is at the front, which is taken away, or nothing is pending; `E1` exactly where the
    /// line at the front has a character of category Invalid next. Its only error is want of memory.
    pub fn next(&mut self, alloc: Global, codes: &Codes) -> Result<Next, AllocError>
        ensures next { IfOk result (λ next. next ≡ (step codes.now self.old).next) }
        ensures left { OnOk result (self.new ≡ (step codes.now self.old).left) }
    {
        self.next_known(alloc, codes, &NoNames)
    }

    /// Takes what comes next, as `next` does; a name that is known takes no memory. Its only error is want of memory.
    #[inline(never)]
    pub fn next_known<K: KnownNames>(
        &mut self,
        alloc: Global,
        codes: &Codes,
        known: &K,
    ) -> Result<Next, AllocError>
        ensures next { IfOk result (λ next. next ≡ (step codes.now self.old).next) }
        ensures left { OnOk result (self.new ≡ (step codes.now self.old).left) }
    {
        drop_spent(&mut self.stack);
        let next = take(&mut self.stack, alloc, codes, known, self.closing)?;
        self.closing = next.closing_after(self.closing);
        self.level = level_after(self.level, &next)?;
        Ok(next)
    }

    /// What comes next, where it is a token as it stands in the line or the list at the front; it isn't taken. A source of which
    /// nothing is left may hide it.
    #[inline(always)]
    pub fn first_plain(&self, codes: &Codes) -> Option<PlainToken>
        ensures { IfSome result (IsNext codes.now self.now) }
    {
        first_plain(&self.stack, codes)
    }

    /// Takes the first character of the line at the front, which goes on in this state, or the first token there; a token that
    /// \noexpand holds, and a marker, stay.
    #[inline(always)]
    pub fn pass_first(&mut self, state: ReadState)
        ensures { self.new ≡ behind_first state self.old }
    {
        drop_spent(&mut self.stack);
        pass_first(&mut self.stack, state);
    }

    /// Whether the same is pending, however the lists are cut, at the same level, and \endinput came in both or in none.
    pub fn same(&self, other: &Pending) -> bool
        ensures { IsTrue result ↔ (self.now ≡ other.now) }
    {
        self.closing == other.closing
            && self.level == other.level
            && same_elements(&self.stack, &other.stack)
    }

    /// The same pending input for another owner, in which no token and no byte is copied. Its only error is want of
    /// memory.
    pub fn share(&self, alloc: Global) -> Result<Pending, AllocError>
        ensures { IfOk result (λ shared. shared ≡ self.now) }
    {
        Ok(Pending {
            stack: shared(alloc, &self.stack)?,
            closing: self.closing,
            level: self.level,
        })
    }
}

/// Takes the sources away of which nothing is left, so that they don't pile up where macros end with macros.
#[inline(always)]
fn drop_spent(stack: &mut Vec<Source>)
    ensures same { stack_elements stack.new.items ≡ stack_elements stack.old.items }
    ensures ready { IsReady stack.new.items }
{
    while let Some(top) = stack.last() {
        if !top.is_spent() {
            return;
        }
        stack.pop();
    }
}

/// Whether the innermost source is the end of a u-part.
#[inline(always)]
fn ends_part(stack: &[Source]) -> bool
    requires { IsReady stack.now }
    ensures { result ≡ begins_entry (stack_elements stack.now) }
{
    if stack.is_empty() {
        return false;
    }
    stack[stack.len() - 1].begins_entry()
}

/// Takes the end of a u-part off the stack, if it is the innermost source; whether it is.
#[inline(always)]
fn take_entry(stack: &mut Vec<Source>) -> bool
    requires { IsReady stack.old.items }
    ensures begins { result ≡ begins_entry (stack_elements stack.old.items) }
    ensures left { stack_elements stack.new.items ≡ behind_part (stack_elements stack.old.items) }
{
    if ends_part(stack) {
        stack.pop();
        return true;
    }
    false
}

/// Puts a source on the stack. After want of memory nothing has changed.
fn put(stack: &mut Vec<Source>, source: Source) -> Result<(), AllocError>
    ensures ok { OnOk result (stack_elements stack.new.items ≡ elements_of source ++ stack_elements stack.old.items) }
    ensures err { OnErr result (stack.new.items ≡ stack.old.items) }
{
    stack.push(source)?;
    Ok(())
}

/// Puts the tokens of a body on the stack, with arguments at the places where they stand; what is read last goes first. Its
/// only error is want of memory.
fn put_filled(
    stack: &mut Vec<Source>,
    tokens: &TokList,
    slots: &[Slot],
    arguments: &[TokList],
) -> Result<(), AllocError>
    ensures { OnOk result (stack_elements stack.new.items ≡ map Element_given (filled_from arguments.now tokens.now 0 slots.now) ++ stack_elements stack.old.items) }
{
    let mut end = tokens.len();
    let mut left = slots.len();
    while left > 0 {
        left -= 1;
        let slot = slots[left];
        put_part(stack, tokens, slot.before, end)?;
        put_argument(stack, arguments, slot.number)?;
        end = slot.before;
    }
    put_part(stack, tokens, 0, end)
}

/// Puts the tokens of a list from a place up to another on the stack, if there are any. Its only error is want of memory.
fn put_part(
    stack: &mut Vec<Source>,
    tokens: &TokList,
    from: usize,
    to: usize,
) -> Result<(), AllocError>
    ensures { OnOk result (stack_elements stack.new.items ≡ map Element_given (take (to - from) (drop from tokens.now)) ++ stack_elements stack.old.items) }
{
    if from >= to {
        return Ok(());
    }
    let part = ListReading::part(tokens.share()?, from, to);
    put(stack, Source::List(part))
}

/// Puts the argument of the parameter of this number on the stack. Its only error is want of memory.
fn put_argument(
    stack: &mut Vec<Source>,
    arguments: &[TokList],
    number: u8,
) -> Result<(), AllocError>
    ensures { OnOk result (stack_elements stack.new.items ≡ map Element_given (argument arguments.now number) ++ stack_elements stack.old.items) }
{
    match arguments.get(usize::from(number).saturating_sub(1)) {
        Some(list) => put(stack, Source::List(ListReading::new(list.share()?, false))),
        None => Ok(()),
    }
}

/// Takes what comes next; where a line is used up, or there is none, it tells whether \endinput came, as it is told. Its only
/// error is want of memory.
#[inline(always)]
fn take<K: KnownNames>(
    stack: &mut Vec<Source>,
    alloc: Global,
    codes: &Codes,
    known: &K,
    closing: bool,
) -> Result<Next, AllocError>
    requires { IsReady stack.old.items }
    ensures { IfOk result (λ next. Takes codes.now closing (stack_elements stack.old.items) next (stack_elements stack.new.items)) }
{
    if stack.is_empty() {
        return Ok(Next::Used { close: closing });
    }
    let top = stack.len() - 1;
    let next = stack[top].next(alloc, codes, known, closing)?;
    if next.is_used() {
        stack.truncate(top);
    }
    Ok(next)
}

/// What comes next, where the innermost source is a line or a list that goes on with a token as it stands.
#[inline(always)]
fn first_plain(stack: &[Source], codes: &Codes) -> Option<PlainToken>
    ensures { IfSome result (BeginsPlain codes.now (stack_elements stack.now)) }
{
    if stack.is_empty() {
        return None;
    }
    stack[stack.len() - 1].first_plain(codes)
}

/// Passes the first character of the innermost source, if it is a line, which goes on in this state, or its first token.
#[inline(always)]
fn pass_first(stack: &mut Vec<Source>, state: ReadState)
    requires { IsReady stack.old.items }
    ensures { stack_elements stack.new.items ≡ passed state (stack_elements stack.old.items) }
{
    if stack.is_empty() {
        return;
    }
    let top = stack.len() - 1;
    stack[top].pass_first(state);
}

/// The same sources, in a stack of their own. Its only error is want of memory.
fn shared(alloc: Global, stack: &[Source]) -> Result<Vec<Source>, AllocError>
    ensures { IfOk result (λ copy. stack_elements copy.items ≡ stack_elements stack.now) }
{
    let mut copy = Vec::new(alloc);
    for source in stack {
        copy.push(source.share()?)?;
    }
    Ok(copy)
}
