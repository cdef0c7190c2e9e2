//! A line that is being read.
ghost use Rattle.std.specs.Prelude.{◌≡◌, ◌↔◌, ◌∷◌, ◌++◌, drop, IsTrue, IfOk, IfSome};
ghost use Rattle.std.specs.Option.{option_to_list};
ghost use Rattle.tx_lex.specs.declared.types.ReadState.TheVariants.{N};
ghost use Rattle.tx_lex.specs.Plain.{Begins};
ghost use Rattle.tx_pending.specs.Steps.{IsLineStep};

use crate::next::Next;
use std::alloc::{AllocError, Global};
use std::marker::Model;
use std::rc::Rc;
use tx_bytes::Bytes;
use tx_char::Codes;
use tx_lex::{KnownNames, Lexed, PlainToken, ReadState, first_plain, lex_on};

/// A shared line, and how much of it is read. Contracts see its unread rest and the state in which that is read.
#[derive(Drop)]
pub struct LineReading {
    line: Rc<Bytes>,
    used: usize,
    /// A character that stands before the bytes that are left.
    front: Option<u8>,
    state: ReadState,
}

impl Model for LineReading {
    ghost use Rattle.std.specs.Prelude.{drop, length, ◌≤◌, ◌++◌};
    ghost use Rattle.std.specs.Option.{option_to_list};
    ghost use Rattle.tx_pending.specs.Tails.{LineTail};

    ghost Value = { LineTail };

    ghost view = { λ l. record { unread = option_to_list l.front ++ drop l.used l.line.value; state = l.state } };

    ghost invariant = { λ l. l.used ≤ length l.line.value };
}

impl LineReading {
    /// A line of which nothing is read. Its only error is want of memory.
    pub fn new(alloc: Global, line: Bytes) -> Result<LineReading, AllocError>
        ensures { IfOk result (λ reading. reading ≡ record { unread = line; state = N }) }
    {
        Ok(LineReading {
            line: Rc::new(alloc, line)?,
            used: 0,
            front: None,
            state: ReadState::N,
        })
    }

    /// The next token of the line, if one is left; a line that is used up tells whether \endinput came, as it is told. Its only
    /// error is want of memory.
    #[inline(always)]
    pub fn next<K: KnownNames>(
        &mut self,
        alloc: Global,
        codes: &Codes,
        known: &K,
        closing: bool,
    ) -> Result<Next, AllocError>
        ensures { IfOk result (λ next. IsLineStep codes.now closing self.old next self.new) }
    {
        let rest = &self.line.as_ref().as_slice()[self.used..];
        match lex_on(alloc, self.front, rest, self.state, codes, known)? {
            Lexed::Token {
                token,
                used,
                front,
                state,
            } => {
                self.used += used;
                self.front = front;
                self.state = state;
                Ok(Next::Token(token))
            }
            Lexed::LineDone => Ok(Next::Used { close: closing }),
            Lexed::E1 => Ok(Next::E1),
        }
    }

    /// The token with which the rest begins, where it is one character as it stands.
    #[inline(always)]
    pub fn first_plain(&self, codes: &Codes) -> Option<PlainToken>
        ensures { IfSome result (Begins codes.now self.now.state self.now.unread) }
    {
        let rest = &self.line.as_ref().as_slice()[self.used..];
        first_plain(self.front, rest, self.state, codes)
    }

    /// Passes the first character of the rest, if there is one, and goes on in this state.
    #[inline(always)]
    pub fn pass_first(&mut self, state: ReadState)
        ensures { self.new ≡ record { unread = drop 1 self.old.unread; state = state } }
    {
        self.state = state;
        if self.front.is_some() {
            self.front = None;
        } else if self.used < self.line.as_ref().len() {
            self.used += 1;
        }
    }

    /// Whether both have the same rest, which is read in the same state.
    pub fn same(&self, other: &LineReading) -> bool
        ensures { IsTrue result ↔ (self.now ≡ other.now) }
    {
        self.state == other.state
            && same_rest(
                self.front,
                &self.line.as_ref().as_slice()[self.used..],
                other.front,
                &other.line.as_ref().as_slice()[other.used..],
            )
    }

    /// Another reading of the same line, which copies no byte. Its only error is that no more owners can be counted.
    pub fn share(&self) -> Result<LineReading, AllocError>
        ensures { IfOk result (λ shared. shared ≡ self.now) }
    {
        Ok(LineReading {
            line: self.line.clone()?,
            used: self.used,
            front: self.front,
            state: self.state,
        })
    }
}

/// Whether two texts are the same, before each of which a character may stand that is not its own.
fn same_rest(front: Option<u8>, rest: &[u8], other_front: Option<u8>, other_rest: &[u8]) -> bool
    ensures { IsTrue result ↔ (option_to_list front ++ rest.now ≡ option_to_list other_front ++ other_rest.now) }
{
    match (front, other_front) {
        (Some(code), Some(other_code)) => code == other_code && same_bytes(rest, other_rest),
        (Some(code), None) => begins_so(other_rest, code, rest),
        (None, Some(other_code)) => begins_so(rest, other_code, other_rest),
        (None, None) => same_bytes(rest, other_rest),
    }
}

/// Whether a text is this character and then this rest.
fn begins_so(text: &[u8], code: u8, rest: &[u8]) -> bool
    ensures { IsTrue result ↔ (code ∷ rest.now ≡ text.now) }
{
    match text {
        [first, behind @ ..] => *first == code && same_bytes(behind, rest),
        [] => false,
    }
}

/// Whether two texts are the same.
fn same_bytes(one: &[u8], other: &[u8]) -> bool
    ensures { IsTrue result ↔ (one.now ≡ other.now) }
{
    one == other
}
