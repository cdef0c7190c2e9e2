//! The sources of pending input (TeX: The Program, sections 301 to 307 and 323 to 325).
ghost use Rattle.std.specs.Prelude.{◌≡◌, ◌≢◌, ◌↔◌, ◌<◌, [], None, Some, length, slice_get, IsTrue, IfOk, IfSome};
ghost use Rattle.tx_pending.specs.Elements.{Given as Element_given, Held as Element_held, PartEnd as Element_part, Unread, begins_entry, list_elements};
ghost use Rattle.tx_pending.specs.Plain.{passed};
ghost use Rattle.tx_pending.specs.Sources.{elements_of};
ghost use Rattle.tx_pending.specs.Steps.{BeginsPlain, Gives};

use crate::line::LineReading;
use crate::list::ListReading;
use crate::next::{ColumnPart, Next};
use std::alloc::{AllocError, Global};
use tx_char::{Codes, Token};
use tx_lex::{KnownNames, PlainToken, ReadState};

/// What is being read.
#[derive(Drop)]
pub enum Source {
    List(ListReading),
    Line(LineReading),
    /// A token that was given back, until it is read again.
    Token(Option<Token>),
    /// A token that \noexpand holds, until it is read again.
    Held(Option<Token>),
    /// The end of a part of an alignment's column, which is read at once.
    PartEnd(Option<ColumnPart>),
}

impl Source {
    /// Whether nothing is left of it, not even a marker; a line is left until it is found to be used up.
    pub fn is_spent(&self) -> bool
        ensures { IsTrue result ↔ (elements_of self.now ≡ []) }
    {
        match self {
            Source::List(list) => list.is_spent(),
            Source::Line(_) => false,
            Source::Token(token) | Source::Held(token) => token.is_none(),
            Source::PartEnd(part) => part.is_none(),
        }
    }

    /// Reads its first element, if it is not spent; a line that is used up tells whether \endinput came, as it is told. Its only
    /// error is want of memory.
    #[inline(always)]
    pub fn next<K: KnownNames>(
        &mut self,
        alloc: Global,
        codes: &Codes,
        known: &K,
        closing: bool,
    ) -> Result<Next, AllocError>
        requires { elements_of self.old ≢ [] }
        ensures { IfOk result (λ next. Gives codes.now closing (elements_of self.old) next (elements_of self.new)) }
    {
        match self {
            Source::List(list) => list.next(),
            Source::Line(line) => line.next(alloc, codes, known, closing),
            Source::Token(token) => Ok(Next::Token(spend(token))),
            Source::Held(token) => Ok(Next::Held(spend(token))),
            Source::PartEnd(part) => Ok(Next::PartEnd(spend(part))),
        }
    }

    /// The token with which it goes on, where it is a line and the token one character as it stands, or a list and the token one
    /// that a line would give so.
    #[inline(always)]
    pub fn first_plain(&self, codes: &Codes) -> Option<PlainToken>
        ensures { IfSome result (BeginsPlain codes.now (elements_of self.now)) }
    {
        match self {
            Source::Line(line) => line.first_plain(codes),
            Source::List(list) => list.first_plain(codes),
            Source::Token(_) | Source::Held(_) | Source::PartEnd(_) => None,
        }
    }

    /// Passes the first character, if it is a line, which goes on in this state, or the first token.
    #[inline(always)]
    pub fn pass_first(&mut self, state: ReadState)
        ensures { elements_of self.new ≡ passed state (elements_of self.old) }
    {
        match self {
            Source::Line(line) => line.pass_first(state),
            Source::List(list) => list.pass(),
            Source::Token(token) => *token = None,
            Source::Held(_) => {}
            Source::PartEnd(_) => {}
        }
    }

    /// How many elements it stands for.
    pub fn count(&self) -> usize
        ensures { result ≡ length (elements_of self.now) }
    {
        match self {
            Source::List(list) => list.count(),
            Source::Line(_) => 1,
            Source::Token(Some(_)) | Source::Held(Some(_)) => 1,
            Source::Token(None) | Source::Held(None) => 0,
            Source::PartEnd(Some(_)) => 1,
            Source::PartEnd(None) => 0,
        }
    }

    /// Whether the elements at these places are the same.
    pub fn same_at(&self, place: usize, other: &Source, other_place: usize) -> bool
        requires here { place < length (elements_of self.now) }
        requires there { other_place < length (elements_of other.now) }
        ensures { IsTrue result ↔ (slice_get (elements_of self.now) place ≡ slice_get (elements_of other.now) other_place) }
    {
        match self {
            Source::List(list) => other.same_in(other_place, list, place),
            Source::Line(line) => other.has_line(other_place, line),
            Source::Token(Some(token)) => other.has_token(other_place, token),
            Source::Held(Some(token)) => other.has_held(other_place, token),
            Source::PartEnd(Some(part)) => other.has_part_end(other_place, *part),
            Source::Token(None) | Source::Held(None) | Source::PartEnd(None) => false,
        }
    }

    /// Whether the element at this place is that of a list at a place of its own.
    fn same_in(&self, place: usize, list: &ListReading, list_place: usize) -> bool
        requires here { place < length (elements_of self.now) }
        requires there { list_place < length (list_elements list.now.left list.now.marked) }
        ensures { IsTrue result ↔ (slice_get (list_elements list.now.left list.now.marked) list_place ≡ slice_get (elements_of self.now) place) }
    {
        match self {
            Source::List(own) => list.same_at(list_place, own, place),
            Source::Token(Some(token)) => list.has_token(list_place, token),
            Source::Line(..) => false,
            Source::Held(_) => false,
            Source::PartEnd(_) => false,
            Source::Token(None) => false,
        }
    }

    /// Whether the element at this place is this line.
    fn has_line(&self, place: usize, line: &LineReading) -> bool
        requires { place < length (elements_of self.now) }
        ensures { IsTrue result ↔ (Some (Unread line.now.unread line.now.state) ≡ slice_get (elements_of self.now) place) }
    {
        match self {
            Source::Line(own) => line.same(own),
            Source::List(_) => false,
            Source::Token(_) | Source::Held(_) | Source::PartEnd(_) => false,
        }
    }

    /// Whether the element at this place is this token, not held.
    fn has_token(&self, place: usize, token: &Token) -> bool
        requires { place < length (elements_of self.now) }
        ensures { IsTrue result ↔ (Some (Element_given token.now) ≡ slice_get (elements_of self.now) place) }
    {
        match self {
            Source::List(list) => list.has_token(place, token),
            Source::Token(Some(own)) => token.same(own),
            Source::Line(_) | Source::Token(None) => false,
            Source::Held(_) | Source::PartEnd(_) => false,
        }
    }

    /// Whether the element at this place is this token, held.
    fn has_held(&self, place: usize, token: &Token) -> bool
        requires { place < length (elements_of self.now) }
        ensures { IsTrue result ↔ (Some (Element_held token.now) ≡ slice_get (elements_of self.now) place) }
    {
        match self {
            Source::Held(Some(own)) => token.same(own),
            Source::List(_) => false,
            Source::Line(_) | Source::Token(_) => false,
            Source::Held(None) | Source::PartEnd(_) => false,
        }
    }

    /// Whether the element at this place is the end of this part of a column.
    fn has_part_end(&self, place: usize, part: ColumnPart) -> bool
        requires { place < length (elements_of self.now) }
        ensures { IsTrue result ↔ (Some (Element_part part) ≡ slice_get (elements_of self.now) place) }
    {
        match self {
            Source::PartEnd(Some(own)) => *own == part,
            Source::List(_) => false,
            Source::Line(_) | Source::Token(_) => false,
            Source::Held(_) | Source::PartEnd(None) => false,
        }
    }

    /// Whether it is the end of a u-part.
    #[inline(always)]
    pub fn begins_entry(&self) -> bool
        ensures { result ≡ begins_entry (elements_of self.now) }
    {
        match self {
            Source::PartEnd(Some(part)) => matches!(part, ColumnPart::U),
            Source::List(_) => false,
            Source::Line(_) | Source::Token(_) => false,
            Source::Held(_) | Source::PartEnd(None) => false,
        }
    }

    /// Another reading of the same list or line, which copies nothing of it. Its only error is that no more owners can be
    /// counted.
    pub fn share(&self) -> Result<Source, AllocError>
        ensures { IfOk result (λ shared. elements_of shared ≡ elements_of self.now) }
    {
        match self {
            Source::List(list) => Ok(Source::List(list.share()?)),
            Source::Line(line) => Ok(Source::Line(line.share()?)),
            Source::Token(token) => Ok(Source::Token(token.clone()?)),
            Source::Held(token) => Ok(Source::Held(token.clone()?)),
            Source::PartEnd(part) => Ok(Source::PartEnd(*part)),
        }
    }
}

/// Takes what is read only once.
#[inline(always)]
fn spend<T: Drop>(once: &mut Option<T>) -> T
    requires { once.old ≢ None }
    ensures given { IfSome once.old (λ value. result ≡ value) }
    ensures spent { once.new ≡ None }
{
    match once.take() {
        Some(value) => value,
        None => unreachable!(),
    }
}
