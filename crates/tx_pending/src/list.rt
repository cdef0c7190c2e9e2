//! A list of tokens that is being read.
ghost use Rattle.std.specs.Prelude.{◌≡◌, ◌≢◌, ◌↔◌, ◌<◌, ◌-◌, [], drop, false, length, slice_get, take, Some, IsTrue, IfOk, IfSome};
ghost use Rattle.std.specs.Option.{option_copied};
ghost use Rattle.tx_pending.specs.Elements.{Given as Element_given, list_elements};
ghost use Rattle.tx_char.specs.declared.tokens.Token.TheVariants.{Character};
ghost use Rattle.tx_pending.specs.Steps.{BeginsList, IsListStep, IsPlainly};

use crate::next::Next;
use std::alloc::AllocError;
use std::marker::Model;
use tx_char::{Cat, Codes, Token};
use tx_lex::PlainToken;
use tx_toklist::TokList;

/// A shared list, of which a part is read, and how far that has come. Contracts see the tokens that are left, and whether a
/// marker comes behind them.
#[derive(Drop)]
pub struct ListReading {
    list: TokList,
    read: usize,
    end: usize,
    marked: bool,
}

impl Model for ListReading {
    ghost use Rattle.std.specs.Prelude.{drop, length, take, ◌≤◌, ◌-◌};
    ghost use Rattle.tx_pending.specs.Tails.{ListTail};

    ghost Value = { ListTail };

    ghost view = { λ l. record { left = take (l.end - l.read) (drop l.read l.list); marked = l.marked } };

    ghost invariant = { λ l. (l.read ≤ l.end) × (l.end ≤ length l.list) };
}

impl ListReading {
    /// A list of which nothing is read.
    pub fn new(list: TokList, marked: bool) -> ListReading
        ensures { result ≡ record { left = list; marked = marked } }
    {
        let end = list.len();
        ListReading {
            list,
            read: 0,
            end,
            marked,
        }
    }

    /// The tokens of a list from a place up to another, counted from 0, as far as there are any.
    pub fn part(list: TokList, from: usize, to: usize) -> ListReading
        ensures { result ≡ record { left = take (to - from) (drop from list); marked = false } }
    {
        let end = to.min(list.len());
        ListReading {
            list,
            read: from.min(end),
            end,
            marked: false,
        }
    }

    /// The next token, and the marker where none is left. Its only error is that no more owners can be counted.
    #[inline(always)]
    pub fn next(&mut self) -> Result<Next, AllocError>
        requires { list_elements self.old.left self.old.marked ≢ [] }
        ensures { IfOk result (λ next. IsListStep self.old next self.new) }
    {
        if self.read >= self.end {
            self.marked = false;
            return Ok(Next::Marker);
        }
        let token = self.list.as_slice()[self.read].clone()?;
        self.read += 1;
        Ok(Next::Token(token))
    }

    /// The first token that is left, where a line would give it as it stands; it isn't taken.
    #[inline(always)]
    pub fn first_plain(&self, codes: &Codes) -> Option<PlainToken>
        ensures { IfSome result (BeginsList codes.now self.now.left) }
    {
        match self.get(0) {
            Some(token) => plain_of(token, codes),
            None => None,
        }
    }

    /// Passes the first token that is left, if one is.
    #[inline(always)]
    pub fn pass(&mut self)
        ensures { self.new ≡ record { left = drop 1 self.old.left; marked = self.old.marked } }
    {
        if self.read < self.end {
            self.read += 1;
        }
    }

    /// Whether neither a token nor a marker is left.
    pub fn is_spent(&self) -> bool
        ensures { IsTrue result ↔ (list_elements self.now.left self.now.marked ≡ []) }
    {
        !self.marked && self.read >= self.end
    }

    /// How many elements are left: the tokens, and the marker.
    pub fn count(&self) -> usize
        ensures { result ≡ length (list_elements self.now.left self.now.marked) }
    {
        let left = self.list.as_slice()[self.read..self.end].len();
        if self.marked { left + 1 } else { left }
    }

    /// The token at this place of those that are left, lent.
    fn get(&self, place: usize) -> Option<&Token>
        ensures { option_copied result ≡ slice_get self.now.left place }
    {
        self.list.as_slice()[self.read..self.end].get(place)
    }

    /// Whether the elements at these places are the same token, or are both markers.
    pub fn same_at(&self, place: usize, other: &ListReading, other_place: usize) -> bool
        requires here { place < length (list_elements self.now.left self.now.marked) }
        requires there { other_place < length (list_elements other.now.left other.now.marked) }
        ensures { IsTrue result ↔ (slice_get (list_elements self.now.left self.now.marked) place ≡ slice_get (list_elements other.now.left other.now.marked) other_place) }
    {
        match (self.get(place), other.get(other_place)) {
            (Some(token), Some(other_token)) => token.same(other_token),
            (None, None) => true,
            _ => false,
        }
    }

    /// Whether the element at this place is this token.
    pub fn has_token(&self, place: usize, token: &Token) -> bool
        requires { place < length (list_elements self.now.left self.now.marked) }
        ensures { IsTrue result ↔ (slice_get (list_elements self.now.left self.now.marked) place ≡ Some (Element_given token.now)) }
    {
        match self.get(place) {
            Some(found) => found.same(token),
            None => false,
        }
    }

    /// Another reading of the same list, which copies no token. Its only error is that no more owners can be counted.
    pub fn share(&self) -> Result<ListReading, AllocError>
        ensures { IfOk result (λ shared. shared ≡ self.now) }
    {
        Ok(ListReading {
            list: self.list.share()?,
            read: self.read,
            end: self.end,
            marked: self.marked,
        })
    }
}

/// What a character token is in a line, where this would give it as it stands.
#[inline(always)]
fn plain_character(code: u8, category: Cat, codes: &Codes) -> Option<PlainToken>
    ensures { IfSome result (IsPlainly codes.now (Character code category)) }
{
    match category {
        Cat::Letter | Cat::Other => {
            if codes.get(code) != category {
                return None;
            }
            Some(PlainToken::Set(code))
        }
        Cat::Space => {
            if code != b' ' {
                return None;
            }
            Some(PlainToken::Blank)
        }
        _ => None,
    }
}

/// The same of any token.
#[inline(always)]
fn plain_of(token: &Token, codes: &Codes) -> Option<PlainToken>
    ensures { IfSome result (IsPlainly codes.now token.now) }
{
    match token {
        Token::Character(code, category) => plain_character(*code, *category, codes),
        Token::Name(_) | Token::FrozenRelax | Token::FontIdentifier(_) => None,
    }
}
