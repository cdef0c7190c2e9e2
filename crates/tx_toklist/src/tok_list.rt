//! Lists of tokens that many share.
ghost use Rattle.std.specs.Prelude.{◌≡◌, ◌↔◌, [], length, slice_get, IsTrue, IfOk};
ghost use Rattle.std.specs.Option.{option_copied};

use crate::toks::Toks;
use std::alloc::{AllocError, Global};
use std::marker::Model;
use std::rc::Rc;
use tx_char::Token;
use tx_list::{Kept, same_items};

/// A list of tokens that any number of owners hold at the cost of one. Contracts see the list of the tokens.
#[derive(Drop)]
pub struct TokList {
    tokens: Rc<Toks>,
}

impl Model for TokList {
    ghost use Rattle.std.specs.Prelude.{List};
    ghost use Rattle.tx_char.specs.declared.tokens.Token.{Token};

    ghost Value = { List Token };

    ghost view = { λ t. t.tokens.value };
}

impl TokList {
    /// A list of these tokens, none of which is copied. Its only error is want of memory.
    pub fn from_toks(alloc: Global, tokens: Toks) -> Result<TokList, AllocError>
        ensures { IfOk result (λ list. list ≡ tokens) }
    {
        Ok(TokList {
            tokens: Rc::new(alloc, tokens)?,
        })
    }

    /// The tokens, lent.
    pub fn as_slice(&self) -> &[Token]
        ensures { result.now ≡ self.now }
    {
        self.tokens.as_ref().as_slice()
    }

    /// How many there are.
    pub fn len(&self) -> usize
        ensures { result ≡ length self.now }
    {
        self.as_slice().len()
    }

    /// Whether there is none.
    pub fn is_empty(&self) -> bool
        ensures { IsTrue result ↔ (self.now ≡ []) }
    {
        self.as_slice().is_empty()
    }

    /// The token at this place, counted from 0, lent.
    pub fn get(&self, place: usize) -> Option<&Token>
        ensures { option_copied result ≡ slice_get self.now place }
    {
        self.as_slice().get(place)
    }

    /// One more owner of the same list, which copies no token. Its only error is that no more owners can be counted.
    pub fn share(&self) -> Result<TokList, AllocError>
        ensures { IfOk result (λ shared. shared ≡ self.now) }
    {
        Ok(TokList {
            tokens: self.tokens.clone()?,
        })
    }

    /// Whether both have the same tokens.
    pub fn same(&self, other: &TokList) -> bool
        ensures { IsTrue result ↔ (self.now ≡ other.now) }
    {
        same_items(self.as_slice(), other.as_slice())
    }
}

/// A clone shares the list.
impl Clone for TokList {
    ghost is_clone = { λ source copy. copy ≡ source };

    fn clone(&self) -> Result<Self, AllocError> {
        self.share()
    }
}

impl Kept for TokList {
    fn share(&self) -> Result<Self, AllocError> {
        TokList::share(self)
    }

    fn same(&self, other: &Self) -> bool {
        TokList::same(self, other)
    }
}
