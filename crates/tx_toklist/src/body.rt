//! Bodies of macros.
ghost use Rattle.std.specs.Prelude.{◌≡◌, ◌↔◌, [], IsTrue, IfOk, OnOk, OnErr, length};
ghost use Rattle.tx_toklist.specs.Bodies.{ArePlaced, no_body, with_argument, with_body_token, with_body_tokens};

use crate::toks::Toks;
use std::alloc::{AllocError, Global};
use std::marker::Model;
use tx_char::Token;
use tx_list::{Items, Kept};

/// Where the argument of a parameter stands in a body.
#[derive(Clone, Copy)]
pub struct Slot {
    /// So many of the body's tokens stand before it.
    pub before: usize,
    /// The parameter's number, counted from 1.
    pub number: u8,
}

impl Kept for Slot {
    fn share(&self) -> Result<Self, AllocError> {
        Ok(*self)
    }

    fn same(&self, other: &Self) -> bool {
        self.before == other.before && self.number == other.number
    }
}

/// The places of arguments in a body, in their order. Contracts see the list of them.
pub type Slots = Items<Slot>;

/// The body of a macro that is being made. Contracts see its tokens and, in their order, the places of arguments among
/// them; so a use can read the tokens between two of them where they are.
#[derive(Drop)]
pub struct Body {
    tokens: Toks,
    slots: Slots,
}

impl Model for Body {
    ghost use Rattle.std.specs.Prelude.{length};
    ghost use Rattle.tx_toklist.specs.Bodies.{ArePlaced, BodyText};

    ghost Value = { BodyText };

    ghost view = { λ b. record { tokens = b.tokens; slots = b.slots } };

    ghost invariant = { λ b. ArePlaced 0 (length b.tokens) b.slots };
}

impl Body {
    /// A body without anything; takes no memory.
    pub fn new(alloc: Global) -> Body
        ensures { result ≡ no_body }
    {
        Body {
            tokens: Toks::new(alloc),
            slots: Slots::new(alloc),
        }
    }

    /// Puts a token at the end. After want of memory nothing has changed.
    pub fn push_token(&mut self, token: Token) -> Result<(), AllocError>
        ensures ok { OnOk result (self.new ≡ with_body_token self.old token) }
        ensures err { OnErr result (self.new ≡ self.old) }
    {
        self.tokens.push(token)
    }

    /// Puts the argument of the parameter of this number at the end. After want of memory nothing has changed.
    pub fn push_argument(&mut self, number: u8) -> Result<(), AllocError>
        ensures ok { OnOk result (self.new ≡ with_argument self.old number) }
        ensures err { OnErr result (self.new ≡ self.old) }
    {
        let before = self.tokens.len();
        self.slots.push(Slot { before, number })
    }

    /// Moves tokens to the end. After want of memory nothing has changed.
    pub fn append(&mut self, tokens: &mut Toks) -> Result<(), AllocError>
        ensures ok { OnOk result ((self.new ≡ with_body_tokens self.old tokens.old) × (tokens.new ≡ [])) }
        ensures err { OnErr result ((self.new ≡ self.old) × (tokens.new ≡ tokens.old)) }
    {
        self.tokens.append(tokens)
    }

    /// Whether both have the same tokens with the same places among them.
    pub fn same(&self, other: &Body) -> bool
        ensures { IsTrue result ↔ (self.now ≡ other.now) }
    {
        self.slots.same(&other.slots) && self.tokens.same(&other.tokens)
    }

    /// The same body once more. Its only error is want of memory.
    pub fn share(&self) -> Result<Body, AllocError>
        ensures { IfOk result (λ shared. shared ≡ self.now) }
    {
        Ok(Body {
            tokens: self.tokens.share()?,
            slots: self.slots.share()?,
        })
    }

    /// Its tokens and the places among them.
    pub(crate) fn into_parts(self) -> (Toks, Slots)
        ensures tokens { result.0 ≡ self.tokens }
        ensures slots { result.1 ≡ self.slots }
        ensures placed { ArePlaced 0 (length result.0) result.1 }
    {
        let Body { tokens, slots } = self;
        (tokens, slots)
    }
}
