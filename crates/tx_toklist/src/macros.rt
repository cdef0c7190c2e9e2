//! Macros.
ghost use Rattle.std.specs.Prelude.{◌≡◌, ◌↔◌, IsTrue, IfOk, length};
ghost use Rattle.tx_toklist.specs.Bodies.{ArePlaced};
ghost use Rattle.tx_toklist.specs.Macros.{IsMacro};

use crate::body::{Body, Slot, Slots};
use crate::parameters::ParameterText;
use crate::tok_list::TokList;
use crate::toks::Toks;
use std::alloc::{AllocError, Global};
use std::marker::Model;
use std::rc::Rc;
use tx_bytes::Bytes;
use tx_char::Token;
use tx_list::Kept;

/// A macro that any number of owners hold at the cost of one. Contracts see its parameter text, the characters that stood
/// for # in it, its body, and whether it is \long and \outer. It has at most nine parameters, its parameter text has no group
/// in it, and its body names only parameters that it has.
#[derive(Drop)]
pub struct Macro {
    made: Rc<Made>,
}

/// What a macro is made of, which `Macro` shares.
#[derive(Drop)]
struct Made {
    parameters: ParameterText,
    signs: Bytes,
    tokens: TokList,
    slots: Slots,
    long: bool,
    outer: bool,
}

impl Model for Macro {
    ghost use Rattle.std.specs.Prelude.{length};
    ghost use Rattle.tx_toklist.specs.Bodies.{ArePlaced};
    ghost use Rattle.tx_toklist.specs.Macros.{Definition, IsMacro};

    ghost Value = { Definition };

    ghost view = { λ m. record { parameters = m.made.value.parameters; signs = m.made.value.signs; body = record { tokens = m.made.value.tokens; slots = m.made.value.slots }; long = m.made.value.long; outer = m.made.value.outer } };

    ghost invariant = { λ m. IsMacro m.made.value.parameters m.made.value.signs (record { tokens = m.made.value.tokens; slots = m.made.value.slots }) × ArePlaced 0 (length m.made.value.tokens) m.made.value.slots };
}

impl Macro {
    /// The macro with this parameter text, for each parameter of which this character stood for #, and this body, none of whose
    /// tokens is copied. Its only error is want of memory.
    pub fn new(
        alloc: Global,
        parameters: ParameterText,
        signs: Bytes,
        body: Body,
        long: bool,
        outer: bool,
    ) -> Result<Macro, AllocError>
        requires { IsMacro parameters signs body }
        ensures { IfOk result (λ m. m ≡ record { parameters = parameters; signs = signs; body = body; long = long; outer = outer }) }
    {
        let (tokens, slots) = body.into_parts();
        let tokens = TokList::from_toks(alloc, tokens)?;
        Ok(Macro {
            made: Rc::new(
                alloc,
                Made {
                    parameters,
                    signs,
                    tokens,
                    slots,
                    long,
                    outer,
                },
            )?,
        })
    }

    /// The tokens before its first parameter, lent.
    pub fn before(&self) -> &[Token]
        ensures lent { result.now ≡ self.now.parameters.before }
        ensures kept { IsMacro self.now.parameters self.now.signs self.now.body }
    {
        self.made.parameters.before()
    }

    /// For each parameter the tokens behind it, which delimit its argument, lent.
    pub fn delimiters(&self) -> &[Toks]
        ensures lent { result.now ≡ self.now.parameters.delimiters }
        ensures kept { IsMacro self.now.parameters self.now.signs self.now.body }
    {
        self.made.parameters.delimiters()
    }

    /// For each parameter the character that stood for #, lent.
    pub fn signs(&self) -> &[u8]
        ensures lent { result.now ≡ self.now.signs }
        ensures kept { IsMacro self.now.parameters self.now.signs self.now.body }
    {
        self.made.signs.as_slice()
    }

    /// The tokens of its body, lent.
    pub fn tokens(&self) -> &TokList
        ensures { result.now ≡ self.now.body.tokens }
    {
        &self.made.tokens
    }

    /// The places of arguments among the tokens of its body, lent.
    pub fn slots(&self) -> &[Slot]
        ensures lent { result.now ≡ self.now.body.slots }
        ensures placed { ArePlaced 0 (length self.now.body.tokens) self.now.body.slots }
        ensures kept { IsMacro self.now.parameters self.now.signs self.now.body }
    {
        self.made.slots.as_slice()
    }

    /// Whether its arguments may have \par in them.
    pub fn is_long(&self) -> bool
        ensures { result ≡ self.now.long }
    {
        self.made.long
    }

    /// Whether it may not stand where tokens are taken fast.
    pub fn is_outer(&self) -> bool
        ensures { result ≡ self.now.outer }
    {
        self.made.outer
    }

    /// One more owner of the same macro, which copies nothing. Its only error is that no more owners can be counted.
    pub fn share(&self) -> Result<Macro, AllocError>
        ensures { IfOk result (λ shared. shared ≡ self.now) }
    {
        Ok(Macro {
            made: self.made.clone()?,
        })
    }

    /// Whether both have the same parameter text with the same signs and the same body, and are both \long or not, and
    /// \outer or not.
    pub fn same(&self, other: &Macro) -> bool
        ensures { IsTrue result ↔ (self.now ≡ other.now) }
    {
        self.made.long == other.made.long
            && self.made.outer == other.made.outer
            && self.made.parameters.same(&other.made.parameters)
            && self.made.signs.same(&other.made.signs)
            && self.made.slots.same(&other.made.slots)
            && self.made.tokens.same(&other.made.tokens)
    }
}

/// A clone shares the macro.
impl Clone for Macro {
    ghost is_clone = { λ source copy. copy ≡ source };

    fn clone(&self) -> Result<Self, AllocError> {
        self.share()
    }
}

impl Kept for Macro {
    fn share(&self) -> Result<Self, AllocError> {
        Macro::share(self)
    }

    fn same(&self, other: &Self) -> bool {
        Macro::same(self, other)
    }
}
