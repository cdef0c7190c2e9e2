//! Parameter texts of macros.
ghost use Rattle.std.specs.Prelude.{◌≡◌, ◌↔◌, ◌<◌, [], IsTrue, IfOk, OnOk, OnErr, length};
ghost use Rattle.tx_toklist.specs.Macros.{no_parameters, with_parameter, with_token};

use crate::toks::{Lists, Toks};
use std::alloc::{AllocError, Global};
use std::marker::Model;
use tx_char::Token;

/// The parameter text of a macro. Contracts see the tokens before the first parameter and, for each parameter, the
/// tokens behind it, which delimit its argument. Where a text ended with `#{`, its last token is that begin-group token.
#[derive(Drop)]
pub struct ParameterText {
    before: Toks,
    delimiters: Lists,
}

impl Model for ParameterText {
    ghost use Rattle.tx_toklist.specs.Macros.{Parameters};

    ghost Value = { Parameters };

    ghost view = { λ p. record { before = p.before; delimiters = p.delimiters } };
}

impl ParameterText {
    /// A text without anything; takes no memory.
    pub fn new(alloc: Global) -> ParameterText
        ensures { result ≡ no_parameters }
    {
        ParameterText {
            before: Toks::new(alloc),
            delimiters: Lists::new(alloc),
        }
    }

    /// Puts a parameter at the end: #1, then #2, and so on. After want of memory nothing has changed.
    pub fn push_parameter(&mut self, alloc: Global) -> Result<(), AllocError>
        ensures ok { OnOk result (self.new ≡ with_parameter self.old) }
        ensures err { OnErr result (self.new ≡ self.old) }
    {
        self.delimiters.push(Toks::new(alloc))
    }

    /// Puts a token at the end. After want of memory nothing has changed.
    pub fn push_token(&mut self, token: Token) -> Result<(), AllocError>
        ensures ok { OnOk result (self.new ≡ with_token self.old token) }
        ensures err { OnErr result (self.new ≡ self.old) }
    {
        match self.delimiters.len() {
            0 => self.before.push(token),
            _ => self.delimiters.push_to_last(token),
        }
    }

    /// The tokens before the first parameter, lent.
    pub fn before(&self) -> &[Token]
        ensures { result.now ≡ self.now.before }
    {
        self.before.as_slice()
    }

    /// For each parameter the tokens behind it, lent.
    pub fn delimiters(&self) -> &[Toks]
        ensures { result.now ≡ self.now.delimiters }
    {
        self.delimiters.as_slice()
    }

    /// How many parameters there are.
    pub fn parameters(&self) -> usize
        ensures { result ≡ length self.now.delimiters }
    {
        self.delimiters.len()
    }

    /// Whether there is neither a token nor a parameter.
    pub fn is_empty(&self) -> bool
        ensures { IsTrue result ↔ (self.now ≡ no_parameters) }
    {
        self.before.is_empty() && self.delimiters.is_empty()
    }

    /// Whether both have the same tokens and parameters in the same order.
    pub fn same(&self, other: &ParameterText) -> bool
        ensures { IsTrue result ↔ (self.now ≡ other.now) }
    {
        self.before.same(&other.before) && self.delimiters.same(&other.delimiters)
    }

    /// The same text once more. Its only error is want of memory.
    pub fn share(&self) -> Result<ParameterText, AllocError>
        ensures { IfOk result (λ shared. shared ≡ self.now) }
    {
        Ok(ParameterText {
            before: self.before.share()?,
            delimiters: self.delimiters.share()?,
        })
    }
}
