//! A definition.
ghost use Rattle.std.specs.Prelude.{◌≡◌, ◌↔◌, ◌<◌, false, length, IfOk, IsTrue, OnOk};
ghost use Rattle.tx_toklist.specs.Macros.{IsMacro};
ghost use Rattle.tx_text.specs.Definitions as spec;
ghost use Rattle.tx_text.specs.Definitions.{HasJoined, IsTaken, in_body, no_definition, with_sign};

use crate::signs::sign_of;
use crate::stages::Stage;
use std::alloc::{AllocError, Global};
use std::marker::Model;
use tx_bytes::Bytes;
use tx_char::Token;
use tx_seen::{Fed, Seen, TexError, Want};
use tx_toklist::{Body, Macro, ParameterText, Toks, begins_group, ends_group};

/// What \def and its kin read behind the name, of which some is read. Contracts see the parameter text and the body that it
/// has, and how far it is. After an error it may only be dropped.
#[derive(Drop)]
pub struct DefinitionScan {
    expanded: bool,
    parameters: ParameterText,
    signs: Bytes,
    body: Body,
    /// The begin-group token of `#{`.
    closing: Option<Token>,
    stage: Stage,
}

impl Model for DefinitionScan {
    ghost use Rattle.tx_text.specs.Definitions.{Defining, IsSound};

    ghost Value = { Defining };

    ghost view = { λ d. record { expanded = d.expanded; parameters = d.parameters; signs = d.signs; body = d.body; closing = d.closing; stage = d.stage } };

    ghost invariant = { λ d. IsSound d.parameters d.signs d.body d.stage };
}

impl DefinitionScan {
    /// A definition of which nothing is read, whose body is expanded or not; takes no memory.
    pub fn new(alloc: Global, expanded: bool) -> DefinitionScan
        ensures { result ≡ no_definition expanded }
    {
        DefinitionScan {
            expanded,
            parameters: ParameterText::new(alloc),
            signs: Bytes::new(alloc),
            body: Body::new(alloc),
            closing: None,
            stage: Stage::Heading,
        }
    }

    /// Takes one more token, at first and after More: `MissingBeginGroup` at an end-group token in the parameter text,
    /// `BadParameter` where parameters aren't #1, #2, .. in order up to #9, or # stands in the body before anything but # or
    /// the number of a parameter. Its only further error is want of memory.
    pub fn feed(&mut self, alloc: Global, seen: Seen) -> Result<Fed<()>, AllocError>
        ensures { IfOk result (λ fed. IsTaken (spec.takes self.old seen self.old.stage) fed self.new) }
    {
        match self.stage {
            Stage::Heading => self.feed_heading(seen),
            Stage::Numbering(code) => self.feed_numbering(alloc, code, seen),
            Stage::Body(groups) => self.feed_body(groups, seen),
            Stage::Naming(groups) => self.feed_naming(groups, seen),
            Stage::Whole => Ok(Fed::Done((), 0)),
        }
    }

    /// The answer where nothing is wrong.
    fn answer(&self) -> Fed<()>
        ensures { result ≡ spec.answer self.now self.now.stage }
    {
        match self.stage {
            Stage::Whole => Fed::Done((), 0),
            _ => Fed::More(self.want()),
        }
    }

    /// How the next token is wanted.
    pub fn want(&self) -> Want
        ensures { result ≡ spec.wanted self.now self.now.stage }
    {
        match self.stage {
            Stage::Body(_) | Stage::Naming(_) if self.expanded => Want::Expanded,
            _ => Want::Raw,
        }
    }

    /// Whether the tokens that \the gives are put in by `put`, where it comes next.
    pub fn takes_the(&self) -> bool
        ensures { result ≡ spec.takes_the self.now self.now.stage }
    {
        match self.stage {
            Stage::Body(_) => self.expanded,
            _ => false,
        }
    }

    /// Takes a token of the parameter text. Its only further error is want of memory.
    fn feed_heading(&mut self, seen: Seen) -> Result<Fed<()>, AllocError>
        requires { self.old.stage ≡ Stage.Heading }
        ensures { IfOk result (λ fed. IsTaken (spec.takes self.old seen self.old.stage) fed self.new) }
    {
        if ends_group(&seen.token) {
            return Ok(Fed::Wrong(TexError::MissingBeginGroup));
        }
        if begins_group(&seen.token) {
            self.stage = Stage::Body(0);
            return Ok(self.answer());
        }
        match sign_of(&seen.meaning) {
            Some(code) => self.stage = Stage::Numbering(code),
            None => self.parameters.push_token(seen.token)?,
        }
        Ok(self.answer())
    }

    /// Takes what stands behind a parameter character of this code in the parameter text. Its only further error is want of
    /// memory.
    fn feed_numbering(&mut self, alloc: Global, code: u8, seen: Seen) -> Result<Fed<()>, AllocError>
        requires { self.old.stage ≡ Stage.Numbering code }
        ensures { IfOk result (λ fed. IsTaken (spec.takes self.old seen self.old.stage) fed self.new) }
    {
        if begins_group(&seen.token) {
            self.closing = Some(seen.token.clone()?);
            self.parameters.push_token(seen.token)?;
            self.stage = Stage::Body(0);
            return Ok(self.answer());
        }
        match seen.digit() {
            Some(number) if usize::from(number) == self.parameters.parameters() + 1 => {
                self.push_parameter(alloc, code)?;
                Ok(self.answer())
            }
            _ => Ok(Fed::Wrong(TexError::BadParameter)),
        }
    }

    /// Puts a parameter at the end, whose # is this character. Its only error is want of memory.
    fn push_parameter(&mut self, alloc: Global, code: u8) -> Result<(), AllocError>
        requires few { length self.old.parameters.delimiters < 9 }
        requires heading { self.old.stage ≡ Stage.Numbering code }
        ensures { OnOk result (self.new ≡ with_sign self.old code) }
    {
        let mut signs = Bytes::from_slice(alloc, self.signs.as_slice())?;
        signs.push(code)?;
        self.parameters.push_parameter(alloc)?;
        self.signs = signs;
        self.stage = Stage::Heading;
        Ok(())
    }

    /// Takes a token of the body, in which so many groups are open. Its only error is want of memory.
    fn feed_body(&mut self, groups: u64, seen: Seen) -> Result<Fed<()>, AllocError>
        requires { self.old.stage ≡ Stage.Body groups }
        ensures { IfOk result (λ fed. IsTaken (spec.takes self.old seen self.old.stage) fed self.new) }
    {
        if begins_group(&seen.token) {
            let Some(more) = groups.checked_add(1) else {
                return Err(AllocError);
            };
            return self.push(seen.token, Stage::Body(more));
        }
        if ends_group(&seen.token) {
            if groups == 0 {
                return self.end();
            }
            return self.push(seen.token, Stage::Body(groups - 1));
        }
        if sign_of(&seen.meaning).is_some() {
            self.stage = Stage::Naming(groups);
            return Ok(self.answer());
        }
        self.push(seen.token, Stage::Body(groups))
    }

    /// Puts a token at the end of the body. Its only error is want of memory.
    fn push(&mut self, token: Token, stage: Stage) -> Result<Fed<()>, AllocError>
        requires { spec.is_heading stage ≡ false }
        ensures { IfOk result (λ fed. (fed ≡ spec.answer self.new stage) × (self.new ≡ in_body self.old token stage)) }
    {
        self.body.push_token(token)?;
        self.stage = stage;
        Ok(self.answer())
    }

    /// The body has ended. Its only error is want of memory.
    fn end(&mut self) -> Result<Fed<()>, AllocError>
        ensures { IfOk result (λ fed. (fed ≡ Fed.Done tt 0) × (self.new ≡ spec.ended self.old self.old.closing)) }
    {
        if let Some(token) = &self.closing {
            let token = token.clone()?;
            self.body.push_token(token)?;
        }
        self.stage = Stage::Whole;
        Ok(Fed::Done((), 0))
    }

    /// Takes what stands behind a parameter character in the body. Its only further error is want of memory.
    fn feed_naming(&mut self, groups: u64, seen: Seen) -> Result<Fed<()>, AllocError>
        requires { self.old.stage ≡ Stage.Naming groups }
        ensures { IfOk result (λ fed. IsTaken (spec.takes self.old seen self.old.stage) fed self.new) }
    {
        if sign_of(&seen.meaning).is_some() {
            return self.push(seen.token, Stage::Body(groups));
        }
        match seen.digit() {
            Some(number) if 1 <= number && usize::from(number) <= self.parameters.parameters() => {
                self.body.push_argument(number)?;
                self.stage = Stage::Body(groups);
                Ok(self.answer())
            }
            _ => Ok(Fed::Wrong(TexError::BadParameter)),
        }
    }

    /// A token that is no brace, and stands for no #, joins the body, if that is read and no # stands before; answers whether it
    /// did. Else nothing changes. Its only error is want of memory.
    #[inline(always)]
    pub fn join(&mut self, token: Token) -> Result<bool, AllocError>
        ensures { IfOk result (λ joined. HasJoined self.old token joined self.new) }
    {
        match self.stage {
            Stage::Body(_) => {
                self.body.push_token(token)?;
                Ok(true)
            }
            Stage::Heading | Stage::Numbering(_) => Ok(false),
            Stage::Naming(_) | Stage::Whole => Ok(false),
        }
    }

    /// Puts tokens into the body that \the gives, none of which is looked at. Its only error is want of memory.
    pub fn put(&mut self, tokens: &mut Toks) -> Result<(), AllocError>
        ensures { OnOk result (self.new ≡ spec.puts self.old tokens.old) }
    {
        self.body.append(tokens)
    }

    /// The macro of what was read, which is \long and \outer or not. Its only error is want of memory.
    pub fn into_macro(self, alloc: Global, long: bool, outer: bool) -> Result<Macro, AllocError>
        ensures { IfOk result (λ made. made ≡ record { parameters = self.parameters; signs = self.signs; body = self.body; long = long; outer = outer }) }
    {
        let DefinitionScan {
            expanded: _,
            parameters,
            signs,
            body,
            closing: _,
            stage: _,
        } = self;
        Macro::new(alloc, parameters, signs, body, long, outer)
    }

    /// Whether both have read the same, and both are expanded or not.
    pub fn same(&self, other: &DefinitionScan) -> bool
        ensures { IsTrue result ↔ (self.now ≡ other.now) }
    {
        self.expanded == other.expanded
            && self.stage == other.stage
            && self.signs.same(&other.signs)
            && same_closing(&self.closing, &other.closing)
            && self.parameters.same(&other.parameters)
            && self.body.same(&other.body)
    }

    /// The same definition once more. Its only error is want of memory.
    pub fn share(&self) -> Result<DefinitionScan, AllocError>
        ensures { IfOk result (λ shared. shared ≡ self.now) }
    {
        Ok(DefinitionScan {
            expanded: self.expanded,
            parameters: self.parameters.share()?,
            signs: self.signs.clone()?,
            body: self.body.share()?,
            closing: self.closing.clone()?,
            stage: self.stage,
        })
    }
}

/// Whether both are the same token, or none.
fn same_closing(one: &Option<Token>, other: &Option<Token>) -> bool
    ensures { IsTrue result ↔ (one.now ≡ other.now) }
{
    match (one, other) {
        (Some(token), Some(other_token)) => token.same(other_token),
        (None, None) => true,
        _ => false,
    }
}
