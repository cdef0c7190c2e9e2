//! A balanced text.
ghost use Rattle.std.specs.Prelude.{◌≡◌, ◌↔◌, IfOk, IsTrue, OnOk};
ghost use Rattle.tx_text.specs.Absorbed as spec;
ghost use Rattle.tx_text.specs.Absorbed.{HasJoined, IsAbsorbed, begun_text, no_text};

use crate::stages::TextStage;
use std::alloc::{AllocError, Global};
use std::marker::Model;
use tx_char::Token;
use tx_seen::{Fed, Seen, TexError, Want};
use tx_toklist::{Toks, begins_group, ends_group};

/// A text in braces that is being taken, with what may stand before it. Contracts see its tokens, and how far it is. After
/// an error it may only be dropped.
#[derive(Drop)]
pub struct TextScan {
    expanded: bool,
    tokens: Toks,
    stage: TextStage,
}

impl Model for TextScan {
    ghost use Rattle.tx_text.specs.Absorbed.{Absorbing};

    ghost Value = { Absorbing };

    ghost view = { λ t. record { expanded = t.expanded; tokens = t.tokens; stage = t.stage } };
}

impl TextScan {
    /// A text of which nothing is taken, and which is expanded or not; takes no memory.
    pub fn new(alloc: Global, expanded: bool) -> TextScan
        ensures { result ≡ no_text expanded }
    {
        TextScan {
            expanded,
            tokens: Toks::new(alloc),
            stage: TextStage::Filler,
        }
    }

    /// A text that isn't expanded, behind its begin-group token; takes no memory.
    pub fn begun(alloc: Global) -> TextScan
        ensures { result ≡ begun_text }
    {
        TextScan {
            expanded: false,
            tokens: Toks::new(alloc),
            stage: TextStage::Inside(0),
        }
    }

    /// Takes one more token, at first and after More: `MissingBeginGroup` where neither a space, nor \relax, nor a
    /// begin-group token stands before the text, and `Undefined` where what stands there has no meaning. Its only further
    /// error is want of memory.
    pub fn feed(&mut self, seen: Seen) -> Result<Fed<()>, AllocError>
        ensures { IfOk result (λ fed. IsAbsorbed (spec.absorbs self.old seen self.old.stage) fed self.new) }
    {
        match self.stage {
            TextStage::Filler => Ok(self.feed_filler(&seen)),
            TextStage::Inside(groups) => {
                let Seen { token, meaning: _ } = seen;
                self.feed_inside(groups, token)?;
                Ok(self.answer())
            }
            TextStage::Ended => Ok(Fed::Done((), 0)),
        }
    }

    /// The answer where nothing is wrong.
    fn answer(&self) -> Fed<()>
        ensures { result ≡ spec.text_answer self.now self.now.stage }
    {
        match self.stage {
            TextStage::Ended => Fed::Done((), 0),
            _ => Fed::More(self.want()),
        }
    }

    /// How the next token is wanted.
    pub fn want(&self) -> Want
        ensures { result ≡ spec.text_wanted self.now self.now.stage }
    {
        match self.stage {
            TextStage::Filler => Want::Expanded,
            _ => if self.expanded {
                Want::Expanded
            } else {
                Want::Raw
            },
        }
    }

    /// Whether the tokens that \the gives are put in by `put`, where it comes next.
    pub fn takes_the(&self) -> bool
        ensures { result ≡ spec.text_takes_the self.now self.now.stage }
    {
        match self.stage {
            TextStage::Inside(_) => self.expanded,
            _ => false,
        }
    }

    /// Takes what stands before the text.
    fn feed_filler(&mut self, seen: &Seen) -> Fed<()>
        requires { self.old.stage ≡ TextStage.Filler }
        ensures { IsAbsorbed (spec.filler_takes self.old seen.now) result self.new }
    {
        if seen.is_undefined() {
            return Fed::Wrong(TexError::Undefined);
        }
        if seen.is_space() || seen.is_relax() {
            return Fed::More(Want::Expanded);
        }
        if !seen.begins_group() {
            return Fed::Wrong(TexError::MissingBeginGroup);
        }
        self.stage = TextStage::Inside(0);
        self.answer()
    }

    /// Takes a token of the text, in which so many groups are open. Its only error is want of memory.
    fn feed_inside(&mut self, groups: u64, token: Token) -> Result<(), AllocError>
        ensures { OnOk result (self.new ≡ spec.inside_takes self.old groups token) }
    {
        if begins_group(&token) {
            let Some(groups) = groups.checked_add(1) else {
                return Err(AllocError);
            };
            self.stage = TextStage::Inside(groups);
        } else if ends_group(&token) {
            if groups == 0 {
                self.stage = TextStage::Ended;
                return Ok(());
            }
            self.stage = TextStage::Inside(groups - 1);
        } else {
            self.stage = TextStage::Inside(groups);
        }
        self.tokens.push(token)
    }

    /// A token that is no brace joins the text, if that has begun and hasn't ended; answers whether it did. Else nothing changes.
    /// Its only error is want of memory.
    #[inline(always)]
    pub fn join(&mut self, token: Token) -> Result<bool, AllocError>
        ensures { IfOk result (λ joined. HasJoined self.old token joined self.new) }
    {
        match self.stage {
            TextStage::Inside(_) => {
                self.tokens.push(token)?;
                Ok(true)
            }
            TextStage::Filler | TextStage::Ended => Ok(false),
        }
    }

    /// Puts tokens in that \the gives, none of which is looked at. Its only error is want of memory.
    pub fn put(&mut self, tokens: &mut Toks) -> Result<(), AllocError>
        ensures { OnOk result (self.new ≡ spec.with_given self.old tokens.old) }
    {
        self.tokens.append(tokens)
    }

    /// The text's tokens.
    pub fn into_tokens(self) -> Toks
        ensures { result ≡ self.tokens }
    {
        let TextScan {
            expanded: _,
            tokens,
            stage: _,
        } = self;
        tokens
    }

    /// Whether both have the same tokens, are as far, and are both expanded or not.
    pub fn same(&self, other: &TextScan) -> bool
        ensures { IsTrue result ↔ (self.now ≡ other.now) }
    {
        self.expanded == other.expanded
            && self.stage == other.stage
            && self.tokens.same(&other.tokens)
    }

    /// The same text once more. Its only error is want of memory.
    pub fn share(&self) -> Result<TextScan, AllocError>
        ensures { IfOk result (λ shared. shared ≡ self.now) }
    {
        Ok(TextScan {
            expanded: self.expanded,
            tokens: self.tokens.share()?,
            stage: self.stage,
        })
    }
}
