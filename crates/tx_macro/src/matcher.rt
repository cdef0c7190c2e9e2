//! The matcher.
ghost use Rattle.std.specs.Prelude.{◌≡◌, ◌≢◌, ◌↔◌, [], true, IfOk, IsTrue, OnErr};
ghost use Rattle.tx_toklist.specs.Macros.{no_parameters};
ghost use Rattle.tx_macro.specs.Matchers.{answer, more_taken, HasJoined};

use crate::advance::{advance, first, join_within};
use crate::stage::{Advance, Awaited, Gathered};
use std::alloc::{AllocError, Global};
use std::marker::Model;
use std::mem;
use tx_char::Token;
use tx_seen::{Fed, TexError, Want};
use tx_toklist::{Item, Lists, Macro};

/// The use of a macro, of which some tokens are taken. Contracts see the macro, these tokens, and whether it goes on: at
/// first and after `More`. After any other answer and after want of memory it may only be dropped.
#[derive(Drop)]
pub struct Matcher {
    made: Macro,
    gathered: Gathered,
    awaited: Awaited,
}

impl Model for Matcher {
    ghost use Rattle.std.specs.Prelude.{◌≡◌, true};
    ghost use Rattle.tx_macro.specs.Matchers.{Matching, goes_on, HasGathered};

    ghost Value = { Matching };

    ghost view = { λ m. record { definition = m.made; taken = m.gathered.taken; goes_on = goes_on m.awaited } };

    ghost invariant = { λ m. goes_on m.awaited ≡ true → HasGathered m.made m.gathered m.awaited };
}

impl Matcher {
    /// A use of this macro, whose parameter text isn't empty; nothing is taken. Its only error is want of memory.
    pub fn new(alloc: Global, made: &Macro) -> Result<Matcher, AllocError>
        requires { made.now.parameters ≢ no_parameters }
        ensures { IfOk result (λ matcher. matcher ≡ record { definition = made.now; taken = []; goes_on = true }) }
    {
        let mut gathered = Gathered::new(alloc);
        let awaited = first(alloc, made, &mut gathered)?;
        Ok(Matcher {
            made: made.share()?,
            gathered,
            awaited,
        })
    }

    /// Takes the next token. The answer is what the use comes to with it: `UseDiffers` where it doesn't match the parameter
    /// text, `ParagraphInArgument` where \par is in an argument of a macro that isn't \long, `GroupEndInArgument` where an
    /// argument has an end-group token without its begin; and `IncompleteText` at an \outer macro and at the end of a file.
    /// Its only further error is want of memory.
    pub fn feed(&mut self, alloc: Global, item: Item) -> Result<Fed<Lists>, AllocError>
        requires { self.old.goes_on ≡ true }
        ensures answer { IfOk result (λ fed. fed ≡ answer self.old item) }
        ensures next { IfOk result (λ fed. fed ≡ Fed.More Want.Raw → self.new ≡ more_taken self.old item) }
    {
        let Item::Token(token) = item else {
            return Ok(Fed::Wrong(TexError::IncompleteText));
        };
        let awaited = mem::replace(&mut self.awaited, Awaited::Over);
        match advance(alloc, &self.made, &mut self.gathered, awaited, token)? {
            Advance::On(awaited) => {
                self.awaited = awaited;
                Ok(Fed::More(Want::Raw))
            }
            Advance::Fits(arguments) => Ok(Fed::Done(arguments, 0)),
            Advance::Fails(error) => Ok(Fed::Wrong(error)),
        }
    }

    /// Takes the next token, if the argument that is being taken goes on with it, and answers whether it does; else nothing
    /// changes, and the token is one for `feed`. Its only error is want of memory, after which nothing has changed either.
    #[inline(always)]
    pub fn join(&mut self, token: &Token) -> Result<bool, AllocError>
        requires { self.old.goes_on ≡ true }
        ensures joined { IfOk result (λ joined. HasJoined self.old token.now joined self.new) }
        ensures err { OnErr result (self.new ≡ self.old) }
    {
        let Awaited::Argument(kind) = self.awaited else {
            return Ok(false);
        };
        match join_within(&self.made, &mut self.gathered, kind, token)? {
            Some(next) => {
                self.awaited = Awaited::Argument(next);
                Ok(true)
            }
            None => Ok(false),
        }
    }

    /// Whether it takes more.
    pub fn goes_on(&self) -> bool
        ensures { result ≡ self.now.goes_on }
    {
        !matches!(self.awaited, Awaited::Over)
    }

    /// Whether both are uses of the same macro with the same tokens, and both go on or don't.
    pub fn same(&self, other: &Matcher) -> bool
        ensures { IsTrue result ↔ (self.now ≡ other.now) }
    {
        self.goes_on() == other.goes_on()
            && self.gathered.taken.same(&other.gathered.taken)
            && self.made.same(&other.made)
    }

    /// The same use once more. Its only error is want of memory.
    pub fn share(&self) -> Result<Matcher, AllocError>
        ensures { IfOk result (λ shared. shared ≡ self.now) }
    {
        Ok(Matcher {
            made: self.made.share()?,
            gathered: self.gathered.clone()?,
            awaited: self.awaited,
        })
    }
}

/// A clone has taken the same. Its only error is want of memory.
impl Clone for Matcher {
    ghost is_clone = { λ source copy. copy ≡ source };

    fn clone(&self) -> Result<Self, AllocError> {
        self.share()
    }
}
