//! The use of a macro that takes arguments.
ghost use Rattle.std.specs.Prelude.{◌≡◌, ◌≢◌, ◌↔◌, [], IfOk, IsTrue};
ghost use Rattle.tx_toklist.specs.Macros.{no_parameters};
ghost use Rattle.tx_expand.specs.Steps.{HasJoined, IsUsed};

use crate::step::Step;
use std::alloc::{AllocError, Global};
use std::marker::Model;
use tx_char::Token;
use tx_list::Items;
use tx_macro::Matcher;
use tx_seen::Fed;
use tx_toklist::{Item, Lists, Macro, TokList};

/// The use of a macro, which goes on. Contracts see the macro, and the tokens that are taken.
#[derive(Drop)]
pub struct Using {
    made: Macro,
    matcher: Box<Matcher>,
}

impl Model for Using {
    ghost use Rattle.std.specs.Prelude.{◌≡◌, true};
    ghost use Rattle.tx_expand.specs.Uses.{Use};

    ghost Value = { Use };

    ghost view = { λ u. record { definition = u.made; taken = u.matcher.value.taken } };

    ghost invariant = { λ u. (u.matcher.value.definition ≡ u.made) × (u.matcher.value.goes_on ≡ true) };
}

impl Using {
    /// A use of this macro, whose parameter text isn't empty; nothing is taken. Its only error is want of memory.
    pub(crate) fn new(alloc: Global, made: Macro) -> Result<Using, AllocError>
        requires { made.parameters ≢ no_parameters }
        ensures { IfOk result (λ u. u ≡ record { definition = made; taken = [] }) }
    {
        let matcher = Box::new(alloc, Matcher::new(alloc, &made)?)?;
        Ok(Using { made, matcher })
    }

    /// Takes the next token where it stands, if an argument goes on with it, and answers whether it does; else nothing changes. Its
    /// only error is want of memory.
    #[inline(always)]
    pub(crate) fn join(&mut self, token: &Token) -> Result<bool, AllocError>
        ensures { IfOk result (λ joined. HasJoined self.old token.now joined self.new) }
    {
        self.matcher.join(token)
    }

    /// Takes the next token. Its only error is want of memory.
    pub(crate) fn feed(self, alloc: Global, token: Token) -> Result<Step, AllocError>
        ensures { IfOk result (IsUsed self token) }
    {
        let Using { made, matcher } = self;
        let mut matcher = matcher;
        match matcher.feed(alloc, Item::Token(token))? {
            Fed::More(_) => Ok(Step::On(Using { made, matcher })),
            Fed::Need(_) => unreachable!(),
            Fed::Done(arguments, _) => Ok(Step::Fits(made, to_share(alloc, arguments)?)),
            Fed::Wrong(error) => Ok(Step::Wrong(error)),
        }
    }

    /// Whether both are uses of the same macro with the same tokens.
    pub(crate) fn same(&self, other: &Using) -> bool
        ensures { IsTrue result ↔ (self.now ≡ other.now) }
    {
        self.made.same(&other.made) && self.matcher.as_ref().same(other.matcher.as_ref())
    }

    /// The same use once more. Its only error is want of memory.
    pub(crate) fn share(&self) -> Result<Using, AllocError>
        ensures { IfOk result (λ shared. shared ≡ self.now) }
    {
        Ok(Using {
            made: self.made.share()?,
            matcher: self.matcher.clone()?,
        })
    }
}

/// The same lists, each of which can be shared. Its only error is want of memory.
fn to_share(alloc: Global, lists: Lists) -> Result<Items<TokList>, AllocError>
    ensures { IfOk result (λ all. all ≡ lists) }
{
    let mut all = Items::new(alloc);
    for list in lists.into_vec() {
        all.push(TokList::from_toks(alloc, list)?)?;
    }
    Ok(all)
}
