//! Names of control sequences that are spelled out, token by token (TeX: The Program, section 372).
ghost use Rattle.std.specs.Prelude.{◌≡◌, ◌∷◌, ◌++◌, [], List, IfOk};
ghost use Rattle.tx_seen.specs.declared.item.Item.{Item};
ghost use Rattle.tx_seen.specs.declared.item.Item.TheVariants.{Took};
ghost use Rattle.tx_seen.specs.Readings.{Answers};
ghost use Rattle.tx_scan.specs.ControlNames.{control_name, begun_name, HasTaken, IsFed};
ghost use Rattle.tx_scan.specs.ControlNames as names;
ghost use Rattle.tx_scan.specs.GrammarRests.{held_none};
ghost use Rattle.tx_scan.specs.Rests.{IsFedBy};
ghost use Rattle.tx_scan.specs.Supplied.{NeedsNothing};

use crate::spellings::ControlNameScan;
use std::alloc::{AllocError, Global};
use tx_char::{Cat, ControlName, Token};
use tx_list::Items;
use tx_prim::Primitive;
use tx_seen::{Fed, Meaning, Seen, TexError, Want};

/// Whether a token means \endcsname.
fn ends_name(token: &Seen) -> bool
    ensures { result ≡ names.ends_name token.now }
{
    matches!(token.meaning, Meaning::Command(Primitive::EndCsName))
}

/// The character of a name that a token is.
fn letter_of(token: &Token) -> Option<u8>
    ensures { result ≡ names.letter_of token.now }
{
    match token {
        Token::Character(_, Cat::Active) => None,
        Token::Character(code, _) => Some(*code),
        Token::Name(_) | Token::FrozenRelax | Token::FontIdentifier(_) => None,
    }
}

impl ControlNameScan {
    /// The scan of a name of which nothing is read. It takes no memory.
    pub fn new(alloc: Global) -> ControlNameScan
        ensures scan { result ≡ begun_name }
        ensures taken { HasTaken result [] }
    {
        ControlNameScan {
            letters: Items::new(alloc),
        }
    }

    /// Forgets what was read, in the memory that it has.
    pub fn restart(&mut self)
        ensures scan { self.new ≡ begun_name }
        ensures taken { HasTaken self.new [] }
    {
        self.letters.clear();
    }

    /// Takes one token, at first and after More; it needs no value. The answer is what reading gives of all that was taken:
    /// the name, or that a token is no character and doesn't mean \endcsname either. Its only error is want of memory.
    pub fn feed(&mut self, alloc: Global, token: &Seen) -> Result<Fed<ControlName>, AllocError>
        ensures answer { (taken : List Item) → HasTaken self.old taken → IfOk result (Answers control_name HasTaken (taken ++ Took token.now ∷ []) self.new) }
        ensures part { IfOk result (IsFedBy names.rest held_none self.old token.now self.new) }
        ensures fed { IfOk result (IsFed self.old token.now self.new) }
        ensures nothing { IfOk result NeedsNothing }
    {
        self.behind(alloc, token)
    }

    /// What it is behind one more token. Its only error is want of memory.
    fn behind(&mut self, alloc: Global, token: &Seen) -> Result<Fed<ControlName>, AllocError>
        ensures fed { IfOk result (IsFed self.old token.now self.new) }
        ensures nothing { IfOk result NeedsNothing }
    {
        if token.is_undefined() {
            return Ok(Fed::Wrong(TexError::Undefined));
        }
        if ends_name(token) {
            return Ok(Fed::Done(ControlName::from_slice(alloc, self.letters.as_slice())?, 0));
        }
        let Some(code) = letter_of(&token.token) else {
            return Ok(Fed::Wrong(TexError::BadName));
        };
        self.letters.push(code)?;
        Ok(Fed::More(Want::Expanded))
    }
}

/// A clone has read the same. Its only error is want of memory.
impl Clone for ControlNameScan {
    ghost is_clone = { λ source copy. copy ≡ source };

    fn clone(&self) -> Result<Self, AllocError> {
        Ok(ControlNameScan {
            letters: self.letters.share()?,
        })
    }
}
