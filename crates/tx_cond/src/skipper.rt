//! The skipping of text that no branch takes (TeX: The Program, section 494).
ghost use Rattle.std.specs.Prelude.{◌≡◌, ◌↔◌, ◌-◌, ◌^◌, IfOk, IsTrue, OnErr};
ghost use Rattle.tx_cond.specs.Skipping.{passing, item_of, IsPassed};

use crate::types::SkipItem;
use std::alloc::AllocError;
use std::marker::Model;
use tx_prim::{CondWord, Expandable};
use tx_seen::{Fed, Meaning, TexError, Want};

impl SkipItem {
    /// What a token that means this is to text that is skipped.
    pub fn of(meaning: &Meaning) -> SkipItem
        ensures { result ≡ item_of meaning.now }
    {
        match meaning {
            Meaning::Expandable(Expandable::Test(_)) => SkipItem::If,
            Meaning::Expandable(Expandable::Word(word)) => SkipItem::Word(*word),
            Meaning::Macro(found) if found.is_outer() => SkipItem::Outer,
            _ => SkipItem::Other,
        }
    }
}

/// Text that is being skipped, token by token, to the first \else, \or or \fi that belongs to no conditional within it.
/// Contracts see the number of conditionals within it that are open.
#[derive(Drop)]
pub struct Skipper {
    open: u64,
}

impl Model for Skipper {
    ghost use Rattle.std.specs.Prelude.{ℕ};

    ghost Value = { ℕ };

    ghost view = { λ s. s.open };
}

impl Skipper {
    /// Nothing is skipped.
    pub fn new() -> Skipper
        ensures { result ≡ 0 }
    {
        Skipper { open: 0 }
    }

    /// Whether as many conditionals are open in both.
    pub fn same(&self, other: &Skipper) -> bool
        ensures { IsTrue result ↔ (self.now ≡ other.now) }
    {
        self.open == other.open
    }

    /// The same once more.
    pub fn share(&self) -> Skipper
        ensures { result ≡ self.now }
    {
        Skipper { open: self.open }
    }

    /// Skips one more item, at first and after More. Its only error is that no more open conditionals can be counted;
    /// nothing has changed then.
    pub fn feed(&mut self, item: SkipItem) -> Result<Fed<CondWord>, AllocError>
        ensures passed { IfOk result (λ fed. IsPassed (passing self.old item) fed self.new) }
        ensures full { OnErr result ((self.new ≡ self.old) × (self.old ≡ 2 ^ 64 - 1)) }
    {
        match item {
            SkipItem::If => match self.open.checked_add(1) {
                Some(open) => {
                    self.open = open;
                    Ok(Fed::More(Want::Raw))
                }
                None => Err(AllocError),
            },
            SkipItem::Word(word) => Ok(self.feed_word(word)),
            SkipItem::Other => Ok(Fed::More(Want::Raw)),
            SkipItem::Outer | SkipItem::EndOfFile => Ok(Fed::Wrong(
                TexError::IncompleteConditional,
            )),
        }
    }

    /// Skips a word, or ends at it.
    fn feed_word(&mut self, word: CondWord) -> Fed<CondWord>
        ensures { IsPassed (passing self.old (SkipItem.Word word)) result self.new }
    {
        if self.open == 0 {
            return Fed::Done(word, 0);
        }
        match word {
            CondWord::Fi => {
                self.open -= 1;
                Fed::More(Want::Raw)
            }
            CondWord::Else => Fed::More(Want::Raw),
            CondWord::Or => Fed::More(Want::Raw),
        }
    }
}
