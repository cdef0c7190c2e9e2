//! Keywords, token by token (TeX: The Program, section 407).
ghost use Rattle.std.specs.Prelude.{◌≡◌, ◌↔◌, ◌<◌, ◌≤◌, ◌+◌, length, ◌^◌, ◌∷◌, ◌++◌, [], ℕ, List, drop, IfSome, IsTrue, MatchOption};
ghost use Rattle.tx_seen.specs.declared.item.Item.{Item};
ghost use Rattle.tx_seen.specs.declared.item.Item.TheVariants.{Took};
ghost use Rattle.tx_seen.specs.Readings.{Answers};
ghost use Rattle.tx_scan.specs.Rests.{IsFedBy};
ghost use Rattle.tx_scan.specs.Supplied.{NeedsNothing};
ghost use Rattle.tx_scan.specs.Keywords.{keyword, begun_word, skips, HasTaken, IsGone, IsReadOn, IsSpelled};
ghost use Rattle.tx_scan.specs.Keywords as words;

use crate::scans::KeyScan;
use tx_seen::{Fed, Seen, TexError, Want};

impl KeyScan {
    /// The scan of a word of which nothing is read.
    pub fn new() -> KeyScan
        ensures scan { result ≡ begun_word }
        ensures taken { (word : List ℕ) → HasTaken word result [] }
    {
        KeyScan { read: 0 }
    }

    /// Whether a letter of the word is read.
    pub fn is_begun(&self) -> bool
        ensures { IsTrue result ↔ (0 < self.now.read) }
    {
        self.read > 0
    }

    /// Takes one token of this word of small letters, the same each time, at first and after More; a word needs no value. The
    /// answer is what reading gives of all that was taken.
    pub fn feed(&mut self, word: &[u8], token: &Seen) -> Fed<bool>
        ensures answer { (taken : List Item) → HasTaken word.now self.old taken → Answers (keyword word.now) (HasTaken word.now) (taken ++ Took token.now ∷ []) self.new result }
        ensures part { IsFedBy (words.rest word.now) words.held self.old token.now self.new result }
        ensures nothing { NeedsNothing result }
        ensures reading { self.old.read < length word.now → IsReadOn word.now self.new result }
        ensures gone { IsGone word.now self.old token.now self.new result }
        ensures spelled { IsSpelled word.now self.old token.now self.new result }
    {
        self.behind(word, token)
    }

    /// What it is behind one more token.
    fn behind(&mut self, word: &[u8], token: &Seen) -> Fed<bool>
        ensures part { IsFedBy (words.rest word.now) words.held self.old token.now self.new result }
        ensures nothing { NeedsNothing result }
        ensures reading { self.old.read < length word.now → IsReadOn word.now self.new result }
        ensures gone { IsGone word.now self.old token.now self.new result }
        ensures spelled { IsSpelled word.now self.old token.now self.new result }
    {
        if self.skips(word, token) {
            return Fed::More(Want::Expanded);
        }
        let Some(letter) = self.expected(word) else {
            return Fed::Done(true, 1);
        };
        if token.is_undefined() {
            return Fed::Wrong(TexError::Undefined);
        }
        if !token.is_key(letter) {
            return Fed::Done(false, self.read + 1);
        }
        self.read += 1;
        match self.expected(word) {
            Some(_) => Fed::More(Want::Expanded),
            None => Fed::Done(true, 0),
        }
    }

    /// The letter that comes next, if the word isn't over.
    fn expected(&self, word: &[u8]) -> Option<u8>
        ensures letter { MatchOption result (drop self.now.read word.now ≡ []) (λ c. drop self.now.read word.now ≡ c ∷ drop (self.now.read + 1) word.now) }
        ensures within { IfSome result (λ c. self.now.read + 1 < 2 ^ 64) }
        ensures left { MatchOption result (length word.now ≤ self.now.read) (λ c. self.now.read < length word.now) }
    {
        if self.read < word.len() {
            Some(word[self.read])
        } else {
            None
        }
    }

    /// Whether the token is a space before the word.
    fn skips(&self, word: &[u8], token: &Seen) -> bool
        ensures { result ≡ skips word.now self.now.read token.now }
    {
        self.read == 0 && token.is_space() && !begins_with(word, token)
    }
}

/// Whether the word begins with this token.
fn begins_with(word: &[u8], token: &Seen) -> bool
    ensures { result ≡ words.begins_with word.now token.now }
{
    match word {
        [] => true,
        [letter, ..] => token.is_key(*letter),
    }
}
