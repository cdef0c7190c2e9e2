//! Spellings by their letters, and the levels that they give to the places of a text.

ghost use Rattle.std.specs.Prelude.{◌≡◌, ◌↔◌, ◌<◌, ◌≤◌, [], ◌∷◌, ◌++◌, None, length, slice_index, EachIndex, IsTrue, is_some, IfSome, IfOk, OnOk, OnErr};
ghost use Rattle.std.specs.Option.{option_copied};
ghost use Rattle.tx_hyphen.specs.Along.{level_along, level_kept};
ghost use Rattle.tx_hyphen.specs.Levels.{IsRaised, level_here, level_in};
ghost use Rattle.tx_hyphen.specs.Lexicon.{place_of, put, with_letters};
ghost use Rattle.tx_hyphen.specs.Trie.{node};

use crate::spelling::Spelling;
use crate::trie::Trie;
use std::alloc::{AllocError, Global};
use std::marker::Model;
use tx_bytes::Bytes;

/// A list of spellings, no two of which have the same letters, and a tree that keeps the place of each in the list.
#[derive(Drop)]
pub struct Lexicon {
    spellings: Vec<Spelling>,
    trie: Trie,
}

impl Model for Lexicon {
    ghost use Rattle.std.specs.Prelude.{List};
    ghost use Rattle.tx_hyphen.specs.declared.spelling.Spelling.{Spelling};

    ghost Value = { List Spelling };

    ghost use Rattle.tx_hyphen.specs.Along.{IsIndexed};

    ghost view = { λ l. l.spellings.items };

    ghost invariant = { λ l. IsIndexed l.trie l.spellings.items };
}

impl Lexicon {
    /// The empty lexicon. Its only error is want of memory.
    pub fn new(alloc: Global) -> Result<Lexicon, AllocError>
        ensures { IfOk result (λ l. l ≡ []) }
    {
        Ok(Lexicon {
            spellings: Vec::new(alloc),
            trie: Trie::new(alloc)?,
        })
    }

    /// Which of the spellings has these letters.
    fn place(&self, letters: &[u8]) -> Option<usize>
        ensures place { result ≡ place_of self.now letters.now }
        ensures inside { IfSome result (λ place. place < length self.now) }
    {
        // A look at the fields brings up what holds of them: that the tree keeps the places of this list.
        let _spellings = &self.spellings;
        self.trie.find(letters)
    }

    /// Whether a spelling has these letters.
    pub fn contains(&self, letters: &[u8]) -> bool
        ensures { result ≡ is_some (place_of self.now letters.now) }
    {
        self.place(letters).is_some()
    }

    /// The spelling with these letters.
    pub fn find(&self, letters: &[u8]) -> Option<&Spelling>
        ensures { option_copied result ≡ with_letters self.now letters.now }
    {
        match self.place(letters) {
            None => None,
            Some(place) => self.spellings.get(place),
        }
    }

    /// Puts a spelling in the place of the one with its letters, or behind all others. After want of memory nothing
    /// has changed.
    pub fn put(&mut self, spelling: Spelling) -> Result<(), AllocError>
        ensures ok { OnOk result (self.new ≡ put self.old spelling) }
        ensures err { OnErr result (self.new ≡ self.old) }
    {
        match self.place(spelling.letters.as_slice()) {
            None => self.append(spelling)?,
            Some(place) => self.spellings[place] = spelling,
        }
        Ok(())
    }

    /// Puts a spelling with new letters behind all others. After want of memory nothing has changed.
    fn append(&mut self, spelling: Spelling) -> Result<(), AllocError>
        requires { place_of self.old spelling.letters ≡ None }
        ensures ok { OnOk result (self.new ≡ self.old ++ spelling ∷ []) }
        ensures err { OnErr result (self.new ≡ self.old) }
    {
        // Room first, so that nothing fails once the tree keeps the place.
        self.spellings.reserve(1)?;
        let place = self.spellings.len();
        self.trie.keep(spelling.letters.as_slice(), place)?;
        self.spellings.push(spelling)?;
        Ok(())
    }

    /// Whether both hold the same spellings in the same order.
    pub fn same(&self, other: &Lexicon) -> bool
        ensures { IsTrue result ↔ (self.now ≡ other.now) }
    {
        all_same(self.spellings.as_slice(), other.spellings.as_slice())
    }

    /// The level of each place of a text, up to its last character. Its only error is want of memory.
    pub fn levels(&self, alloc: Global, text: &[u8]) -> Result<Bytes, AllocError>
        ensures { IfOk result (λ levels. (length levels ≡ length text.now) × EachIndex levels (λ k. slice_index levels k ≡ level_in self.now text.now k)) }
    {
        let mut levels = vec![in alloc; 0u8; text.len()]?;
        self.raise_all(text, levels.as_mut_slice());
        Ok(Bytes::from_vec(levels))
    }

    /// Raises each level to the greatest that the patterns which stand anywhere in the text give to its place.
    fn raise_all(&self, text: &[u8], levels: &mut [u8])
        requires { length text.now ≤ length levels.old }
        ensures { IsRaised levels.old levels.new (level_in self.now text.now) }
    {
        for offset in 0..text.len() {
            self.raise_here(&text[offset..], &mut levels[offset..]);
        }
    }

    /// Raises each level to the greatest that the patterns which stand at the beginning of the text give to its place.
    fn raise_here(&self, text: &[u8], levels: &mut [u8])
        ensures { IsRaised levels.old levels.new (level_here self.now text.now) }
    {
        raise_along(&self.trie, self.spellings.as_slice(), text, levels);
    }
}

/// A clone holds the same spellings. Its only error is want of memory.
impl Clone for Lexicon {
    ghost is_clone = { λ source copy. copy ≡ source };

    fn clone(&self) -> Result<Self, AllocError> {
        Ok(Lexicon {
            spellings: self.spellings.clone()?,
            trie: self.trie.clone()?,
        })
    }
}

/// Whether both lists hold the same spellings in the same order.
fn all_same(some: &[Spelling], others: &[Spelling]) -> bool
    ensures { IsTrue result ↔ (some.now ≡ others.now) }
{
    if some.len() != others.len() {
        return false;
    }
    for k in 0..some.len() {
        if !some[k].same(&others[k]) {
            return false;
        }
    }
    true
}

/// Raises each level to the greatest that the spellings met along a text give to its place.
fn raise_along(trie: &Trie, spellings: &[Spelling], text: &[u8], levels: &mut [u8])
    ensures { IsRaised levels.old levels.new (level_along trie.now spellings.now 0 text.now) }
{
    let mut at = trie.root();
    for letter in text {
        raise_at(trie, spellings, at, levels);
        match trie.child(at, *letter) {
            None => return,
            Some(next) => at = next,
        }
    }
    raise_at(trie, spellings, at, levels);
}

/// Raises each level to the one that the spelling at a node gives to its place.
fn raise_at(trie: &Trie, spellings: &[Spelling], at: usize, levels: &mut [u8])
    requires { at < length trie.now }
    ensures { IsRaised levels.old levels.new (level_kept spellings.now (node trie.now at).place) }
{
    if let Some(place) = trie.place(at) {
        if let Some(spelling) = spellings.get(place) {
            raise(levels, spelling.levels.as_slice());
        }
    }
}

/// Raises each level to the one given for its place, if one is.
fn raise(levels: &mut [u8], given: &[u8])
    ensures { IsRaised levels.old levels.new (slice_index given.now) }
{
    for (place, level) in given.iter().enumerate() {
        if place < levels.len() && levels[place] < *level {
            levels[place] = *level;
        }
    }
}
