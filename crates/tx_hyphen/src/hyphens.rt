//! The patterns and exceptions of a run, and the places that they give.

ghost use Rattle.std.specs.Prelude.{◌≡◌, ◌↔◌, ◌≢◌, ◌<◌, ◌≤◌, ◌+◌, ◌-◌, ◌%◌, ◌==◌, [], ◌∷◌, ◌++◌, length, filter, slice_index, take, IsTrue, IfOk, IfErr, OnOk, OnErr, Ok, Err};
ghost use Rattle.std.specs.List.{range_with_len};
ghost use Rattle.tx_hyphen.specs.Levels.{level_in};
ghost use Rattle.tx_hyphen.specs.Lexicon.{put};
ghost use Rattle.tx_hyphen.specs.Points.{edged, held, points};
ghost use Rattle.tx_hyphen.specs.Rules.{Rules, with_exception, with_pattern};
ghost use Rattle.tx_hyphen.specs.Spelling.{spelled};

use crate::error::{ExceptionError, PatternError};
use crate::lexicon::Lexicon;
use crate::places::Places;
use crate::reading::read;
use crate::spelling::{Kind, MOST_LETTERS, Spelling};
use std::alloc::{AllocError, Global};
use std::marker::Model;
use std::rc::Rc;
use tx_bytes::Bytes;

/// What \patterns and \hyphenation have said.
#[derive(Drop)]
pub struct Hyphens {
    patterns: Rc<Lexicon>,
    exceptions: Rc<Lexicon>,
}

impl Model for Hyphens {
    ghost use Rattle.tx_hyphen.specs.Rules.{Rules};

    ghost Value = { Rules };

    ghost view = { λ h. record { patterns = h.patterns.value; exceptions = h.exceptions.value } };
}

impl Hyphens {
    /// No pattern and no exception. Its only error is want of memory.
    pub fn new(alloc: Global) -> Result<Hyphens, AllocError>
        ensures { IfOk result (λ h. h ≡ record { patterns = []; exceptions = [] }) }
    {
        Ok(Hyphens {
            patterns: Rc::new(alloc, Lexicon::new(alloc)?)?,
            exceptions: Rc::new(alloc, Lexicon::new(alloc)?)?,
        })
    }

    /// Adds the pattern that a text of \patterns spells, where `lower` holds the 256 \lccodes. A digit is the level of
    /// its place, `.` is the edge of a word, and any other character is a letter, kept as its \lccode.
    ///
    /// `NotALetter` comes where a letter's \lccode is 0, and `Duplicate` where a pattern with these letters is there.
    /// After any error, want of memory too, nothing has changed.
    pub fn add(&mut self, alloc: Global, pattern: &[u8], lower: &[u8]) -> Result<(), PatternError>
        requires { length lower.now ≡ 256 }
        ensures ok { OnOk result (with_pattern self.old (spelled Kind.Pattern lower.now pattern.now) ≡ Ok self.new) }
        ensures error { IfErr result (λ e. e ≢ PatternError.OutOfMemory → with_pattern self.old (spelled Kind.Pattern lower.now pattern.now) ≡ Err e) }
        ensures unchanged { OnErr result (self.new ≡ self.old) }
    {
        let Some(spelling) = read(alloc, Kind::Pattern, pattern, lower)? else {
            return Err(PatternError::NotALetter);
        };
        if spelling.letters.is_empty() {
            return Ok(());
        }
        if self.patterns.contains(spelling.letters.as_slice()) {
            return Err(PatternError::Duplicate);
        }
        put_in(&mut self.patterns, spelling)?;
        Ok(())
    }

    /// Adds the exception that a word of \hyphenation spells, where `lower` holds the 256 \lccodes. `-` permits a
    /// division, and any other character is a letter, kept as its \lccode. It takes the place of an earlier exception
    /// for the word.
    ///
    /// `NotALetter` comes where a letter's \lccode is 0. After any error, want of memory too, nothing has changed.
    pub fn except(&mut self, alloc: Global, word: &[u8], lower: &[u8]) -> Result<(), ExceptionError>
        requires { length lower.now ≡ 256 }
        ensures ok { OnOk result (with_exception self.old (spelled Kind.Exception lower.now word.now) ≡ Ok self.new) }
        ensures error { IfErr result (λ e. e ≢ ExceptionError.OutOfMemory → with_exception self.old (spelled Kind.Exception lower.now word.now) ≡ Err e) }
        ensures unchanged { OnErr result (self.new ≡ self.old) }
    {
        let Some(spelling) = read(alloc, Kind::Exception, word, lower)? else {
            return Err(ExceptionError::NotALetter);
        };
        if spelling.letters.len() > 1 {
            put_in(&mut self.exceptions, spelling)?;
        }
        Ok(())
    }

    /// Whether both hold the same rules.
    pub fn same(&self, other: &Hyphens) -> bool
        ensures { IsTrue result ↔ (self.now ≡ other.now) }
    {
        self.patterns.same(&other.patterns) && self.exceptions.same(&other.exceptions)
    }

    /// An equal value, which later changes of this one leave as it is. Nothing is copied until then. Its only error is
    /// want of memory.
    pub fn share(&self) -> Result<Hyphens, AllocError>
        ensures { IfOk result (λ copy. copy ≡ self.now) }
    {
        Ok(Hyphens {
            patterns: self.patterns.clone()?,
            exceptions: self.exceptions.clone()?,
        })
    }

    /// The places at which a word may be divided, each counted by the letters before it. The word's letters are given
    /// by the codes as which they are kept; `left` and `right` are \lefthyphenmin and \righthyphenmin. Its only error
    /// is want of memory.
    pub fn points(
        &self,
        alloc: Global,
        word: &[u8],
        left: i64,
        right: i64,
    ) -> Result<Places, AllocError>
        ensures { IfOk result (λ places. places ≡ points self.now word.now left right) }
    {
        let letters = first_letters(word);
        let first = hold(left);
        let end = (letters.len() + 1).saturating_sub(hold(right));
        match self.exceptions.find(letters) {
            Some(exception) => odd_places(alloc, exception.levels.as_slice(), first, end),
            None => pattern_places(alloc, &self.patterns, letters, first, end),
        }
    }
}

/// Puts a spelling into a lexicon, which is copied first if others hold it too. After want of memory it holds the same.
fn put_in(lexicon: &mut Rc<Lexicon>, spelling: Spelling) -> Result<(), AllocError>
    ensures ok { OnOk result (lexicon.new.value ≡ put lexicon.old.value spelling) }
    ensures err { OnErr result (lexicon.new.value ≡ lexicon.old.value) }
{
    let own = Rc::make_mut(lexicon)?;
    own.put(spelling)?;
    Ok(())
}

/// The places of a word from the first on, and below the end, that have an odd level by the patterns.
fn pattern_places(
    alloc: Global,
    patterns: &Lexicon,
    letters: &[u8],
    first: usize,
    end: usize,
) -> Result<Places, AllocError>
    requires short { length letters.now ≤ 63 }
    requires within { end ≤ length letters.now }
    ensures { IfOk result (λ places. places ≡ filter (λ place. level_in patterns.now (edged letters.now) (place + 1) % 2 == 1) (range_with_len first (end - first))) }
{
    let text = edge(alloc, letters)?;
    let levels = patterns.levels(alloc, text.as_slice())?;
    let places = odd_places(alloc, &levels.as_slice()[1..], first, end)?;
    Ok(places)
}

/// A word, or its first 63 letters if it has more.
fn first_letters(word: &[u8]) -> &[u8]
    ensures first { result.now ≡ take 63 word.now }
    ensures short { length result.now ≤ 63 }
{
    if word.len() > MOST_LETTERS {
        &word[..MOST_LETTERS]
    } else {
        word
    }
}

/// A minimum, at least 1 and at most 63.
fn hold(minimum: i64) -> usize
    ensures value { result ≡ held minimum }
    ensures bounds { (1 ≤ result) × (result ≤ 63) }
{
    minimum.clamp(1, 63) as usize
}

/// A word between its edges.
fn edge(alloc: Global, word: &[u8]) -> Result<Bytes, AllocError>
    ensures { IfOk result (λ text. text ≡ edged word.now) }
{
    let mut text = Bytes::new(alloc);
    text.push(0)?;
    text.append(word)?;
    text.push(0)?;
    Ok(text)
}

/// The level of a place; 0 where the levels have ended.
fn level_at(levels: &[u8], place: usize) -> u8
    ensures { result ≡ slice_index levels.now place }
{
    levels.get(place).copied().unwrap_or(0)
}

/// The places from the first on, and below the end, that have an odd level.
fn odd_places(alloc: Global, levels: &[u8], first: usize, end: usize) -> Result<Places, AllocError>
    ensures { IfOk result (λ places. places ≡ filter (λ place. slice_index levels.now place % 2 == 1) (range_with_len first (end - first))) }
{
    let mut places = Places::new(alloc);
    for place in first..end {
        if level_at(levels, place) % 2 == 1 {
            places.push(place)?;
        }
    }
    Ok(places)
}
