//! The texts of \patterns and \hyphenation (TeX: The Program, sections 934 to 940 and 960 to 963).
ghost use Rattle.std.specs.Prelude.{◌≡◌, ◌∷◌, ◌++◌, [], true, false, Some, option_map, if◌then◌else◌, IfOk, OnOk};
ghost use Rattle.tx_eqtb.specs.Table.{token_meaning};
ghost use Rattle.tx_lettering.specs.Hyphens as spec;
ghost use Rattle.tx_state.specs.Ended.{assigned};
ghost use Rattle.tx_state.specs.Meanings.{IsStepped, state_of};
ghost use Rattle.tx_state.specs.Outcomes.{fails, leaves};

use std::alloc::{AllocError, Global};
use std::mem::replace;
use tx_bytes::Bytes;
use tx_char::{Cat, Token};
use tx_eqtb::Eqtb;
use tx_event::Event;
use tx_hyphen::error::{ExceptionError, PatternError};
use tx_hyphenate::Hyphenation;
use tx_paragraph::lower_codes;
use tx_prim::TextUse;
use tx_seen::{Meaning, TexError};
use tx_state::{Phase, State, end_assignment, fail};
use tx_toklist::Toks;

/// What a token is in such a text.
#[derive(Clone, Copy)]
pub enum TextSign {
    /// A character of a word.
    Letter(u8),
    /// The end of one.
    Blank,
    /// It may not stand there.
    Wrong,
}

/// What a token is that means this; `numbers` tells that names of \chardef may stand there.
fn sign_of(numbers: bool, meaning: &Meaning) -> TextSign
    ensures { result ≡ spec.sign_of numbers meaning.now }
{
    match meaning {
        Meaning::Character(code, Cat::Letter | Cat::Other) => TextSign::Letter(*code),
        Meaning::Character(_, Cat::Space) => TextSign::Blank,
        Meaning::CharacterNumber(code) if numbers => TextSign::Letter(*code),
        _ => TextSign::Wrong,
    }
}

/// What a token is in such a text, by what it means in the table. Its only error is want of memory.
fn sign_at(table: &Eqtb, numbers: bool, token: &Token) -> Result<TextSign, AllocError>
    ensures { IfOk result (λ sign. sign ≡ spec.sign_of numbers (token_meaning table.now.table token.now)) }
{
    let meaning = table.meaning(token)?;
    Ok(sign_of(numbers, &meaning))
}

/// The word that is open ends, and the next one is. Its only error is want of memory.
fn keep_word(alloc: Global, words: &mut Vec<Bytes>, word: &mut Bytes) -> Result<(), AllocError>
    ensures words { OnOk result (words.new.items ≡ words.old.items ++ word.old ∷ []) }
    ensures word { OnOk result (word.new ≡ []) }
{
    words.push(replace(word, Bytes::new(alloc)))?;
    Ok(())
}

/// The words of a text, some of them empty; None where a token may not stand in it. Its only error is want of memory.
fn words_of(
    alloc: Global,
    table: &Eqtb,
    numbers: bool,
    tokens: &[Token],
) -> Result<Option<Vec<Bytes>>, AllocError>
    ensures { IfOk result (λ words. option_map (λ list. list.items) words ≡ spec.words_of table.now.table numbers tokens.now) }
{
    let mut words = Vec::new(alloc);
    let mut word = Bytes::new(alloc);
    for token in tokens {
        let sign = sign_at(table, numbers, token)?;
        match sign {
            TextSign::Letter(code) => word.push(code)?,
            TextSign::Blank => keep_word(alloc, &mut words, &mut word)?,
            TextSign::Wrong => return Ok(None),
        }
    }
    words.push(word)?;
    Ok(Some(words))
}

/// Adds the patterns of these texts, unless one is wrong; answers whether it did. Its only error is want of memory.
fn add_patterns(
    alloc: Global,
    known: &mut Hyphenation,
    table: &Eqtb,
    texts: &[Bytes],
) -> Result<bool, AllocError>
    ensures { IfOk result (λ added. (s : State) → s.hyphenation ≡ known.old → s.table ≡ table.now → spec.patterning (state_of s) (Some texts.now) ≡ (if added then leaves (assigned (state_of (record s { hyphenation = known.new }))) else fails TexError.BadHyphenation)) }
{
    let lower = lower_codes(alloc, table)?;
    match known.add_patterns(alloc, texts, lower.as_slice()) {
        Ok(()) => Ok(true),
        Err(PatternError::NotALetter | PatternError::Duplicate) => Ok(false),
        Err(PatternError::OutOfMemory) => Err(AllocError),
    }
}

/// Adds the exceptions of these words, unless one is wrong; answers whether it did. Its only error is want of memory.
fn add_exceptions(
    alloc: Global,
    known: &mut Hyphenation,
    table: &Eqtb,
    words: &[Bytes],
) -> Result<bool, AllocError>
    ensures { IfOk result (λ added. (s : State) → s.hyphenation ≡ known.old → s.table ≡ table.now → spec.excepting (state_of s) (Some words.now) ≡ (if added then leaves (assigned (state_of (record s { hyphenation = known.new }))) else fails TexError.BadHyphenation)) }
{
    let lower = lower_codes(alloc, table)?;
    match known.add_exceptions(alloc, words, lower.as_slice()) {
        Ok(()) => Ok(true),
        Err(ExceptionError::NotALetter) => Ok(false),
        Err(ExceptionError::OutOfMemory) => Err(AllocError),
    }
}

/// Adds the patterns of the text of \patterns that is whole, unless it is wrong; answers whether it did. Its only error is want of
/// memory.
pub(crate) fn learn_patterns(
    alloc: Global,
    known: &mut Hyphenation,
    table: &Eqtb,
    tokens: &Toks,
) -> Result<bool, AllocError>
    ensures { IfOk result (λ added. (s : State) → s.hyphenation ≡ known.old → s.table ≡ table.now → spec.patterning (state_of s) (spec.words_of table.now.table false tokens.now) ≡ (if added then leaves (assigned (state_of (record s { hyphenation = known.new }))) else fails TexError.BadHyphenation)) }
{
    match words_of(alloc, table, false, tokens.as_slice())? {
        Some(texts) => add_patterns(alloc, known, table, texts.as_slice()),
        None => Ok(false),
    }
}

/// Adds the exceptions of the text of \hyphenation that is whole, unless it is wrong; answers whether it did. Its only error is
/// want of memory.
pub(crate) fn learn_exceptions(
    alloc: Global,
    known: &mut Hyphenation,
    table: &Eqtb,
    tokens: &Toks,
) -> Result<bool, AllocError>
    ensures { IfOk result (λ added. (s : State) → s.hyphenation ≡ known.old → s.table ≡ table.now → spec.excepting (state_of s) (spec.words_of table.now.table true tokens.now) ≡ (if added then leaves (assigned (state_of (record s { hyphenation = known.new }))) else fails TexError.BadHyphenation)) }
{
    match words_of(alloc, table, true, tokens.as_slice())? {
        Some(words) => add_exceptions(alloc, known, table, words.as_slice()),
        None => Ok(false),
    }
}

/// What is known of hyphenation has grown, or the text was wrong. Err is want of memory.
pub(crate) fn end_learning(s: &mut State, learned: bool) -> Result<Event, AllocError>
    requires { s.old.phase ≡ Phase.Running }
    ensures { IfOk result (λ event. IsStepped (if learned then leaves (assigned (state_of s.old)) else fails TexError.BadHyphenation) s.old event s.new) }
{
    if learned {
        end_assignment(s)
    } else {
        Ok(fail(s, TexError::BadHyphenation))
    }
}

/// Whether no text of this use can be taken any more: a paragraph began its second pass.
pub(crate) fn is_late(known: &Hyphenation, purpose: TextUse) -> bool
    ensures { result ≡ spec.is_late known.now purpose }
{
    match purpose {
        TextUse::Patterns => known.used,
        TextUse::Hyphenation => false,
        TextUse::Message | TextUse::ErrorMessage | TextUse::Special => false,
        TextUse::UpperCase | TextUse::LowerCase | TextUse::Mark => false,
    }
}
