//! The letters of `to` and `spread` that are read (TeX: The Program, sections 407 and 645).
ghost use Rattle.std.specs.Prelude.{◌≡◌, ◌<◌, MatchOption};
ghost use Rattle.tx_shape.specs.Words as spec;

use crate::words::{Lost, Word};
use tx_seen::Seen;

/// The letters that are read, and what follows where the word breaks off behind them.
#[derive(Clone, Copy)]
pub struct Letters {
    pub(crate) word: Word,
    pub(crate) lost: Lost,
    ghost few: { spec.behind_group lost < spec.place_of word },
}

/// What follows where a word breaks off of which this letter alone is read, and `spread` can't come any more.
fn lost_by(token: &Seen) -> Lost
    ensures { result ≡ spec.lost_by token.now }
{
    if token.is_space() || token.is_relax() {
        Lost::Brace
    } else if token.begins_group() {
        Lost::Begun(0)
    } else {
        Lost::Bare
    }
}

/// The first letter of `to`.
pub(crate) fn begins_to(token: &Seen) -> Letters
    ensures word { result.word ≡ Word.T }
    ensures lost { result.lost ≡ spec.lost_to token.now }
{
    if token.is_space() {
        return Letters {
            word: Word::T,
            lost: Lost::Spread,
        };
    }
    Letters {
        word: Word::T,
        lost: lost_by(token),
    }
}

/// The first letter of `spread`.
pub(crate) fn begins_spread(token: &Seen) -> Letters
    ensures word { result.word ≡ Word.S }
    ensures lost { result.lost ≡ spec.lost_by token.now }
{
    Letters {
        word: Word::S,
        lost: lost_by(token),
    }
}

/// The letter that comes next.
pub(crate) fn expected(word: Word) -> u8
    ensures { result ≡ spec.expected word }
{
    match word {
        Word::T => b'o',
        Word::S => b'p',
        Word::Sp => b'r',
        Word::Spr => b'e',
        Word::Spre => b'a',
        Word::Sprea => b'd',
    }
}

/// What is read with that letter, unless the word is whole then.
fn longer_word(word: Word) -> Option<Word>
    ensures longer { result ≡ spec.longer word }
{
    match word {
        Word::T | Word::Sprea => None,
        Word::S => Some(Word::Sp),
        Word::Sp => Some(Word::Spr),
        Word::Spr => Some(Word::Spre),
        Word::Spre => Some(Word::Sprea),
    }
}

/// With one more letter.
fn lost_behind(lost: Lost, token: &Seen) -> Lost
    requires { spec.behind_group lost < 6 }
    ensures { result ≡ spec.lost_behind lost token.now }
{
    match lost {
        Lost::Spread => Lost::Spread,
        Lost::Brace => lost_by(token),
        Lost::Begun(behind) => Lost::Begun(behind + 1),
        Lost::Bare => Lost::Bare,
    }
}

/// The letters with this one, which is the next, unless the word is whole with it.
pub(crate) fn longer(letters: Letters, token: &Seen) -> Option<Letters>
    ensures { MatchOption result (spec.longer letters.word ≡ None) (λ longer. (spec.longer letters.word ≡ Some longer.word) × (longer.lost ≡ spec.lost_behind letters.lost token.now)) }
{
    let word = longer_word(letters.word)?;
    let lost = lost_behind(letters.lost, token);
    Some(Letters { word, lost })
}
