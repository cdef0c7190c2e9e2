//! What the text of a pattern or an exception spells: letters, with a level at each place between them.

ghost use Rattle.std.specs.Prelude.{◌≡◌, ◌↔◌, length, take, IsTrue};
ghost use Rattle.tx_hyphen.specs.Sign.{sign};

use std::alloc::AllocError;
use tx_bytes::Bytes;

/// Which of TeX's two commands a text is given to.
#[derive(Clone, Copy)]
pub enum Kind {
    /// \patterns: digits are levels, `.` is the edge of a word.
    Pattern,
    /// \hyphenation: `-` permits a division.
    Exception,
}

/// What one character of a text says.
#[derive(Clone, Copy)]
pub enum Sign {
    /// This is the level of the place between the letters before and after.
    Level(u8),
    /// A letter, by the code as which it is kept; 0 is the edge of a word.
    Letter(u8),
}

/// The greatest number of letters in a pattern, an exception or a word.
pub const MOST_LETTERS: usize = 63;

impl Kind {
    /// What a character says; None where it is no letter, since its \lccode is 0, and nothing else either.
    /// `lower` holds the 256 \lccodes; `after_level` tells that the character before this one was a level.
    pub fn sign(self, lower: &[u8], after_level: bool, character: u8) -> Option<Sign>
        requires { length lower.now ≡ 256 }
        ensures { result ≡ sign self lower.now after_level character }
    {
        let letter = match lower[character as usize] {
            0 => None,
            code => Some(Sign::Letter(code)),
        };
        match (self, character) {
            (Kind::Pattern, b'0'..=b'9') if !after_level => Some(Sign::Level(character - b'0')),
            (Kind::Pattern, b'.') => Some(Sign::Letter(0)),
            (Kind::Exception, b'-') => Some(Sign::Level(1)),
            _ => letter,
        }
    }
}

/// Letters, and `levels[k]` the level of the place after k of them, 0 where `levels` ends.
#[derive(Drop)]
pub struct Spelling {
    pub letters: Bytes,
    pub levels: Bytes,
}

impl Spelling {
    /// Whether both have the same letters and levels.
    pub fn same(&self, other: &Spelling) -> bool
        ensures { IsTrue result ↔ (self.now ≡ other.now) }
    {
        self.letters.same(&other.letters) && self.levels.same(&other.levels)
    }
}

/// A clone has the same letters and levels. Its only error is want of memory.
impl Clone for Spelling {
    ghost is_clone = { λ source copy. copy ≡ source };

    fn clone(&self) -> Result<Self, AllocError> {
        Ok(Spelling {
            letters: self.letters.clone()?,
            levels: self.levels.clone()?,
        })
    }
}

/// The first 63 of these.
pub(crate) fn shorten(bytes: Bytes) -> Bytes
    ensures { result ≡ take MOST_LETTERS bytes }
{
    let mut items = bytes.into_vec();
    items.truncate(MOST_LETTERS);
    Bytes::from_vec(items)
}
