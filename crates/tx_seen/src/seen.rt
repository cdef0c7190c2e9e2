//! Tokens with what they mean, and what they are to the commands that read them (TeX: The Program, parts 15 and 24).
ghost use Rattle.std.specs.Prelude.{◌≡◌, ◌↔◌, ◌<◌, IsTrue, IfSome};
ghost use Rattle.tx_seen.specs.Seen as spec;

use crate::meaning::Meaning;
use crate::place::FontName;
use std::alloc::AllocError;
use tx_char::{Cat, Token};
use tx_list::Kept;
use tx_prim::Primitive;

/// A token, with what it meant when it was read.
#[derive(Drop)]
pub struct Seen {
    pub token: Token,
    pub meaning: Meaning,
}

/// A clone is the same token with the same meaning. Its only error is that no more owners of a name can be counted.
impl Clone for Seen {
    ghost is_clone = { λ source copy. copy ≡ source };

    fn clone(&self) -> Result<Self, AllocError> {
        Ok(Seen {
            token: self.token.clone()?,
            meaning: self.meaning.clone()?,
        })
    }
}

impl Seen {
    /// Whether both are the same token with the same meaning.
    pub fn same(&self, other: &Seen) -> bool
        ensures { IsTrue result ↔ (self.now ≡ other.now) }
    {
        self.token.same(&other.token) && self.meaning.same(&other.meaning)
    }

    /// Whether expanding the token, or carrying it out, is an error: a name or an active character without a meaning.
    pub fn is_undefined(&self) -> bool
        ensures { result ≡ spec.is_undefined self.now }
    {
        matches!(self.meaning, Meaning::Undefined)
    }

    /// Whether it is expanded where expansion is wanted: a macro, a primitive that is expanded, or what has no meaning.
    pub fn is_expanded(&self) -> bool
        ensures { result ≡ spec.is_expanded self.now.meaning }
    {
        matches!(
            self.meaning,
            Meaning::Undefined | Meaning::Expandable(_) | Meaning::Macro(_)
        )
    }

    /// What it is where \noexpand holds it: it isn't expanded (TeX: The Program, section 358).
    pub fn held(self) -> Seen
        ensures { result ≡ spec.held self }
    {
        if self.is_expanded() {
            return Seen {
                token: self.token,
                meaning: Meaning::Held,
            };
        }
        self
    }

    /// Whether it is a space, or a name that means one.
    pub fn is_space(&self) -> bool
        ensures { result ≡ spec.is_space self.now }
    {
        matches!(self.meaning, Meaning::Character(_, Cat::Space))
    }

    /// Whether it goes on with a word of a horizontal list: a letter, another character, a name that stands for a character to be
    /// set, or \char (TeX: The Program, section 1038).
    pub fn continues_word(&self) -> bool
        ensures { result ≡ spec.continues_word self.now }
    {
        match &self.meaning {
            Meaning::Character(_, category) => matches!(category, Cat::Letter | Cat::Other),
            Meaning::CharacterNumber(_) => true,
            Meaning::Command(primitive) => matches!(primitive, Primitive::Char),
            Meaning::Undefined | Meaning::Expandable(_) | Meaning::Macro(_) => false,
            Meaning::MathNumber(_) | Meaning::Font(_) | Meaning::Held => false,
            Meaning::CountRegister(_) | Meaning::DimenRegister(_) => false,
            Meaning::SkipRegister(_) | Meaning::MuskipRegister(_) => false,
            Meaning::ToksRegister(_) => false,
        }
    }

    /// The font that it tells where a font is needed: \font the current one, and a name that means a font that one (TeX: The
    /// Program, section 577).
    pub fn font_name(&self) -> Option<FontName>
        ensures { result ≡ spec.font_name self.now }
    {
        match &self.meaning {
            Meaning::Command(Primitive::LoadFont) => Some(FontName::Current),
            Meaning::Command(Primitive::NullFont) => Some(FontName::Number(0)),
            Meaning::Font(number) => Some(FontName::Number(*number)),
            Meaning::Undefined | Meaning::Command(_) | Meaning::Expandable(_) => None,
            Meaning::Character(_, _) | Meaning::CharacterNumber(_) | Meaning::MathNumber(_) => None,
            Meaning::Macro(_) | Meaning::Held => None,
            Meaning::CountRegister(_) | Meaning::DimenRegister(_) => None,
            Meaning::SkipRegister(_) | Meaning::MuskipRegister(_) => None,
            Meaning::ToksRegister(_) => None,
        }
    }

    /// Whether it begins a group, or is a name that means this.
    pub fn begins_group(&self) -> bool
        ensures { result ≡ spec.is_begin_group self.now }
    {
        matches!(self.meaning, Meaning::Character(_, Cat::BeginGroup))
    }

    /// Whether it means \relax, or stands behind \noexpand and so does nothing either.
    pub fn is_relax(&self) -> bool
        ensures { result ≡ spec.is_relax self.now }
    {
        matches!(
            self.meaning,
            Meaning::Command(Primitive::Relax) | Meaning::Held
        )
    }

    /// Whether it is this character with category 12.
    pub fn is_other(&self, code: u8) -> bool
        ensures { result ≡ spec.is_other code self.now }
    {
        match &self.token {
            Token::Character(found, Cat::Other) => *found == code,
            _ => false,
        }
    }

    /// The value of a digit.
    pub fn digit(&self) -> Option<u8>
        ensures value { result ≡ spec.digit_value self.now }
        ensures small { IfSome result (λ digit. digit < 10) }
    {
        match &self.token {
            Token::Character(code, Cat::Other) if b'0' <= *code && *code <= b'9' => Some(
                *code - b'0',
            ),
            _ => None,
        }
    }

    /// Whether it is the point of a decimal fraction, `.` or `,`.
    pub fn is_point(&self) -> bool
        ensures { result ≡ spec.is_point self.now }
    {
        self.is_other(b'.') || self.is_other(b',')
    }

    /// Whether it is this small letter or its capital, of any category but active.
    pub fn is_key(&self, letter: u8) -> bool
        ensures { result ≡ spec.is_key letter self.now }
    {
        match &self.token {
            Token::Character(_, Cat::Active) => false,
            Token::Character(code, _) => *code == letter
                || u16::from(*code) + 32 == u16::from(letter),
            Token::Name(_) | Token::FrozenRelax | Token::FontIdentifier(_) => false,
        }
    }
}

impl Kept for Seen {
    fn share(&self) -> Result<Self, AllocError> {
        self.clone()
    }

    fn same(&self, other: &Self) -> bool {
        Seen::same(self, other)
    }
}
