//! Tokens.
ghost use Rattle.std.specs.Prelude.{◌≡◌, ◌↔◌, IsTrue};

use crate::category::Cat;
use crate::name::ControlName;
use std::alloc::AllocError;
use tx_list::Kept;

/// What reading makes of characters (The TeXbook, chapter 7), and the two kinds of token that reading makes of none.
#[derive(Drop)]
pub enum Token {
    /// A character code with the category that it had when it was read. An active character is one too.
    Character(u8, Cat),
    /// A control sequence.
    Name(ControlName),
    /// TeX's frozen \relax, which is put in before an \else, \or or \fi in a test, and before an \input in a file's name.
    /// It isn't the control sequence `\relax`, but it means \relax whatever that has come to mean, and it is printed as
    /// `\relax` is (TeX: The Program, sections 379 and 510).
    FrozenRelax,
    /// TeX's frozen identifier of the font of this number, which \the makes of a font. It means the font whatever the name has come
    /// to mean by which \font named this last, and it is printed as that name is (TeX: The Program, sections 222 and 465).
    FontIdentifier(u8),
}

impl Token {
    /// Whether both are the same token: the same code with the same category, the same name, both the frozen \relax, or the
    /// identifier of the same font.
    pub fn same(&self, other: &Token) -> bool
        ensures { IsTrue result ↔ (self.now ≡ other.now) }
    {
        match (self, other) {
            (Token::Character(code, category), Token::Character(other_code, other_category)) => {
                code == other_code && category == other_category
            }
            (Token::Name(name), Token::Name(other_name)) => name.same(other_name),
            (Token::FrozenRelax, Token::FrozenRelax) => true,
            (Token::FontIdentifier(font), Token::FontIdentifier(other_font)) => font == other_font,
            _ => false,
        }
    }
}

/// A clone is the same token, and shares its name. Its only error is that no more owners can be counted.
impl Clone for Token {
    ghost is_clone = { λ source copy. copy ≡ source };

    fn clone(&self) -> Result<Self, AllocError> {
        match self {
            Token::Character(code, category) => Ok(Token::Character(*code, *category)),
            Token::Name(name) => Ok(Token::Name(name.clone()?)),
            Token::FrozenRelax => Ok(Token::FrozenRelax),
            Token::FontIdentifier(font) => Ok(Token::FontIdentifier(*font)),
        }
    }
}

impl Kept for Token {
    fn share(&self) -> Result<Self, AllocError> {
        self.clone()
    }

    fn same(&self, other: &Self) -> bool {
        Token::same(self, other)
    }
}
