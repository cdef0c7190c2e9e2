//! What a name or an active character means.
ghost use Rattle.std.specs.Prelude.{◌≡◌, ◌↔◌, IsTrue};

use std::alloc::AllocError;
use tx_char::Cat;
use tx_list::Kept;
use tx_prim::{Expandable, Primitive};
use tx_toklist::Macro;

/// The meaning of a name or an active character (TeX: The Program, part 15).
#[derive(Drop)]
pub enum Meaning {
    /// None.
    Undefined,
    /// A primitive.
    Command(Primitive),
    /// A character with its category, by \let.
    Character(u8, Cat),
    /// A character to be set, by \chardef.
    CharacterNumber(u8),
    /// A character of mathematics, 0 to 32767, by \mathchardef.
    MathNumber(u16),
    /// A register of \count, by \countdef.
    CountRegister(u8),
    /// A register of \dimen, by \dimendef.
    DimenRegister(u8),
    /// A register of \skip, by \skipdef.
    SkipRegister(u8),
    /// A register of \muskip, by \muskipdef.
    MuskipRegister(u8),
    /// A register of \toks, by \toksdef.
    ToksRegister(u8),
    /// A font that was loaded, by its number, by \font.
    Font(u8),
    /// A primitive that is expanded.
    Expandable(Expandable),
    /// A macro, which any number of names share.
    Macro(Macro),
    /// What would be expanded, but stands behind \noexpand: it does nothing, as \relax, and yet isn't \relax (TeX: The
    /// Program, section 358).
    Held,
}

/// A clone is the same meaning. Its only error is that no more owners of a macro can be counted.
impl Clone for Meaning {
    ghost is_clone = { λ source copy. copy ≡ source };

    fn clone(&self) -> Result<Self, AllocError> {
        match self {
            Meaning::Undefined => Ok(Meaning::Undefined),
            Meaning::Command(primitive) => Ok(Meaning::Command(*primitive)),
            Meaning::Character(code, category) => Ok(Meaning::Character(*code, *category)),
            Meaning::CharacterNumber(code) => Ok(Meaning::CharacterNumber(*code)),
            Meaning::MathNumber(number) => Ok(Meaning::MathNumber(*number)),
            Meaning::CountRegister(number) => Ok(Meaning::CountRegister(*number)),
            Meaning::DimenRegister(number) => Ok(Meaning::DimenRegister(*number)),
            Meaning::SkipRegister(number) => Ok(Meaning::SkipRegister(*number)),
            Meaning::MuskipRegister(number) => Ok(Meaning::MuskipRegister(*number)),
            Meaning::ToksRegister(number) => Ok(Meaning::ToksRegister(*number)),
            Meaning::Font(number) => Ok(Meaning::Font(*number)),
            Meaning::Expandable(expandable) => Ok(Meaning::Expandable(*expandable)),
            Meaning::Macro(shared) => Ok(Meaning::Macro(shared.share()?)),
            Meaning::Held => Ok(Meaning::Held),
        }
    }
}

impl Kept for Meaning {
    fn share(&self) -> Result<Self, AllocError> {
        self.clone()
    }

    fn same(&self, other: &Self) -> bool {
        match (self, other) {
            (Meaning::Undefined, Meaning::Undefined) => true,
            (Meaning::Command(one), Meaning::Command(other)) => same_primitive(*one, *other),
            (Meaning::Character(code, category), Meaning::Character(other, also)) => {
                *code == *other && *category == *also
            }
            (Meaning::CharacterNumber(one), Meaning::CharacterNumber(other)) => one == other,
            (Meaning::MathNumber(one), Meaning::MathNumber(other)) => one == other,
            (Meaning::CountRegister(one), Meaning::CountRegister(other)) => one == other,
            (Meaning::DimenRegister(one), Meaning::DimenRegister(other)) => one == other,
            (Meaning::SkipRegister(one), Meaning::SkipRegister(other)) => one == other,
            (Meaning::MuskipRegister(one), Meaning::MuskipRegister(other)) => one == other,
            (Meaning::ToksRegister(one), Meaning::ToksRegister(other)) => one == other,
            (Meaning::Font(one), Meaning::Font(other)) => one == other,
            (Meaning::Expandable(one), Meaning::Expandable(other)) => *one == *other,
            (Meaning::Macro(one), Meaning::Macro(other)) => one.same(other),
            (Meaning::Held, Meaning::Held) => true,
            _ => false,
        }
    }
}

/// Whether both are the same primitive. No two have the same name, which tells them apart without a match of all pairs; primitives
/// have no numbers.
pub(crate) fn same_primitive(one: Primitive, other: Primitive) -> bool
    ensures { IsTrue result ↔ (one ≡ other) }
{
    one.name() == other.name()
}
