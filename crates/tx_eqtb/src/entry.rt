//! What stands at a place (TeX: The Program, sections 220 to 247).
ghost use Rattle.std.specs.Prelude.{◌≡◌};

use crate::contents::BoxContents;
use crate::shape::ParShape;
use std::alloc::AllocError;
use tx_char::Cat;
use tx_num::Glue;
use tx_seen::Meaning;
use tx_toklist::TokList;

/// What a place of the table is given: each place holds entries of one kind.
#[derive(Drop)]
pub enum Entry {
    /// At a name and an active character.
    Means(Meaning),
    /// At the category of a character.
    InCategory(Cat),
    /// At a register, a code and a parameter: an integer, or a dimension in scaled points.
    Number(i32),
    /// At a register and a parameter of glue.
    Glue(Glue),
    /// At a register and a parameter that is a list of tokens.
    Tokens(TokList),
    /// At a box register: its box, or none where it is to be void.
    Box(BoxContents),
    /// At \parshape.
    Shape(ParShape),
}

/// A clone is the same entry. Its only error is that no more owners of a meaning, a list,
/// a box or a shape can be counted.
impl Clone for Entry {
    ghost is_clone = { λ source copy. copy ≡ source };

    fn clone(&self) -> Result<Self, AllocError> {
        match self {
            Entry::Means(meaning) => Ok(Entry::Means(meaning.clone()?)),
            Entry::InCategory(category) => Ok(Entry::InCategory(*category)),
            Entry::Number(number) => Ok(Entry::Number(*number)),
            Entry::Glue(glue) => Ok(Entry::Glue(*glue)),
            Entry::Tokens(tokens) => Ok(Entry::Tokens(tokens.share()?)),
            Entry::Box(held) => Ok(Entry::Box(held.clone()?)),
            Entry::Shape(shape) => Ok(Entry::Shape(shape.clone()?)),
        }
    }
}
