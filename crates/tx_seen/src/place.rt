//! Places of the table.
ghost use Rattle.std.specs.Prelude.{◌≡◌};
ghost use Rattle.tx_seen.specs.Places.{has_size, is_glue, is_list, is_muglue, is_size, place_of};

use crate::meaning::same_primitive;
use std::alloc::AllocError;
use tx_char::ControlName;
use tx_list::Kept;
use tx_prim::{
    BoxSide, BoxTest, CharacterCode, DimensionParameter, FontNumber, GlueParameter,
    IntegerParameter, ItemKind, MathSize, Numbered, PageQuantity, Primitive, TokenParameter,
};

/// How a document tells a font (TeX: The Program, section 577).
#[derive(Clone, Copy, PartialEq, Eq)]
pub enum FontName {
    /// \font: the current one.
    Current,
    /// A name that means the font of this number; 0 is \nullfont.
    Number(u8),
}

/// A size of the current font in which dimensions are told (TeX: The Program, section 455).
#[derive(Clone, Copy, PartialEq, Eq)]
pub enum FontSize {
    /// `em`, its parameter 6.
    Quad,
    /// `ex`, its parameter 5.
    XHeight,
}

/// A place of the table (TeX: The Program, part 17), or of what is being built. Sizes are in sp.
#[derive(Drop)]
pub enum Place {
    /// The meaning of a control sequence.
    Name(ControlName),
    /// The meaning of an active character.
    Active(u8),
    /// A register of \count.
    Count(u8),
    /// A register of \dimen, in sp.
    Dimen(u8),
    /// A register of \skip.
    Skip(u8),
    /// A register of \muskip.
    Muskip(u8),
    /// A register of \toks.
    Toks(u8),
    /// The category of a character.
    Category(u8),
    /// Another code of a character.
    Code(CharacterCode, u8),
    /// An integer parameter.
    Integer(IntegerParameter),
    /// A dimension parameter, in sp.
    Dimension(DimensionParameter),
    /// A glue parameter.
    Glue(GlueParameter),
    /// A parameter that is a list of tokens.
    Tokens(TokenParameter),
    /// A box register.
    Box(u8),
    /// \wd, \ht or \dp of a box register, in sp.
    BoxSize(BoxSide, u8),
    /// What \ifvoid and its kin test of a box register.
    BoxTest(BoxTest, u8),
    /// \lastpenalty, \lastkern or \lastskip, of the list that is being built, and no place of the table.
    Last(ItemKind),
    /// \badness of the box that was packed last, 1000000 where that was overfull, and no place of the table either.
    Badness,
    /// \prevdepth of the list that is being built, in sp.
    PrevDepth,
    /// \mag where `true` stands before a unit (TeX: The Program, section 457).
    Magnification,
    /// The number of the current font.
    Font,
    /// A size of the current font, in sp, and no place of the table.
    FontSize(FontSize),
    /// The \fontdimen of this number of a font, in sp, and no place of the table; 0 stands for all numbers that no parameter can
    /// have.
    FontDimen(FontName, u16),
    /// \hyphenchar or \skewchar of a font, and no place of the table.
    FontInteger(FontNumber, FontName),
    /// The number of the font of a family at a size, by the number of the family.
    Family(MathSize, u8),
    /// \spacefactor of the list that is being built.
    SpaceFactor,
    /// \prevgraf of the innermost vertical list.
    PrevGraf,
    /// \parshape, whose number is how many lines it has.
    ParShape,
    /// \pagegoal and its kin, of the page that is being built: sizes in sp, and \insertpenalties, a number.
    Page(PageQuantity),
    /// \deadcycles.
    DeadCycles,
}

/// A clone is the same place, and shares its name. Its only error is that no more owners of a name can be counted.
impl Clone for Place {
    ghost is_clone = { λ source copy. copy ≡ source };

    fn clone(&self) -> Result<Self, AllocError> {
        match self {
            Place::Name(name) => Ok(Place::Name(name.clone()?)),
            Place::Active(code) => Ok(Place::Active(*code)),
            Place::Count(number) => Ok(Place::Count(*number)),
            Place::Dimen(number) => Ok(Place::Dimen(*number)),
            Place::Skip(number) => Ok(Place::Skip(*number)),
            Place::Muskip(number) => Ok(Place::Muskip(*number)),
            Place::Toks(number) => Ok(Place::Toks(*number)),
            Place::Category(code) => Ok(Place::Category(*code)),
            Place::Code(kind, code) => Ok(Place::Code(*kind, *code)),
            Place::Integer(parameter) => Ok(Place::Integer(*parameter)),
            Place::Dimension(parameter) => Ok(Place::Dimension(*parameter)),
            Place::Glue(parameter) => Ok(Place::Glue(*parameter)),
            Place::Tokens(parameter) => Ok(Place::Tokens(*parameter)),
            Place::Box(number) => Ok(Place::Box(*number)),
            Place::BoxSize(side, number) => Ok(Place::BoxSize(*side, *number)),
            Place::BoxTest(test, number) => Ok(Place::BoxTest(*test, *number)),
            Place::Last(kind) => Ok(Place::Last(*kind)),
            Place::Badness => Ok(Place::Badness),
            Place::PrevDepth => Ok(Place::PrevDepth),
            Place::Magnification => Ok(Place::Magnification),
            Place::Font => Ok(Place::Font),
            Place::FontSize(size) => Ok(Place::FontSize(*size)),
            Place::FontDimen(font, number) => Ok(Place::FontDimen(*font, *number)),
            Place::FontInteger(kind, font) => Ok(Place::FontInteger(*kind, *font)),
            Place::Family(size, family) => Ok(Place::Family(*size, *family)),
            Place::SpaceFactor => Ok(Place::SpaceFactor),
            Place::PrevGraf => Ok(Place::PrevGraf),
            Place::ParShape => Ok(Place::ParShape),
            Place::Page(quantity) => Ok(Place::Page(*quantity)),
            Place::DeadCycles => Ok(Place::DeadCycles),
        }
    }
}

impl Kept for Place {
    fn share(&self) -> Result<Self, AllocError> {
        self.clone()
    }

    fn same(&self, other: &Self) -> bool {
        match (self, other) {
            (Place::Name(one), Place::Name(other)) => one.as_slice() == other.as_slice(),
            (Place::Active(one), Place::Active(other)) => one == other,
            (Place::Count(one), Place::Count(other)) => one == other,
            (Place::Dimen(one), Place::Dimen(other)) => one == other,
            (Place::Skip(one), Place::Skip(other)) => one == other,
            (Place::Muskip(one), Place::Muskip(other)) => one == other,
            (Place::Toks(one), Place::Toks(other)) => one == other,
            (Place::Category(one), Place::Category(other)) => one == other,
            (Place::Code(kind, one), Place::Code(also, other)) => *kind == *also && *one == *other,
            (Place::Integer(one), Place::Integer(other)) => same_primitive(
                Primitive::Integer(*one),
                Primitive::Integer(*other),
            ),
            (Place::Dimension(one), Place::Dimension(other)) => *one == *other,
            (Place::Glue(one), Place::Glue(other)) => *one == *other,
            (Place::Tokens(one), Place::Tokens(other)) => *one == *other,
            (Place::Box(one), Place::Box(other)) => one == other,
            (Place::BoxSize(side, one), Place::BoxSize(also, other)) => *side == *also
                && *one == *other,
            (Place::BoxTest(test, one), Place::BoxTest(also, other)) => *test == *also
                && *one == *other,
            (Place::Last(one), Place::Last(other)) => *one == *other,
            (Place::Badness, Place::Badness) => true,
            (Place::PrevDepth, Place::PrevDepth) => true,
            (Place::Magnification, Place::Magnification) => true,
            (Place::Font, Place::Font) => true,
            (Place::FontSize(one), Place::FontSize(other)) => *one == *other,
            (Place::FontDimen(font, one), Place::FontDimen(also, other)) => *font == *also
                && *one == *other,
            (Place::FontInteger(kind, one), Place::FontInteger(also, other)) => *kind == *also
                && *one == *other,
            (Place::Family(size, one), Place::Family(also, other)) => *size == *also
                && *one == *other,
            (Place::SpaceFactor, Place::SpaceFactor) => true,
            (Place::PrevGraf, Place::PrevGraf) => true,
            (Place::ParShape, Place::ParShape) => true,
            (Place::Page(one), Place::Page(other)) => *one == *other,
            (Place::DeadCycles, Place::DeadCycles) => true,
            _ => false,
        }
    }
}

impl Place {
    /// The place of the register or the code with this number.
    pub fn numbered(kind: Numbered, number: u8) -> Place
        ensures { result ≡ place_of kind number }
    {
        match kind {
            Numbered::Count => Place::Count(number),
            Numbered::Dimen => Place::Dimen(number),
            Numbered::Skip => Place::Skip(number),
            Numbered::Muskip => Place::Muskip(number),
            Numbered::Toks => Place::Toks(number),
            Numbered::Category => Place::Category(number),
            Numbered::Code(code) => Place::Code(code, number),
            Numbered::Size(side) => Place::BoxSize(side, number),
        }
    }

    /// Whether a size stands there.
    pub fn is_size(&self) -> bool
        ensures { result ≡ is_size self.now }
    {
        match self {
            Place::Dimen(_) | Place::Dimension(_) | Place::BoxSize(_, _) => true,
            Place::Last(ItemKind::Kern) | Place::PrevDepth => true,
            Place::FontDimen(_, _) | Place::FontSize(_) => true,
            Place::Page(PageQuantity::InsertPenalties) => false,
            Place::Page(_) => true,
            _ => false,
        }
    }

    /// Whether glue stands there that isn't told in mu.
    pub fn is_glue(&self) -> bool
        ensures { result ≡ is_glue self.now }
    {
        match self {
            Place::Skip(_) | Place::Last(ItemKind::Skip) => true,
            Place::Glue(parameter) => !parameter.is_in_mu(),
            _ => false,
        }
    }

    /// Whether glue stands there that is told in mu.
    pub fn is_muglue(&self) -> bool
        ensures { result ≡ is_muglue self.now }
    {
        match self {
            Place::Muskip(_) => true,
            Place::Glue(parameter) => parameter.is_in_mu(),
            _ => false,
        }
    }

    /// Whether what stands there is a size or has one, as glue has a width.
    pub fn has_size(&self) -> bool
        ensures { result ≡ has_size self.now }
    {
        self.is_size() || self.is_glue() || self.is_muglue()
    }

    /// Whether a list of tokens stands there.
    pub fn is_list(&self) -> bool
        ensures { result ≡ is_list self.now }
    {
        matches!(self, Place::Toks(_) | Place::Tokens(_))
    }
}
