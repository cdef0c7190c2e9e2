//! Reading the table, comparing two, and making a second one.
ghost use Rattle.std.specs.Prelude.{◌≡◌, ◌↔◌, [], option_copied, IsTrue, IfOk};
ghost use Rattle.tx_eqtb.specs.Table as spec;
ghost use Rattle.tx_eqtb.specs.Seldom.{HasSameCodes, HasSameGlue};
ghost use Rattle.tx_char.specs.Category.{category};

use crate::boxes::{box_of, level_of, size_of};
use crate::cells::Cells;
use crate::eqtb::Eqtb;
use crate::parts::Parts;
use crate::seldom::Seldom;
use std::alloc::{AllocError, Global};
use tx_char::{Cat, Codes, ControlName, Token};
use tx_list::both;
use tx_node::BoxNode;
use tx_num::Glue;
use tx_prim::{
    CharacterCode, DimensionParameter, GlueParameter, IntegerParameter, MathSize, Primitive,
};
use tx_seen::{Meaning, Place};
use tx_toklist::{TokList, Toks};

/// What the identifier of the font of a number means.
fn font_meaning(font: u8) -> Meaning
    ensures { result ≡ spec.font_meaning font }
{
    if font == 0 {
        Meaning::Command(Primitive::NullFont)
    } else {
        Meaning::Font(font)
    }
}

/// A register, a code or a parameter.
fn number_of(numbers: &Cells<i32>, at: usize) -> i32
    ensures { result ≡ spec.number_of numbers.now at }
{
    match numbers.get(at) {
        Some(number) => *number,
        None => 0,
    }
}

/// Which number the font of a family has among all of them.
pub(crate) fn family_index(size: MathSize, family: u8) -> usize
    ensures { result ≡ spec.family_index size family }
{
    let before = match size {
        MathSize::Text => 0,
        MathSize::Script => 16,
        MathSize::ScriptScript => 32,
    };
    before + usize::from(family)
}

/// Glue of a register or a parameter.
fn glue_of(glues: &Cells<Glue>, at: usize) -> Glue
    ensures { result ≡ spec.glue_of glues.now at }
{
    match glues.get(at) {
        Some(glue) => *glue,
        None => Glue::zero(),
    }
}

/// An empty list. Its only error is want of memory.
pub(crate) fn no_tokens(alloc: Global) -> Result<TokList, AllocError>
    ensures { IfOk result (λ tokens. tokens ≡ []) }
{
    TokList::from_toks(alloc, Toks::new(alloc))
}

/// A list of a register or a parameter. Its only error is want of memory.
fn list_of(lists: &Cells<TokList>, at: usize) -> Result<TokList, AllocError>
    ensures { IfOk result (λ tokens. tokens ≡ spec.list_of lists.now at) }
{
    match lists.get(at) {
        Some(list) => list.share(),
        None => no_tokens(lists.allocator()),
    }
}

impl Eqtb {
    /// The number of the current font.
    pub fn font(&self) -> u8
        ensures { result ≡ self.now.table.font }
    {
        self.table.font
    }

    /// The sizes of \parshape, lent: of each line how far it is indented, then how wide it is, in sp.
    pub fn par_shape(&self) -> &[i32]
        ensures { result.now ≡ self.now.table.par_shape }
    {
        self.table.seldom.par_shape.as_slice()
    }

    /// The category of a character.
    pub fn category(&self, code: u8) -> Cat
        ensures { result ≡ category self.now.table.categories code }
    {
        self.table.seldom.categories.get(code)
    }

    /// The categories of all characters, lent, for reading lines.
    pub fn categories(&self) -> &Codes
        ensures { result.now ≡ self.now.table.categories }
    {
        &self.table.seldom.as_ref().categories
    }

    /// The meaning of a name. Its only error is that no more owners of a meaning can be counted.
    pub fn name_meaning(&self, name: &ControlName) -> Result<Meaning, AllocError>
        ensures { IfOk result (λ meaning. meaning ≡ spec.meaning_of self.now.table.names name.now) }
    {
        match self.table.names.get(name) {
            Some(meaning) => meaning.clone(),
            None => Ok(Meaning::Undefined),
        }
    }

    /// What a token means: a name and an active character what the table says, any other character itself, and the frozen
    /// \relax what \relax means at the beginning. Its only error is that no more owners of a meaning can be counted.
    #[inline(always)]
    pub fn meaning(&self, token: &Token) -> Result<Meaning, AllocError>
        ensures { IfOk result (λ meaning. meaning ≡ spec.token_meaning self.now.table token.now) }
    {
        match token {
            Token::Name(name) => self.name_meaning(name),
            Token::Character(code, Cat::Active) => {
                match self.table.seldom.active.get(*code as usize) {
                    Some(meaning) => meaning.clone(),
                    None => Ok(Meaning::Undefined),
                }
            }
            Token::Character(code, category) => Ok(Meaning::Character(*code, *category)),
            Token::FrozenRelax => Ok(Meaning::Command(Primitive::Relax)),
            Token::FontIdentifier(font) => Ok(font_meaning(*font)),
        }
    }

    /// An integer parameter.
    #[tactic(auto, unfolding(crate::specs::Table::number_at))]
    pub fn integer(&self, parameter: IntegerParameter) -> i32
        ensures { result ≡ spec.number_at self.now.table (Place.Integer parameter) }
    {
        number_of(&self.table.integers, parameter.number())
    }

    /// A dimension parameter, in sp, which may be any number.
    #[tactic(auto, unfolding(crate::specs::Table::number_at))]
    pub fn dimension(&self, parameter: DimensionParameter) -> i32
        ensures { result ≡ spec.number_at self.now.table (Place.Dimension parameter) }
    {
        number_of(&self.table.dimensions, parameter.number())
    }

    /// A glue parameter.
    pub fn glue_parameter(&self, parameter: GlueParameter) -> Glue
        ensures { result ≡ spec.glue_at self.now.table (Place.Glue parameter) }
    {
        glue_of(&self.table.seldom.glue_parameters, parameter.number())
    }

    /// The \sfcode of a character.
    #[tactic(auto, unfolding(crate::specs::Table::number_at))]
    pub fn space_factor(&self, code: u8) -> i32
        ensures { result ≡ spec.number_at self.now.table (Place.Code CharacterCode.SpaceFactor code) }
    {
        number_of(&self.table.seldom.space_factors, code as usize)
    }

    /// The number that stands at a place: a register, a code or a parameter, in scaled points where it is a size; 0 where no
    /// number stands.
    #[tactic(auto, unfolding(crate::specs::Table::number_at))]
    pub fn number(&self, place: &Place) -> i32
        ensures { result ≡ spec.number_at self.now.table place.now }
    {
        match place {
            Place::Count(number) => number_of(&self.table.counts, *number as usize),
            Place::Dimen(number) => number_of(&self.table.dimens, *number as usize),
            Place::Code(CharacterCode::LowerCase, code) => number_of(
                &self.table.seldom.lower_case,
                *code as usize,
            ),
            Place::Code(CharacterCode::UpperCase, code) => number_of(
                &self.table.seldom.upper_case,
                *code as usize,
            ),
            Place::Code(CharacterCode::SpaceFactor, code) => self.space_factor(*code),
            Place::Code(CharacterCode::Math, code) => {
                number_of(&self.table.seldom.math, *code as usize)
            }
            Place::Code(CharacterCode::Delimiter, code) => number_of(
                &self.table.seldom.delimiters,
                *code as usize,
            ),
            Place::Integer(parameter) => self.integer(*parameter),
            Place::Dimension(parameter) => self.dimension(*parameter),
            Place::BoxSize(side, number) => {
                size_of(&self.table.seldom.boxes, *side, *number as usize)
            }
            Place::Font => i32::from(self.table.font),
            Place::Family(size, family) => number_of(
                &self.table.seldom.families,
                family_index(*size, *family),
            ),
            _ => 0,
        }
    }

    /// The glue that stands at a place, a register or a parameter; zero glue where none stands.
    pub fn glue(&self, place: &Place) -> Glue
        ensures { result ≡ spec.glue_at self.now.table place.now }
    {
        match place {
            Place::Skip(number) => glue_of(&self.table.seldom.skips, *number as usize),
            Place::Muskip(number) => glue_of(&self.table.seldom.muskips, *number as usize),
            Place::Glue(parameter) => self.glue_parameter(*parameter),
            _ => Glue::zero(),
        }
    }

    /// The list of tokens that stands at a place, a register or a parameter, of which one more owner is answered; an empty one
    /// where none stands. Its only error is want of memory.
    pub fn tokens(&self, place: &Place) -> Result<TokList, AllocError>
        ensures { IfOk result (λ tokens. tokens ≡ spec.tokens_at self.now.table place.now) }
    {
        match place {
            Place::Toks(number) => list_of(&self.table.seldom.token_registers, *number as usize),
            Place::Tokens(parameter) => {
                list_of(&self.table.seldom.token_parameters, parameter.number())
            }
            _ => no_tokens(self.table.seldom.token_registers.allocator()),
        }
    }

    /// The box of a register, lent; None where it is void, and at a place that is no box register.
    pub fn boxed(&self, place: &Place) -> Option<&BoxNode>
        ensures { option_copied result ≡ spec.box_at self.now.table place.now }
    {
        match place {
            Place::Box(number) => box_of(&self.table.seldom.boxes, *number as usize),
            _ => None,
        }
    }
}

impl Parts {
    /// How many groups were open when a box register was assigned, also by the place of one of its box's sizes; 0 at any other
    /// place.
    pub fn level(&self, place: &Place) -> usize
        ensures { result ≡ spec.level_at self.now place.now }
    {
        match place {
            Place::Box(number) => level_of(&self.seldom.boxes, *number as usize),
            Place::BoxSize(_, number) => level_of(&self.seldom.boxes, *number as usize),
            _ => 0,
        }
    }

    /// Whether the same stands at all places of both.
    pub fn same(&self, other: &Parts) -> bool
        ensures { IsTrue result ↔ (self.now ≡ other.now) }
    {
        self.counts.same(&other.counts)
            && self.dimens.same(&other.dimens)
            && self.integers.same(&other.integers)
            && self.dimensions.same(&other.dimensions)
            && self.font == other.font
            && self.seldom.same(&other.seldom)
            && self.names.same(&other.names)
    }

    /// A second table, equal to this one. Its only error is that no more owners can be counted.
    pub fn share(&self) -> Result<Parts, AllocError>
        ensures { IfOk result (λ twin. twin ≡ self.now) }
    {
        let registers = both(self.counts.share(), self.dimens.share());
        let parameters = both(self.integers.share(), self.dimensions.share());
        let numbers = both(registers, parameters);
        let others = both(self.names.share(), self.seldom.clone());
        let (((counts, dimens), (integers, dimensions)), (names, seldom)) = both(numbers, others)?;
        Ok(Parts {
            names,
            counts,
            dimens,
            integers,
            dimensions,
            seldom,
            font: self.font,
        })
    }
}

impl Seldom {
    /// Whether both are the same.
    fn same(&self, other: &Seldom) -> bool
        ensures { IsTrue result ↔ (self.now ≡ other.now) }
    {
        self.same_glue(other)
            && self.token_registers.same(&other.token_registers)
            && self.token_parameters.same(&other.token_parameters)
            && self.boxes.same(&other.boxes)
            && self.families.same(&other.families)
            && self.par_shape.same(&other.par_shape)
            && self.categories.same(&other.categories)
            && self.active.same(&other.active)
            && self.same_codes(other)
    }

    /// Whether the same glue stands in both.
    fn same_glue(&self, other: &Seldom) -> bool
        ensures { IsTrue result ↔ HasSameGlue self.now other.now }
    {
        self.skips.same(&other.skips)
            && self.muskips.same(&other.muskips)
            && self.glue_parameters.same(&other.glue_parameters)
    }

    /// Whether all characters have the same codes in both, whatever their categories.
    fn same_codes(&self, other: &Seldom) -> bool
        ensures { IsTrue result ↔ HasSameCodes self.now other.now }
    {
        self.lower_case.same(&other.lower_case)
            && self.upper_case.same(&other.upper_case)
            && self.space_factors.same(&other.space_factors)
            && self.math.same(&other.math)
            && self.delimiters.same(&other.delimiters)
    }
}
