//! What groups change seldom.
ghost use Rattle.std.specs.Prelude.{◌≡◌, slice_set, OnOk};
ghost use Rattle.tx_eqtb.specs.Boxes.{with_size};
ghost use Rattle.tx_eqtb.specs.Seldom.{with_code};

use crate::boxes::{BoxRegister, set_size};
use crate::cells::Cells;
use crate::shape::ParShape;
use std::alloc::AllocError;
use std::rc::Rc;
use tx_char::{Cat, Codes};
use tx_list::both;
use tx_num::Glue;
use tx_prim::{BoxSide, CharacterCode};
use tx_seen::Meaning;
use tx_toklist::TokList;

/// The codes of characters, the active ones, glue, lists of tokens, boxes, the fonts of families and \parshape.
#[derive(Drop)]
pub struct Seldom {
    pub(crate) active: Cells<Meaning>,
    pub(crate) categories: Codes,
    pub(crate) lower_case: Cells<i32>,
    pub(crate) upper_case: Cells<i32>,
    pub(crate) space_factors: Cells<i32>,
    pub(crate) math: Cells<i32>,
    pub(crate) delimiters: Cells<i32>,
    pub(crate) skips: Cells<Glue>,
    pub(crate) muskips: Cells<Glue>,
    pub(crate) glue_parameters: Cells<Glue>,
    pub(crate) token_registers: Cells<TokList>,
    pub(crate) token_parameters: Cells<TokList>,
    pub(crate) boxes: Cells<BoxRegister>,
    pub(crate) families: Cells<i32>,
    pub(crate) par_shape: ParShape,
}

/// A clone is the same, and shares each part. Its only error is that no more owners can be counted.
impl Clone for Seldom {
    ghost is_clone = { λ source copy. copy ≡ source };

    fn clone(&self) -> Result<Self, AllocError> {
        let meanings = both(self.active.share(), self.categories.clone());
        let cases = both(self.lower_case.share(), self.upper_case.share());
        let of_math = both(self.math.share(), self.delimiters.share());
        let other_codes = both(self.space_factors.share(), of_math);
        let codes = both(cases, other_codes);
        let skips = both(self.skips.share(), self.muskips.share());
        let glues = both(skips, self.glue_parameters.share());
        let lists = both(self.token_registers.share(), self.token_parameters.share());
        let others = both(self.families.share(), self.par_shape.clone());
        let boxed = both(lists, both(self.boxes.share(), others));
        let of_characters = both(meanings, codes);
        let registered = both(glues, boxed);
        let (
            ((active, categories), ((lower_case, upper_case), (space_factors, (math, delimiters)))),
            (
                ((skips, muskips), glue_parameters),
                ((token_registers, token_parameters), (boxes, (families, par_shape))),
            ),
        ) = both(of_characters, registered)?;
        Ok(Seldom {
            active,
            categories,
            lower_case,
            upper_case,
            space_factors,
            math,
            delimiters,
            skips,
            muskips,
            glue_parameters,
            token_registers,
            token_parameters,
            boxes,
            families,
            par_shape,
        })
    }
}

// Each of these gives one of a kind another value, where there is one of that number; only this owner sees it. After want of
// memory, the only error, the parts may only be dropped.

/// An active character gets a meaning.
pub fn set_active(
    seldom: &mut Rc<Seldom>,
    number: usize,
    meaning: Meaning,
) -> Result<(), AllocError>
    ensures { OnOk result (seldom.new.value ≡ record seldom.old.value { active = slice_set seldom.old.value.active number meaning }) }
{
    let own = Rc::make_mut(seldom)?;
    own.active.set(number, meaning)
}

/// A character gets a code of a kind.
pub fn set_code(
    seldom: &mut Rc<Seldom>,
    kind: CharacterCode,
    code: u8,
    value: i32,
) -> Result<(), AllocError>
    ensures { OnOk result (seldom.new.value ≡ with_code seldom.old.value kind code value) }
{
    let number = code as usize;
    let own = Rc::make_mut(seldom)?;
    match kind {
        CharacterCode::LowerCase => own.lower_case.set(number, value),
        CharacterCode::UpperCase => own.upper_case.set(number, value),
        CharacterCode::SpaceFactor => own.space_factors.set(number, value),
        CharacterCode::Math => own.math.set(number, value),
        CharacterCode::Delimiter => own.delimiters.set(number, value),
    }
}

/// A register of glue gets another.
pub fn set_skip(seldom: &mut Rc<Seldom>, number: usize, glue: Glue) -> Result<(), AllocError>
    ensures { OnOk result (seldom.new.value ≡ record seldom.old.value { skips = slice_set seldom.old.value.skips number glue }) }
{
    let own = Rc::make_mut(seldom)?;
    own.skips.set(number, glue)
}

/// A register of glue in mu gets another.
pub fn set_muskip(seldom: &mut Rc<Seldom>, number: usize, glue: Glue) -> Result<(), AllocError>
    ensures { OnOk result (seldom.new.value ≡ record seldom.old.value { muskips = slice_set seldom.old.value.muskips number glue }) }
{
    let own = Rc::make_mut(seldom)?;
    own.muskips.set(number, glue)
}

/// A parameter of glue gets another.
pub fn set_glue_parameter(
    seldom: &mut Rc<Seldom>,
    number: usize,
    glue: Glue,
) -> Result<(), AllocError>
    ensures { OnOk result (seldom.new.value ≡ record seldom.old.value { glue_parameters = slice_set seldom.old.value.glue_parameters number glue }) }
{
    let own = Rc::make_mut(seldom)?;
    own.glue_parameters.set(number, glue)
}

/// A register gets a list of tokens.
pub fn set_token_register(
    seldom: &mut Rc<Seldom>,
    number: usize,
    tokens: TokList,
) -> Result<(), AllocError>
    ensures { OnOk result (seldom.new.value ≡ record seldom.old.value { token_registers = slice_set seldom.old.value.token_registers number tokens }) }
{
    let own = Rc::make_mut(seldom)?;
    own.token_registers.set(number, tokens)
}

/// A parameter gets a list of tokens.
pub fn set_token_parameter(
    seldom: &mut Rc<Seldom>,
    number: usize,
    tokens: TokList,
) -> Result<(), AllocError>
    ensures { OnOk result (seldom.new.value ≡ record seldom.old.value { token_parameters = slice_set seldom.old.value.token_parameters number tokens }) }
{
    let own = Rc::make_mut(seldom)?;
    own.token_parameters.set(number, tokens)
}

/// A box register gets a box, or none, and a level.
pub fn set_box(
    seldom: &mut Rc<Seldom>,
    number: usize,
    register: BoxRegister,
) -> Result<(), AllocError>
    ensures { OnOk result (seldom.new.value ≡ record seldom.old.value { boxes = slice_set seldom.old.value.boxes number register }) }
{
    let own = Rc::make_mut(seldom)?;
    own.boxes.set(number, register)
}

/// A family gets a font.
pub fn set_family(seldom: &mut Rc<Seldom>, number: usize, font: i32) -> Result<(), AllocError>
    ensures { OnOk result (seldom.new.value ≡ record seldom.old.value { families = slice_set seldom.old.value.families number font }) }
{
    let own = Rc::make_mut(seldom)?;
    own.families.set(number, font)
}

/// A character gets a category.
pub fn set_category(seldom: &mut Rc<Seldom>, code: u8, category: Cat) -> Result<(), AllocError>
    ensures { OnOk result (seldom.new.value ≡ record seldom.old.value { categories = slice_set seldom.old.value.categories code category }) }
{
    let own = Rc::make_mut(seldom)?;
    own.categories.set(code, category)
}

/// The box of a register gets another size, in sp.
pub fn set_box_size(
    seldom: &mut Rc<Seldom>,
    side: BoxSide,
    number: usize,
    size: i32,
) -> Result<(), AllocError>
    ensures { OnOk result (seldom.new.value ≡ record seldom.old.value { boxes = with_size seldom.old.value.boxes side number size }) }
{
    let own = Rc::make_mut(seldom)?;
    set_size(&mut own.boxes, side, number, size)
}

/// \parshape gets other sizes.
pub fn set_shape(seldom: &mut Rc<Seldom>, shape: ParShape) -> Result<(), AllocError>
    ensures { OnOk result (seldom.new.value ≡ record seldom.old.value { par_shape = shape }) }
{
    let own = Rc::make_mut(seldom)?;
    own.par_shape = shape;
    Ok(())
}
