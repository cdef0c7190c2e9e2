//! Writing into the table.
ghost use Rattle.std.specs.Prelude.{◌≡◌, OnOk};
ghost use Rattle.tx_eqtb.specs.Table.{font_number, with_box_at, with_category_at, with_entry, with_glue_at, with_meaning, with_meaning_at, with_number_at, with_shape_at, with_tokens_at};

use crate::boxes::BoxRegister;
use crate::entry::Entry;
use crate::parts::Parts;
use crate::reading::family_index;
use crate::seldom;
use crate::shape::ParShape;
use std::alloc::AllocError;
use tx_char::{Cat, ControlName};
use tx_name::NameMap;
use tx_num::Glue;
use tx_prim::CharacterCode;
use tx_seen::{Meaning, Place};
use tx_toklist::TokList;

/// Gives a name a meaning. After want of memory, its only error, the names may only be dropped.
fn set_name(
    names: &mut NameMap<Meaning>,
    name: &ControlName,
    meaning: Meaning,
) -> Result<(), AllocError>
    ensures { OnOk result (names.new ≡ with_meaning names.old name.now meaning) }
{
    match meaning {
        Meaning::Undefined => names.remove(name),
        meaning => names.insert(name.clone()?, meaning),
    }
}

/// A number as that of a font; one that none can have is that of \nullfont.
fn font_number(number: i32) -> u8
    ensures { result ≡ font_number number }
{
    if 0 <= number && number <= 255 {
        number as u8
    } else {
        0
    }
}

// After want of memory, the only error of each of these, the table may only be dropped.
impl Parts {
    /// Gives a character a code of a kind.
    fn set_code(&mut self, kind: CharacterCode, code: u8, value: i32) -> Result<(), AllocError>
        ensures { OnOk result (self.new ≡ with_number_at self.old (Place.Code kind code) value) }
    {
        seldom::set_code(&mut self.seldom, kind, code, value)
    }

    /// Gives a register, a code or a parameter a value. Other places have no number.
    fn set_number(&mut self, place: &Place, value: i32) -> Result<(), AllocError>
        ensures { OnOk result (self.new ≡ with_number_at self.old place.now value) }
    {
        match place {
            Place::Count(number) => self.counts.set(*number as usize, value),
            Place::Dimen(number) => self.dimens.set(*number as usize, value),
            Place::Code(kind, code) => self.set_code(*kind, *code, value),
            Place::Integer(parameter) => self.integers.set(parameter.number(), value),
            Place::Dimension(parameter) => self.dimensions.set(parameter.number(), value),
            Place::BoxSize(side, number) => {
                seldom::set_box_size(&mut self.seldom, *side, *number as usize, value)
            }
            Place::Font => {
                self.font = font_number(value);
                Ok(())
            }
            Place::Family(size, family) => {
                seldom::set_family(&mut self.seldom, family_index(*size, *family), value)
            }
            _ => Ok(()),
        }
    }

    /// Gives a register or a parameter glue. Other places have none.
    fn set_glue(&mut self, place: &Place, glue: Glue) -> Result<(), AllocError>
        ensures { OnOk result (self.new ≡ with_glue_at self.old place.now glue) }
    {
        match place {
            Place::Skip(number) => seldom::set_skip(&mut self.seldom, *number as usize, glue),
            Place::Muskip(number) => seldom::set_muskip(&mut self.seldom, *number as usize, glue),
            Place::Glue(parameter) => {
                seldom::set_glue_parameter(&mut self.seldom, parameter.number(), glue)
            }
            _ => Ok(()),
        }
    }

    /// Gives a name or an active character a meaning.
    fn set_meaning(&mut self, place: &Place, meaning: Meaning) -> Result<(), AllocError>
        ensures { OnOk result (self.new ≡ with_meaning_at self.old place.now meaning) }
    {
        match place {
            Place::Name(name) => set_name(&mut self.names, name, meaning),
            Place::Active(code) => seldom::set_active(&mut self.seldom, *code as usize, meaning),
            _ => Ok(()),
        }
    }

    /// Gives a character a category.
    fn set_category(&mut self, place: &Place, category: Cat) -> Result<(), AllocError>
        ensures { OnOk result (self.new ≡ with_category_at self.old place.now category) }
    {
        match place {
            Place::Category(code) => seldom::set_category(&mut self.seldom, *code, category),
            _ => Ok(()),
        }
    }

    /// Gives a register or a parameter a list of tokens.
    fn set_tokens(&mut self, place: &Place, tokens: TokList) -> Result<(), AllocError>
        ensures { OnOk result (self.new ≡ with_tokens_at self.old place.now tokens) }
    {
        match place {
            Place::Toks(number) => {
                seldom::set_token_register(&mut self.seldom, *number as usize, tokens)
            }
            Place::Tokens(parameter) => {
                seldom::set_token_parameter(&mut self.seldom, parameter.number(), tokens)
            }
            _ => Ok(()),
        }
    }

    /// Gives a box register another box and the level at which it was assigned.
    fn set_box(&mut self, place: &Place, register: BoxRegister) -> Result<(), AllocError>
        ensures { OnOk result (self.new ≡ with_box_at self.old place.now register) }
    {
        match place {
            Place::Box(number) => seldom::set_box(&mut self.seldom, *number as usize, register),
            _ => Ok(()),
        }
    }

    /// Gives \parshape other sizes.
    fn set_shape(&mut self, place: &Place, shape: ParShape) -> Result<(), AllocError>
        ensures { OnOk result (self.new ≡ with_shape_at self.old place.now shape) }
    {
        match place {
            Place::ParShape => seldom::set_shape(&mut self.seldom, shape),
            _ => Ok(()),
        }
    }

    /// Gives a place an entry, where so many groups are open; one of another kind than stands there changes nothing.
    #[tactic(auto, unfolding(crate::specs::Table::with_entry))]
    pub fn set(&mut self, level: usize, place: &Place, value: Entry) -> Result<(), AllocError>
        ensures { OnOk result (self.new ≡ with_entry level self.old place.now value) }
    {
        match value {
            Entry::Means(meaning) => self.set_meaning(place, meaning),
            Entry::InCategory(category) => self.set_category(place, category),
            Entry::Number(number) => self.set_number(place, number),
            Entry::Glue(glue) => self.set_glue(place, glue),
            Entry::Tokens(tokens) => self.set_tokens(place, tokens),
            Entry::Box(held) => self.set_box(place, BoxRegister { level, held }),
            Entry::Shape(shape) => self.set_shape(place, shape),
        }
    }
}
