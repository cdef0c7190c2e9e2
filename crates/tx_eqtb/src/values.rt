//! The values that scans find in the table (TeX: The Program, sections 413 to 428).
ghost use Rattle.std.specs.Prelude.{◌≡◌, option_copied};
ghost use Rattle.tx_eqtb.specs.Quantities.{value_in};
ghost use Rattle.tx_eqtb.specs.Quantities as spec;

use crate::eqtb::Eqtb;
use tx_node::{BoxNode, Direction};
use tx_num::Glue;
use tx_prim::{BoxTest, GlueParameter};
use tx_seen::{Place, Quantities, Value};

/// Whether the box of a register is as a conditional tests it.
fn is_so(test: BoxTest, held: Option<&BoxNode>) -> bool
    ensures { result ≡ spec.is_so test (option_copied held.entry) }
{
    match (test, held) {
        (BoxTest::Void, None) => true,
        (BoxTest::Void, Some(_)) => false,
        (BoxTest::Horizontal | BoxTest::Vertical, None) => false,
        (BoxTest::Horizontal, Some(packed)) => {
            matches!(packed.direction(), Direction::Horizontal)
        }
        (BoxTest::Vertical, Some(packed)) => matches!(packed.direction(), Direction::Vertical),
    }
}

/// The glue of a parameter, which may be told in mu.
fn parameter_value(parameter: GlueParameter, glue: Glue) -> Value
    ensures { result ≡ spec.parameter_value parameter glue }
{
    if parameter.is_in_mu() {
        Value::Muglue(glue)
    } else {
        Value::Glue(glue)
    }
}

impl Quantities for Eqtb {
    ghost value_at = { value_in };

    fn quantity(&self, place: &Place) -> Value {
        match place {
            Place::Dimen(_) | Place::Dimension(_) | Place::BoxSize(_, _) => {
                Value::Dimen(i64::from(self.number(place)))
            }
            Place::Skip(_) => Value::Glue(self.glue(place)),
            Place::Muskip(_) => Value::Muglue(self.glue(place)),
            Place::Glue(parameter) => parameter_value(*parameter, self.glue(place)),
            Place::BoxTest(test, number) => {
                let register = Place::Box(*number);
                Value::Flag(is_so(*test, self.boxed(&register)))
            }
            Place::Category(code) => Value::Int(i64::from(self.category(*code).number())),
            Place::Count(_) | Place::Code(_, _) | Place::Integer(_) => {
                Value::Int(i64::from(self.number(place)))
            }
            Place::Name(_) | Place::Active(_) => Value::Int(i64::from(self.number(place))),
            Place::Last(_) | Place::Badness | Place::PrevDepth => Value::Int(0),
            Place::Magnification => Value::Absent,
            Place::Font => Value::Int(i64::from(self.number(place))),
            Place::FontSize(_) | Place::FontDimen(_, _) => Value::Int(0),
            Place::FontInteger(_, _) | Place::SpaceFactor | Place::PrevGraf => Value::Int(0),
            Place::Family(_, _) => Value::Int(i64::from(self.number(place))),
            Place::ParShape => Value::Int((self.par_shape().len() / 2) as i64),
            Place::Page(_) | Place::DeadCycles => Value::Int(0),
            Place::Toks(_) | Place::Tokens(_) | Place::Box(_) => {
                Value::Int(i64::from(self.number(place)))
            }
        }
    }
}
