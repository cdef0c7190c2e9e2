//! Left sides of assignments.
ghost use Rattle.std.specs.Prelude.{◌≡◌};
ghost use Rattle.tx_assign.specs.Beginnings as spec;

use crate::types::Variable;
use tx_prim::{Numbered, Primitive};
use tx_seen::{Meaning, Place};

/// A left side that is a primitive.
fn of_primitive(primitive: Primitive) -> Option<Variable>
    ensures { result ≡ spec.primitive_variable primitive }
{
    match primitive {
        Primitive::Numbered(kind) => Some(Variable::Numbered(kind)),
        Primitive::Integer(parameter) => Some(Variable::Standing(Place::Integer(parameter))),
        Primitive::Dimension(parameter) => Some(Variable::Standing(Place::Dimension(parameter))),
        Primitive::Glue(parameter) => Some(Variable::Standing(Place::Glue(parameter))),
        Primitive::Tokens(parameter) => Some(Variable::Standing(Place::Tokens(parameter))),
        Primitive::Relax | Primitive::Par | Primitive::End => None,
        Primitive::IgnoreSpaces | Primitive::Interaction(_) => None,
        Primitive::Definition(_) | Primitive::Text(_) | Primitive::After(_) => None,
        Primitive::FutureLet => None,
        Primitive::BeginGroup | Primitive::EndGroup => None,
        Primitive::EndCsName => None,
        Primitive::Prefix(_) | Primitive::Let | Primitive::Shorthand(_) => None,
        Primitive::Arithmetic(_) => None,
        Primitive::Sized(_) | Primitive::Rule(_) | Primitive::Box(_) | Primitive::Shipout => None,
        Primitive::BoxFrom(_) | Primitive::SetBox | Primitive::Shift(_) => None,
        Primitive::Unbox(_) | Primitive::Penalty | Primitive::Remove(_) => None,
        Primitive::HorizontalGlue(_) | Primitive::VerticalGlue(_) => None,
        Primitive::Last(_) | Primitive::Badness | Primitive::PrevDepth => None,
        Primitive::PrevGraf | Primitive::ParShape => None,
        Primitive::Leaders(_) => None,
        Primitive::NullFont | Primitive::LoadFont => None,
        Primitive::FontDimen | Primitive::FontInteger(_) => None,
        Primitive::Char | Primitive::SpaceFactor => None,
        Primitive::ItalicCorrection | Primitive::ControlSpace => None,
        Primitive::Indent(_) | Primitive::DiscretionaryHyphen => None,
        Primitive::Adjust | Primitive::Discretionary => None,
        Primitive::FamilyFont(_) | Primitive::MathChar | Primitive::Atom(_) => None,
        Primitive::Center | Primitive::Limits(_) | Primitive::Style(_) => None,
        Primitive::Choice | Primitive::Fraction(_) => None,
        Primitive::Delimited(_) | Primitive::Coded(_) | Primitive::Accent => None,
        Primitive::MathGlue | Primitive::Nonscript => None,
        Primitive::Insert | Primitive::DeadCycles | Primitive::Page(_) => None,
        Primitive::Align | Primitive::AlignWord(_) => None,
        Primitive::EquationNumber(_) => None,
    }
}

impl Variable {
    /// The left side that a token is by its meaning, if it is one (TeX: The Program, sections 1210 and 1224).
    pub fn of_meaning(meaning: &Meaning) -> Option<Variable>
        ensures { result ≡ spec.variable_of meaning.now }
    {
        match meaning {
            Meaning::Command(primitive) => of_primitive(*primitive),
            Meaning::CountRegister(number) => Some(Variable::Standing(Place::Count(*number))),
            Meaning::DimenRegister(number) => Some(Variable::Standing(Place::Dimen(*number))),
            Meaning::SkipRegister(number) => Some(Variable::Standing(Place::Skip(*number))),
            Meaning::MuskipRegister(number) => Some(Variable::Standing(Place::Muskip(*number))),
            Meaning::ToksRegister(number) => Some(Variable::Standing(Place::Toks(*number))),
            Meaning::Undefined | Meaning::Character(_, _) => None,
            Meaning::CharacterNumber(_) | Meaning::MathNumber(_) | Meaning::Font(_) => None,
            Meaning::Expandable(_) | Meaning::Macro(_) | Meaning::Held => None,
        }
    }

    /// Whether \advance and its kin may change it: registers and parameters, but no codes and no lists of tokens (TeX: The Program,
    /// section 1237).
    pub(crate) fn is_changeable(&self) -> bool
        ensures { result ≡ spec.is_changeable self.now }
    {
        match self {
            Variable::Standing(place) => !place.is_list(),
            Variable::Numbered(Numbered::Count | Numbered::Dimen) => true,
            Variable::Numbered(Numbered::Skip | Numbered::Muskip) => true,
            Variable::Numbered(Numbered::Category | Numbered::Code(_)) => false,
            Variable::Numbered(Numbered::Toks | Numbered::Size(_)) => false,
        }
    }
}
