//! Whether a command may stand in a mode, and behind prefixes, by what its first token means (TeX: The Program, sections 1045 and
//! 1211).
ghost use Rattle.std.specs.Prelude.{◌≡◌};
ghost use Rattle.tx_command.specs.Commands as commands;
ghost use Rattle.tx_command.specs.Standing as spec;

use tx_char::Cat;
use tx_command::Prefixes;
use tx_prim::{Mode, Modes, Primitive, Standing, TextUse};
use tx_seen::Meaning;

/// In which modes a character of a category may stand.
fn modes_of_category(category: Cat) -> Modes
    ensures { result ≡ spec.modes_of_category category }
{
    match category {
        Cat::BeginGroup | Cat::EndGroup | Cat::AlignmentTab | Cat::Space => Modes::All,
        Cat::MathShift | Cat::Letter | Cat::Other => Modes::NotVertical,
        Cat::Superscript | Cat::Subscript => Modes::Math,
        Cat::Parameter
        | Cat::Escape
        | Cat::EndOfLine
        | Cat::Ignored
        | Cat::Active
        | Cat::Comment
        | Cat::Invalid => Modes::Nowhere,
    }
}

/// In which modes a command may stand whose first token means this.
fn modes_of_meaning(meaning: &Meaning) -> Modes
    ensures { result ≡ spec.modes_of_meaning meaning.now }
{
    match meaning {
        Meaning::Undefined | Meaning::CountRegister(_) | Meaning::DimenRegister(_) => Modes::All,
        Meaning::SkipRegister(_) | Meaning::MuskipRegister(_) => Modes::All,
        Meaning::ToksRegister(_) | Meaning::Font(_) => Modes::All,
        Meaning::Command(primitive) => primitive.modes(),
        Meaning::Character(_, category) => modes_of_category(*category),
        Meaning::CharacterNumber(_) => Modes::NotVertical,
        Meaning::MathNumber(_) => Modes::Math,
        Meaning::Expandable(_) | Meaning::Macro(_) | Meaning::Held => Modes::All,
    }
}

/// What becomes in a mode of a command whose first token means this.
pub fn standing_in(mode: Mode, meaning: &Meaning) -> Standing
    ensures { result ≡ spec.standing_in mode meaning.now }
{
    match modes_of_meaning(meaning) {
        // most commands
        Modes::All => Standing::Stands,
        modes => modes.standing(mode),
    }
}

/// Whether prefixes stand before definitions alone.
fn want_definition(prefixes: Prefixes) -> bool
    ensures { result ≡ commands.want_definition prefixes }
{
    prefixes.long || prefixes.outer
}

/// Whether what becomes of a text in braces is an assignment.
fn assigns_text(purpose: TextUse) -> bool
    ensures { result ≡ commands.assigns_text purpose }
{
    match purpose {
        TextUse::Message | TextUse::ErrorMessage => false,
        TextUse::UpperCase | TextUse::LowerCase => false,
        TextUse::Special | TextUse::Mark => false,
        TextUse::Patterns | TextUse::Hyphenation => true,
    }
}

/// Whether a primitive may stand behind these prefixes.
fn is_prefixable(prefixes: Prefixes, primitive: Primitive) -> bool
    ensures { result ≡ commands.is_prefixable prefixes primitive }
{
    match primitive {
        Primitive::Prefix(_) | Primitive::Definition(_) => true,
        Primitive::Let
        | Primitive::FutureLet
        | Primitive::Shorthand(_)
        | Primitive::Arithmetic(_)
        | Primitive::Numbered(_)
        | Primitive::Integer(_)
        | Primitive::Dimension(_)
        | Primitive::Glue(_)
        | Primitive::Tokens(_)
        | Primitive::Interaction(_)
        | Primitive::SetBox
        | Primitive::PrevDepth
        | Primitive::NullFont
        | Primitive::LoadFont
        | Primitive::FontDimen
        | Primitive::FontInteger(_)
        | Primitive::SpaceFactor
        | Primitive::PrevGraf
        | Primitive::ParShape
        | Primitive::DeadCycles
        | Primitive::FamilyFont(_)
        | Primitive::Page(_) => !want_definition(prefixes),
        Primitive::Text(purpose) => assigns_text(purpose) && !want_definition(prefixes),
        Primitive::Relax
        | Primitive::EndCsName
        | Primitive::Par
        | Primitive::BeginGroup
        | Primitive::EndGroup
        | Primitive::Sized(_)
        | Primitive::Rule(_)
        | Primitive::Box(_)
        | Primitive::Shipout
        | Primitive::End
        | Primitive::IgnoreSpaces
        | Primitive::After(_)
        | Primitive::BoxFrom(_)
        | Primitive::Shift(_)
        | Primitive::Unbox(_)
        | Primitive::HorizontalGlue(_)
        | Primitive::VerticalGlue(_)
        | Primitive::Penalty
        | Primitive::Remove(_)
        | Primitive::Last(_)
        | Primitive::Badness
        | Primitive::Leaders(_)
        | Primitive::Char
        | Primitive::ItalicCorrection
        | Primitive::ControlSpace
        | Primitive::Indent(_)
        | Primitive::DiscretionaryHyphen
        | Primitive::Adjust
        | Primitive::MathChar
        | Primitive::Atom(_)
        | Primitive::Center
        | Primitive::Limits(_)
        | Primitive::Style(_)
        | Primitive::Choice
        | Primitive::Fraction(_)
        | Primitive::Delimited(_)
        | Primitive::Coded(_)
        | Primitive::Accent
        | Primitive::MathGlue
        | Primitive::Nonscript
        | Primitive::Insert
        | Primitive::Align
        | Primitive::AlignWord(_)
        | Primitive::EquationNumber(_)
        | Primitive::Discretionary => false,
    }
}

/// Whether a command may stand behind these prefixes whose first token means this; what has no meaning, or is
/// expanded, is let through.
pub fn may_be_prefixed(prefixes: Prefixes, meaning: &Meaning) -> bool
    ensures { result ≡ commands.may_be_prefixed prefixes meaning.now }
{
    match meaning {
        Meaning::Undefined => true,
        Meaning::CountRegister(_) | Meaning::DimenRegister(_) => !want_definition(prefixes),
        Meaning::SkipRegister(_) | Meaning::MuskipRegister(_) => !want_definition(prefixes),
        Meaning::ToksRegister(_) | Meaning::Font(_) => !want_definition(prefixes),
        Meaning::Command(primitive) => is_prefixable(prefixes, *primitive),
        Meaning::Character(_, _) | Meaning::CharacterNumber(_) | Meaning::MathNumber(_) => false,
        Meaning::Expandable(_) | Meaning::Macro(_) => true,
        Meaning::Held => false,
    }
}

/// Whether a command is an assignment whose first token means this; what has no meaning, or is expanded, is let through.
pub fn is_assignment(meaning: &Meaning) -> bool
    ensures { result ≡ commands.is_assignment meaning.now }
{
    let none = Prefixes {
        global: false,
        long: false,
        outer: false,
    };
    may_be_prefixed(none, meaning)
}
