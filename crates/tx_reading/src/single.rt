//! Commands that are one token, behind which nothing is read.
ghost use Rattle.std.specs.Prelude.{◌≡◌, ◌↔◌, IfSome, IsTrue};
ghost use Rattle.tx_prim.specs.declared.modes.Standing.TheVariants.{Stands};
ghost use Rattle.tx_reading.specs.AtOnce as spec;
ghost use Rattle.tx_command.specs.Standing.{standing_in as standing_of};

use crate::standing::standing_in;
use tx_char::Cat;
use tx_command::CommandScan;
use tx_prim::{AtomPart, Indentation, ItemKind, Mode, Prefix, Primitive, Standing};
use tx_seen::{Meaning, Seen};

/// A command that one token is.
#[derive(Clone, Copy)]
pub enum AtOnce {
    /// A character to be set.
    Character(u8),
    /// A space.
    Space,
    /// A begin-group or an end-group token.
    BeginGroup,
    EndGroup,
    /// `\begingroup` and `\endgroup`.
    BeginSemiSimple,
    EndSemiSimple,
    /// A `$`.
    MathShift,
    /// A character that begins a superscript or a subscript.
    Script(AtomPart),
    /// A name that stands for a `\mathchar`.
    MathCharacter(u16),
    /// `\relax`, or what \noexpand holds.
    Nothing,
    /// A prefix of the command behind it.
    Prefix(Prefix),
    /// `\par`.
    EndParagraph,
    /// `\indent` or `\noindent`.
    Indent(Indentation),
    /// `\ `.
    ControlSpace,
    /// `\/`.
    ItalicCorrection,
    /// `\-`.
    DiscretionaryHyphen,
    /// `\unpenalty` or its kin.
    Remove(ItemKind),
}

/// What a character is by itself, by its category.
#[inline(always)]
fn character_alone(code: u8, category: Cat) -> Option<AtOnce>
    ensures { IfSome result (λ found. spec.IsAlone (spec.character code category) found) }
{
    match category {
        Cat::Letter | Cat::Other => Some(AtOnce::Character(code)),
        Cat::Space => Some(AtOnce::Space),
        Cat::BeginGroup => Some(AtOnce::BeginGroup),
        Cat::EndGroup => Some(AtOnce::EndGroup),
        Cat::MathShift => Some(AtOnce::MathShift),
        Cat::Superscript => Some(AtOnce::Script(AtomPart::Superscript)),
        Cat::Subscript => Some(AtOnce::Script(AtomPart::Subscript)),
        Cat::Escape | Cat::AlignmentTab | Cat::EndOfLine | Cat::Parameter | Cat::Ignored => None,
        Cat::Active | Cat::Comment | Cat::Invalid => None,
    }
}

/// What a primitive is by itself.
#[inline(always)]
fn primitive_alone(primitive: Primitive) -> Option<AtOnce>
    ensures { IfSome result (λ found. spec.IsAlone (spec.primitive_meaning primitive) found) }
{
    match primitive {
        Primitive::Relax => Some(AtOnce::Nothing),
        Primitive::BeginGroup => Some(AtOnce::BeginSemiSimple),
        Primitive::EndGroup => Some(AtOnce::EndSemiSimple),
        Primitive::Prefix(prefix) => Some(AtOnce::Prefix(prefix)),
        Primitive::Par => Some(AtOnce::EndParagraph),
        Primitive::Indent(how) => Some(AtOnce::Indent(how)),
        Primitive::ControlSpace => Some(AtOnce::ControlSpace),
        Primitive::ItalicCorrection => Some(AtOnce::ItalicCorrection),
        Primitive::DiscretionaryHyphen => Some(AtOnce::DiscretionaryHyphen),
        Primitive::Remove(kind) => Some(AtOnce::Remove(kind)),
        // all others are assignments, no commands, or have something read behind them
        _ => None,
    }
}

/// What a token that means this is by itself.
#[inline(always)]
fn alone(meaning: &Meaning) -> Option<AtOnce>
    ensures { IfSome result (λ found. spec.IsAlone meaning.now found) }
{
    match meaning {
        Meaning::Character(code, category) => character_alone(*code, *category),
        Meaning::CharacterNumber(code) => Some(AtOnce::Character(*code)),
        Meaning::Command(primitive) => primitive_alone(*primitive),
        Meaning::Held => Some(AtOnce::Nothing),
        Meaning::Undefined | Meaning::Expandable(_) | Meaning::Macro(_) => None,
        Meaning::MathNumber(number) => Some(AtOnce::MathCharacter(*number)),
        Meaning::Font(_) => None,
        Meaning::CountRegister(_) | Meaning::DimenRegister(_) => None,
        Meaning::SkipRegister(_) | Meaning::MuskipRegister(_) => None,
        Meaning::ToksRegister(_) => None,
    }
}

/// Whether a command whose first token means this is carried out in a mode.
#[inline(always)]
fn stands(mode: Mode, meaning: &Meaning) -> bool
    ensures { IsTrue result ↔ (standing_of mode meaning.now ≡ Stands) }
{
    standing_in(mode, meaning) == Standing::Stands
}

/// What a token that means this is by itself in a mode. The table of the modes is asked last, since only a token that is whole by
/// itself needs it.
#[inline(always)]
fn alone_in(mode: Mode, meaning: &Meaning) -> Option<AtOnce>
    ensures { IfSome result (λ found. spec.IsAloneIn mode meaning.now found) }
{
    match alone(meaning) {
        Some(found) if stands(mode, meaning) => Some(found),
        Some(_) | None => None,
    }
}

/// The command that this token is by itself, where nothing of a command is taken and nothing stands before it. Where it isn't
/// carried out in the mode, since it is refused there or a paragraph begins or ends before it, the answer is None. It is put
/// into the turn as a whole, since most tokens of a document pass here.
#[inline(always)]
pub fn at_once(scan: &CommandScan, seen: &Seen) -> Option<AtOnce>
    ensures { IfSome result (λ found. spec.IsWhole scan.now seen.now found) }
{
    if scan.is_begun() || !scan.is_fresh() {
        return None;
    }
    alone_in(scan.mode(), &seen.meaning)
}
