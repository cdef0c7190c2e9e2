//! What a token begins where a number is needed (TeX: The Program, sections 413 and 440 to 445).
ghost use Rattle.std.specs.Prelude.{◌≡◌, ◌<◌, IfSome};
ghost use Rattle.tx_scan.specs.Beginnings as spec;
ghost use Rattle.tx_scan.specs.Dimensions.{is_decimal};

use crate::scans::{Beginning, Radix};
use tx_char::{Cat, Token};
use tx_prim::{Numbered, Primitive};
use tx_seen::{Meaning, Place, Seen, TexError};

impl Radix {
    /// How many digits there are.
    pub(crate) fn base(self) -> u8
        ensures { result ≡ spec.base self }
    {
        match self {
            Radix::Octal => 8,
            Radix::Decimal => 10,
            Radix::Hexadecimal => 16,
        }
    }
}

impl Radix {
    /// Whether it is the decimal one.
    pub(crate) fn is_decimal(self) -> bool
        ensures { result ≡ is_decimal self }
    {
        matches!(self, Radix::Decimal)
    }
}

/// The value of a hexadecimal digit.
fn figure(token: &Token) -> Option<u8>
    ensures { result ≡ spec.figure token.now }
{
    match token {
        Token::Character(code, Cat::Other) if b'0' <= *code && *code <= b'9' => Some(*code - b'0'),
        Token::Character(code, Cat::Other | Cat::Letter) if b'A' <= *code && *code <= b'F' => {
            Some(*code - b'A' + 10)
        }
        _ => None,
    }
}

/// The value of a digit.
pub(crate) fn digit(radix: Radix, token: &Seen) -> Option<u8>
    ensures value { result ≡ spec.digit radix token.now }
    ensures small { IfSome result (λ digit. digit < spec.base radix) }
{
    let figure = figure(&token.token)?;
    if figure < radix.base() {
        Some(figure)
    } else {
        None
    }
}

/// No number begins.
fn nothing() -> Beginning
    ensures { result ≡ spec.no_number }
{
    Beginning::Nothing(TexError::MissingNumber)
}

/// What a number of this kind begins: no number stands for a list of tokens.
fn begun_by_number(kind: Numbered) -> Beginning
    ensures { result ≡ spec.begun_by_number kind }
{
    match kind {
        Numbered::Count | Numbered::Dimen => Beginning::Numbered(kind),
        Numbered::Skip | Numbered::Muskip => Beginning::Numbered(kind),
        Numbered::Category | Numbered::Code(_) | Numbered::Size(_) => Beginning::Numbered(kind),
        Numbered::Toks => nothing(),
    }
}

/// What a primitive begins.
fn begun_by_command(command: Primitive) -> Beginning
    ensures { result ≡ spec.begun_by_command command }
{
    match command {
        Primitive::Integer(parameter) => Beginning::At(Place::Integer(parameter)),
        Primitive::Dimension(parameter) => Beginning::At(Place::Dimension(parameter)),
        Primitive::Glue(parameter) => Beginning::At(Place::Glue(parameter)),
        Primitive::Numbered(kind) => begun_by_number(kind),
        Primitive::Last(kind) => Beginning::At(Place::Last(kind)),
        Primitive::Badness => Beginning::At(Place::Badness),
        Primitive::PrevDepth => Beginning::At(Place::PrevDepth),
        Primitive::SpaceFactor => Beginning::At(Place::SpaceFactor),
        Primitive::PrevGraf => Beginning::At(Place::PrevGraf),
        Primitive::ParShape => Beginning::At(Place::ParShape),
        Primitive::FontDimen => Beginning::FontDimen,
        Primitive::FontInteger(kind) => Beginning::FontInteger(kind),
        Primitive::NullFont | Primitive::LoadFont | Primitive::Char => nothing(),
        Primitive::ItalicCorrection | Primitive::ControlSpace => nothing(),
        Primitive::Indent(_) | Primitive::DiscretionaryHyphen => nothing(),
        Primitive::Adjust | Primitive::Discretionary | Primitive::Insert => nothing(),
        Primitive::FamilyFont(_) | Primitive::MathChar | Primitive::Atom(_) => nothing(),
        Primitive::Center | Primitive::Limits(_) | Primitive::Style(_) => nothing(),
        Primitive::Choice | Primitive::Fraction(_) => nothing(),
        Primitive::Delimited(_) | Primitive::Coded(_) | Primitive::Accent => nothing(),
        Primitive::MathGlue | Primitive::Nonscript => nothing(),
        Primitive::Align | Primitive::AlignWord(_) => nothing(),
        Primitive::EquationNumber(_) => nothing(),
        Primitive::DeadCycles => Beginning::At(Place::DeadCycles),
        Primitive::Page(quantity) => Beginning::At(Place::Page(quantity)),
        Primitive::Tokens(_) => nothing(),
        Primitive::Relax | Primitive::Par | Primitive::End => nothing(),
        Primitive::IgnoreSpaces | Primitive::Interaction(_) => nothing(),
        Primitive::Definition(_) | Primitive::Text(_) | Primitive::After(_) => nothing(),
        Primitive::FutureLet => nothing(),
        Primitive::BeginGroup | Primitive::EndGroup => nothing(),
        Primitive::EndCsName => nothing(),
        Primitive::Prefix(_) | Primitive::Let | Primitive::Shorthand(_) => nothing(),
        Primitive::Arithmetic(_) => nothing(),
        Primitive::Sized(_) | Primitive::Rule(_) | Primitive::Shipout => nothing(),
        Primitive::Box(_) | Primitive::BoxFrom(_) | Primitive::SetBox => nothing(),
        Primitive::Shift(_) | Primitive::Unbox(_) | Primitive::Remove(_) => nothing(),
        Primitive::HorizontalGlue(_) | Primitive::VerticalGlue(_) => nothing(),
        Primitive::Penalty | Primitive::Leaders(_) => nothing(),
    }
}

/// What a token begins by what it means.
fn begun_by_meaning(meaning: &Meaning) -> Beginning
    ensures { result ≡ spec.begun_by_meaning meaning.now }
{
    match meaning {
        Meaning::Undefined => Beginning::Nothing(TexError::Undefined),
        Meaning::Command(command) => begun_by_command(*command),
        Meaning::Character(_, Cat::Space) => Beginning::Plus,
        Meaning::Character(_, _) => Beginning::Nothing(TexError::MissingNumber),
        Meaning::CharacterNumber(number) => Beginning::Number(u16::from(*number)),
        Meaning::MathNumber(number) => Beginning::Number(*number),
        Meaning::CountRegister(number) => Beginning::At(Place::Count(*number)),
        Meaning::DimenRegister(number) => Beginning::At(Place::Dimen(*number)),
        Meaning::SkipRegister(number) => Beginning::At(Place::Skip(*number)),
        Meaning::MuskipRegister(number) => Beginning::At(Place::Muskip(*number)),
        Meaning::ToksRegister(_) | Meaning::Font(_) => nothing(),
        Meaning::Expandable(_) | Meaning::Macro(_) | Meaning::Held => nothing(),
    }
}

/// What a character of category 12 begins that is no digit.
fn begun_by_sign(code: u8, meaning: &Meaning) -> Beginning
    ensures { result ≡ spec.begun_by_sign code meaning.now }
{
    match code {
        b'+' => Beginning::Plus,
        b'-' => Beginning::Minus,
        b'\'' => Beginning::Digits(Radix::Octal),
        b'"' => Beginning::Digits(Radix::Hexadecimal),
        b'`' => Beginning::Character,
        b'.' | b',' => Beginning::Point,
        _ => begun_by_meaning(meaning),
    }
}

/// What a token begins.
pub fn beginning(token: &Seen) -> Beginning
    ensures { result ≡ spec.beginning token.now }
{
    if let Some(digit) = digit(Radix::Decimal, token) {
        return Beginning::Digit(digit);
    }
    match &token.token {
        Token::Character(code, Cat::Other) => begun_by_sign(*code, &token.meaning),
        _ => begun_by_meaning(&token.meaning),
    }
}
