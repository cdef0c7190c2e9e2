//! How far a scan is.
ghost use Rattle.std.specs.Prelude.{◌≤◌, ◌<◌};

use crate::fraction::Digits;
use tx_list::Stack;
use tx_num::{Glue, PhysicalUnit};
use tx_prim::{BoxTest, FontNumber, Numbered};
use tx_seen::{FontName, FontSize, Place, Seen, TexError};

/// What the digits of a constant count in.
#[derive(Clone, Copy)]
pub enum Radix {
    Octal,
    Decimal,
    Hexadecimal,
}

/// What the number behind a token tells that stands for another number.
#[derive(Clone, Copy, PartialEq, Eq)]
pub enum Counted {
    /// A register, a code or a size of a box.
    Numbered(Numbered),
    /// \fontdimen: a parameter of the font behind the number.
    FontDimen,
}

/// What is needed of the font behind a token.
#[derive(Clone, Copy)]
pub enum FontSought {
    /// Its parameter of this number; 0 stands for all numbers that no parameter can have.
    Dimen(u16),
    /// \hyphenchar or \skewchar.
    Integer(FontNumber),
}

/// A number that waits for the number of what it stands for, as in `-\count` behind which this number comes.
#[derive(Clone, Copy)]
pub struct Outer {
    /// Whether its signs make it negative.
    pub negative: bool,
    pub kind: Counted,
}

/// What a token begins where a number is needed.
#[derive(Drop)]
pub enum Beginning {
    /// A space or `+`, behind which the number still begins.
    Plus,
    /// `-`, behind which the number still begins.
    Minus,
    /// A decimal constant with this first digit.
    Digit(u8),
    /// An octal or hexadecimal constant, whose digits follow.
    Digits(Radix),
    /// The code of the character that follows.
    Character,
    /// The fraction of a size, whose digits follow; no integer.
    Point,
    /// This number, and nothing follows.
    Number(u16),
    /// The number that stands at this place, and nothing follows.
    At(Place),
    /// What stands at a number of this kind, which follows.
    Numbered(Numbered),
    /// The parameter of a font: its number follows, and then the font.
    FontDimen,
    /// An integer of a font, which follows.
    FontInteger(FontNumber),
    /// No number.
    Nothing(TexError),
}

/// Which list of tokens a token stands for.
#[derive(Drop)]
pub enum ListBegun {
    /// None.
    Nothing,
    /// What stands at this place.
    At(Place),
    /// A register, whose number follows.
    Register,
}

/// The digits of a constant that are read, by the number for which they stand.
#[derive(Clone, Copy)]
pub struct Constant {
    pub(crate) radix: Radix,
    pub(crate) number: u32,
    ghost within: { number ≤ 2147483647 },
}

/// The part of an integer that comes next.
#[derive(Clone, Copy)]
pub enum IntStage {
    /// Signs and spaces, then the number.
    Signs,
    /// The first digit of an octal or hexadecimal constant.
    FirstDigit(Radix),
    /// Digits behind those of this constant, then an optional space.
    Digits(Constant),
    /// The character behind a backquote.
    Character,
    /// An optional space behind a character with this code.
    AfterCharacter(u8),
    /// A font of which this is needed, with spaces before it.
    Font(FontSought),
    /// The value that is needed. So many tokens, at most one, were taken behind the number, and aren't part of it.
    Given(usize),
}

/// An integer that is being scanned.
#[derive(Drop)]
pub struct IntScan {
    /// The numbers that wait for this one, the innermost first.
    pub(crate) outers: Stack<Outer>,
    /// Whether the signs of this number so far make it negative.
    pub(crate) negative: bool,
    pub(crate) stage: IntStage,
    /// The font that the token tells which is held behind a number, where it tells one.
    pub(crate) behind: Option<FontName>,
}

/// What the number behind a token tells apart.
#[derive(Clone, Copy)]
pub enum Sought {
    /// Registers, codes and sizes of boxes.
    Numbered(Numbered),
    /// Box registers that are tested.
    Box(BoxTest),
}

/// The part of an internal quantity that comes next.
#[derive(Clone, Copy)]
pub enum QuantityStage {
    /// The number of one of these.
    Number(Sought),
    /// The number of a parameter, behind which its font stands.
    Parameter,
    /// A font of which this is needed, with spaces before it.
    Font(FontSought),
    /// The value that is needed. So many tokens, at most one, were taken behind the number, and aren't part of it.
    Given(usize),
}

/// An internal quantity that is being scanned.
#[derive(Drop)]
pub struct QuantityScan {
    pub(crate) stage: QuantityStage,
    pub(crate) number: IntScan,
}

/// A keyword that is being scanned; who feeds it knows the word.
#[derive(Clone, Copy)]
pub struct KeyScan {
    /// How many of its letters are read.
    pub(crate) read: usize,
}

/// An optional `=` that is being scanned.
#[derive(Clone, Copy)]
pub struct EqualsScan {}

/// A begin-group token that is being looked for.
#[derive(Clone, Copy)]
pub struct BraceScan {}

/// A name that is being looked for.
#[derive(Clone, Copy)]
pub struct NameScan {}

/// A font that is being looked for.
#[derive(Clone, Copy)]
pub struct FontScan {}

/// In which units a dimension is told.
#[derive(Clone, Copy)]
pub struct Units {
    /// Whether `mu` stands in place of all others (The TeXbook, chapter 18).
    pub mu: bool,
    /// Whether `fil`, `fill` and `filll` may stand too (chapter 12).
    pub infinite: bool,
}

/// How infinite a size is (The TeXbook, chapter 12), the least first.
#[derive(Clone, Copy)]
pub enum Order {
    Normal,
    Fil,
    Fill,
    Filll,
}

/// A dimension: so many scaled points, or so many 65536ths of `mu`, or of this infinite unit.
#[derive(Clone, Copy)]
pub struct Measure {
    pub size: i64,
    pub order: Order,
}

/// A unit by its name, but for the infinite ones.
#[derive(Clone, Copy)]
pub enum UnitName {
    /// One of the same size everywhere.
    Physical(PhysicalUnit),
    /// `mu`, in which only glue and kerns of mathematics are told.
    Mathematical,
    /// `em` and `ex`, which the current font has.
    Font(FontSize),
}

/// What is read of a unit's name.
#[derive(Clone, Copy)]
pub enum Letters {
    P,
    I,
    B,
    C,
    M,
    D,
    S,
    E,
    F,
    Fi,
    T,
    Tr,
    Tru,
}

/// What one more letter makes of a unit's name.
#[derive(Clone, Copy)]
pub enum Spelled {
    /// These letters, behind which more are needed.
    On(Letters),
    /// This unit.
    Whole(UnitName),
    /// `fil`.
    Infinite,
    /// `true`, behind which a unit is told.
    True,
    /// No name.
    No,
}

/// What an internal quantity is in a dimension.
#[derive(Clone, Copy)]
pub enum Amount {
    /// The dimension itself.
    Whole,
    /// What is multiplied, by so many whole ones.
    Times(u32),
}

/// So many 65536ths of a unit, and no more than one.
#[derive(Clone, Copy)]
pub struct Portion {
    pub(crate) part: u32,
    ghost within: { part ≤ 65536 },
}

/// The part of a dimension that comes next.
#[derive(Clone, Copy)]
pub enum DimenStage {
    /// Signs and spaces, then the factor.
    Signs,
    /// The first digit of an octal or hexadecimal factor.
    FirstDigit(Radix),
    /// Digits of whole units behind those of this constant, then perhaps a fraction, and an optional space.
    Digits(Constant),
    /// Digits of a fraction behind so many whole units, and an optional space.
    Fraction(u32),
    /// The character behind a backquote.
    Character,
    /// An optional space behind a character with this code.
    AfterCharacter(u8),
    /// An internal number, which is the factor.
    Coefficient,
    /// An internal quantity, which ends the dimension.
    Quantity(Amount),
    /// One that is told in mu.
    Mathematical(Amount),
    /// Spaces, then an internal quantity or a unit's name, where so many whole ones are told.
    Unit(u32),
    /// The letters of a unit's name behind these.
    Name(u32, Letters),
    /// The magnification, which is needed behind `true`.
    Magnification(u32),
    /// Spaces, then a unit's name, behind `true`, where so many whole ones and such a part of one are told.
    TrueUnit(u32, Portion),
    /// An optional space behind the unit.
    AfterUnit(u32, UnitName),
    /// This size of the current font, which is needed as the unit; whether a token was taken behind the unit's name that isn't part
    /// of it.
    FontUnit(u32, FontSize, bool),
    /// Spaces behind `fil`, and letters that make it more infinite.
    AfterFil(u32, Order),
}

/// A dimension that is being scanned.
#[derive(Drop)]
pub struct DimenScan {
    pub(crate) units: Units,
    /// Whether the signs so far make it negative.
    pub(crate) negative: bool,
    pub(crate) stage: DimenStage,
    /// The digits of the fraction that are read and count.
    pub(crate) digits: Digits,
    /// The fraction where `true` has changed it.
    pub(crate) magnified: Option<Portion>,
    /// An internal quantity.
    pub(crate) number: IntScan,
    /// One that is told in mu, or internal glue.
    pub(crate) quantity: QuantityScan,
    /// The token behind the register of a number that is the factor, where that waits for its value.
    pub(crate) behind: Option<Seen>,
}

/// The letters of `plus` that are read. So many of their tokens are held: those from the first on that is no space, since
/// `minus` skips spaces.
#[derive(Clone, Copy)]
pub struct PlusScan {
    pub(crate) read: usize,
    pub(crate) held: usize,
    ghost within: { read < 4 },
    ghost few: { held ≤ read },
}

/// The letters of `minus` that are read, whose tokens are held.
#[derive(Clone, Copy)]
pub struct MinusScan {
    pub(crate) read: usize,
    ghost within: { read < 5 },
}

/// A size of glue.
#[derive(Clone, Copy)]
pub enum GluePart {
    /// The natural width.
    Width,
    /// How far it stretches.
    Stretch,
    /// How far it shrinks.
    Shrink,
}

/// The part of glue that comes next.
#[derive(Clone, Copy)]
pub enum GlueStage {
    /// Signs and spaces, then the glue; whether the signs so far make it negative.
    Signs(bool),
    /// Internal glue, with this sign.
    Quantity(bool),
    /// This size.
    Size(GluePart),
    /// The letters of `plus`, or what stands in their place.
    Plus(PlusScan),
    /// The letters of `minus`, or what stands in their place.
    Minus(MinusScan),
}

/// Glue that is being scanned.
#[derive(Drop)]
pub struct GlueScan {
    /// Whether it is told in mu.
    pub(crate) mu: bool,
    pub(crate) stage: GlueStage,
    /// A size of it.
    pub(crate) size: DimenScan,
    /// The glue as it is so far.
    pub(crate) glue: Glue,
}
