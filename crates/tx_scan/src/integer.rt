//! Integers, token by token (TeX: The Program, sections 413 and 440 to 445).
ghost use Rattle.std.specs.Prelude.{◌≡◌, ◌+◌, ◌*◌, ◌<◌, ◌≤◌, ◌∷◌, ◌++◌, [], pos, List, Some, IsTrue, IfOk, MatchOption};
ghost use Rattle.tx_seen.specs.declared.item.Item.{Item};
ghost use Rattle.tx_seen.specs.declared.item.Item.TheVariants.{Took, Gave};
ghost use Rattle.tx_seen.specs.Readings.{Answers};
ghost use Rattle.tx_scan.specs.Beginnings.{base};
ghost use Rattle.tx_scan.specs.Integers.{integer, given, in_range, with_sign, byte_of, code_named, is_in_range, IsInRange};
ghost use Rattle.tx_scan.specs.FontNames.{parameter_number, place_of_font};
ghost use Rattle.tx_scan.specs.Rests.{IsFedBy, IsGivenBy};
ghost use Rattle.tx_scan.specs.IntegerRests.{HasTaken, IsFed, IsGiven, IsWhole, IsEnded, IsFontNeeded, IsWaiting, IsInteger, IsNumberRead, IsTold, EndedBy, begun_integer, waiting};
ghost use Rattle.tx_scan.specs.IntegerRests as rests;
ghost use Rattle.tx_scan.specs.Supplied.{NeedsFewer, NeedsNoMore};

use crate::beginnings::{beginning, digit};
use crate::outers::forget;
use crate::scans::{
    Beginning, Constant, Counted, FontScan, FontSought, IntScan, IntStage, Outer, Radix,
};
use std::alloc::{AllocError, Global};
use tx_char::Token;
use tx_list::Stack;
use tx_seen::{Fed, FontName, Kind, Place, Seen, TexError, Value, Want};

/// The greatest integer.
const GREATEST: u64 = 2_147_483_647;

/// The constant of one digit.
pub(crate) fn first(radix: Radix, digit: u8) -> Constant
    ensures radix { result.radix ≡ radix }
    ensures number { result.number ≡ digit }
{
    Constant {
        radix,
        number: u32::from(digit),
    }
}

/// The constant with one more digit, if it isn't too large.
pub(crate) fn longer(constant: Constant, digit: u8) -> Option<Constant>
    ensures radix { MatchOption result (2147483647 < base constant.radix * constant.number + digit) (λ longer. longer.radix ≡ constant.radix) }
    ensures number { MatchOption result (2147483647 < base constant.radix * constant.number + digit) (λ longer. longer.number ≡ base constant.radix * constant.number + digit) }
{
    let radix = constant.radix;
    let number = u64::from(radix.base()) * u64::from(constant.number) + u64::from(digit);
    if number <= GREATEST {
        Some(Constant {
            radix,
            number: number as u32,
        })
    } else {
        None
    }
}

/// Whether a number isn't too large.
fn is_integer(number: i64) -> bool
    ensures value { result ≡ is_in_range number }
    ensures within { IsTrue result → IsInRange number }
{
    -(GREATEST as i64) <= number && number <= GREATEST as i64
}

/// A number, if it isn't too large.
fn in_range(number: i64) -> Result<i64, TexError>
    ensures { IsNumberRead (λ rest. in_range number rest) result }
{
    if is_integer(number) {
        Ok(number)
    } else {
        Err(TexError::IntegerTooLarge)
    }
}

/// The number that a value is where one is needed: a size counts in sp, and of glue the width.
pub(crate) fn number_given(value: &Value) -> Result<i64, TexError>
    ensures { IsNumberRead (λ rest. given (Gave value.now) rest) result }
{
    match value {
        Value::Int(number) => in_range(*number),
        Value::Dimen(size) => in_range(*size),
        Value::Glue(glue) => in_range(glue.width()),
        Value::Muglue(_) => Err(TexError::MissingUnit),
        Value::Flag(_) | Value::Magnification(_) => Err(TexError::MissingNumber),
        Value::Absent => Err(TexError::NotAllowed),
        Value::OutOfRange => Err(TexError::NumberOutOfRange),
    }
}

/// The number with its sign.
fn signed(negative: bool, number: i64) -> i64
    requires { IsInRange number }
    ensures value { result ≡ with_sign negative number }
    ensures within { IsInRange result }
{
    if negative { -number } else { number }
}

/// The number as that of a register or a character, if it is within 0 to 255.
pub fn byte(number: i64) -> Option<u8>
    ensures { result ≡ byte_of number }
{
    if 0 <= number && number <= 255 {
        Some(number as u8)
    } else {
        None
    }
}

/// The number as that of a parameter of a font; 0 where none can have it.
pub fn parameter(number: i64) -> u16
    ensures { result ≡ parameter_number number }
{
    if 0 <= number && number <= 65535 {
        number as u16
    } else {
        0
    }
}

/// The code that stands behind a backquote: a character's, or that of a name of one character.
pub(crate) fn character_named(token: &Token) -> Option<u8>
    ensures { result ≡ code_named token.now }
{
    match token {
        Token::Character(code, _) => Some(*code),
        Token::Name(name) => match name.as_slice() {
            [code] => Some(*code),
            _ => None,
        },
        Token::FrozenRelax | Token::FontIdentifier(_) => None,
    }
}

impl IntScan {
    /// The scan of an integer of which nothing is read. It takes no memory.
    pub fn new(alloc: Global) -> IntScan
        ensures scan { result ≡ begun_integer }
        ensures taken { HasTaken result [] }
    {
        IntScan {
            outers: Stack::new(alloc),
            negative: false,
            stage: IntStage::Signs,
            behind: None,
        }
    }

    /// Forgets what was read, in the memory that it has.
    pub fn restart(&mut self)
        ensures scan { self.new ≡ begun_integer }
        ensures taken { HasTaken self.new [] }
    {
        forget(&mut self.outers);
        self.negative = false;
        self.stage = IntStage::Signs;
        self.behind = None;
    }

    /// Takes one token, at first and after More. The answer is what reading gives of all that was taken. Its only error
    /// is want of memory.
    pub fn feed(&mut self, token: &Seen) -> Result<Fed<i64>, AllocError>
        ensures answer { (taken : List Item) → HasTaken self.old taken → IfOk result (Answers integer HasTaken (taken ++ Took token.now ∷ []) self.new) }
        ensures part { IfOk result (IsFedBy rests.rest rests.held self.old token.now self.new) }
        ensures fed { IfOk result (IsFed self.old token.now self.new) }
        ensures within { IfOk result IsInteger }
        ensures waits { IfOk result (NeedsNoMore (waiting self.old) (waiting self.new)) }
        ensures holds { IfOk result (NeedsNoMore (waiting self.old) (waiting self.new + rests.held self.new)) }
        ensures told { IfOk result (IsTold token.now self.new) }
    {
        self.behind(token)
    }

    /// Takes the value that it needs. The answer is what reading gives of all that was taken.
    pub fn give(&mut self, value: &Value) -> Fed<i64>
        ensures answer { (taken : List Item) → HasTaken self.old taken → Answers integer HasTaken (taken ++ Gave value.now ∷ []) self.new result }
        ensures part { IsGivenBy rests.rest rests.held self.old value.now self.new result }
        ensures given { IsGiven self.old value.now self.new result }
        ensures within { IsInteger result }
        ensures fewer { NeedsFewer (waiting self.old) (waiting self.new) result }
        ensures behind { self.new.behind ≡ self.old.behind }
    {
        self.answered(value)
    }

    /// What it is behind a value.
    fn answered(&mut self, value: &Value) -> Fed<i64>
        ensures given { IsGiven self.old value.now self.new result }
        ensures within { IsInteger result }
        ensures fewer { NeedsFewer (waiting self.old) (waiting self.new) result }
        ensures behind { self.new.behind ≡ self.old.behind }
    {
        match self.stage {
            IntStage::Given(held) => match number_given(value) {
                Ok(number) => self.whole(signed(self.negative, number), held),
                Err(error) => Fed::Wrong(error),
            },
            IntStage::Font(_) => Fed::Wrong(TexError::MissingName),
            IntStage::Signs | IntStage::FirstDigit(_) | IntStage::Digits(_) => {
                Fed::Wrong(TexError::MissingNumber)
            }
            IntStage::Character | IntStage::AfterCharacter(_) => {
                Fed::Wrong(TexError::MissingNumber)
            }
        }
    }

    /// What it is behind one more token. Its only error is want of memory.
    fn behind(&mut self, token: &Seen) -> Result<Fed<i64>, AllocError>
        ensures fed { IfOk result (IsFed self.old token.now self.new) }
        ensures within { IfOk result IsInteger }
        ensures waits { IfOk result (NeedsNoMore (waiting self.old) (waiting self.new)) }
        ensures holds { IfOk result (NeedsNoMore (waiting self.old) (waiting self.new + rests.held self.new)) }
        ensures told { IfOk result (IsTold token.now self.new) }
    {
        match self.stage {
            IntStage::Signs => self.feed_sign(token),
            IntStage::FirstDigit(radix) => Ok(self.feed_first_digit(radix, token)),
            IntStage::Digits(constant) => Ok(self.feed_digit(constant, token)),
            IntStage::Character => Ok(self.feed_character(token)),
            IntStage::AfterCharacter(code) => Ok(self.end(u32::from(code), token)),
            IntStage::Font(sought) => Ok(self.feed_font(sought, token)),
            IntStage::Given(_) => Ok(Fed::Wrong(TexError::MissingNumber)),
        }
    }

    /// A number is whole, which so many tokens ended: it is the integer, or the number of what waits for it.
    #[inline(never)]
    fn whole(&mut self, number: i64, held: usize) -> Fed<i64>
        requires { IsInRange number }
        ensures whole { IsWhole self.old.outers self.old.behind number held self.new result }
        ensures within { IsInteger result }
        ensures fewer { NeedsFewer (waiting self.old) (waiting self.new) result }
        ensures waits { NeedsNoMore (waiting self.old) (waiting self.new) result }
        ensures holds { held ≤ 1 → NeedsNoMore (waiting self.old) (waiting self.new + rests.held self.new) result }
        ensures few { EndedBy held self.new result }
        ensures behind { self.new.behind ≡ self.old.behind }
    {
        let Some(outer) = self.outers.pop() else {
            return Fed::Done(number, held);
        };
        self.negative = outer.negative;
        match outer.kind {
            Counted::Numbered(kind) => {
                let Some(byte) = byte(number) else {
                    return Fed::Wrong(TexError::NumberOutOfRange);
                };
                self.stage = IntStage::Given(held);
                Fed::Need(Kind::Quantity(Place::numbered(kind, byte)))
            }
            Counted::FontDimen => self.to_font(FontSought::Dimen(parameter(number)), held),
        }
    }

    /// A font is needed, behind a number behind which so many tokens are held.
    #[inline(never)]
    fn to_font(&mut self, sought: FontSought, held: usize) -> Fed<i64>
        ensures font { IsFontNeeded self.old.outers self.old.negative sought self.old.behind held self.new result }
        ensures within { IsInteger result }
        ensures few { EndedBy 0 self.new result }
        ensures outers { self.new.outers ≡ self.old.outers }
        ensures behind { self.new.behind ≡ self.old.behind }
    {
        if held == 0 {
            return self.on(IntStage::Font(sought));
        }
        match self.behind {
            Some(font) => self.to_font_value(sought, font),
            None => Fed::Wrong(TexError::MissingName),
        }
    }

    /// What is needed of a font.
    fn to_font_value(&mut self, sought: FontSought, font: FontName) -> Fed<i64>
        ensures scan { self.new ≡ record self.old { stage = IntStage.Given 0 } }
        ensures answer { result ≡ Fed.Need (Kind.Quantity (place_of_font sought font)) }
    {
        self.stage = IntStage::Given(0);
        Fed::Need(Kind::Quantity(sought.place(font)))
    }

    /// A space before the font that is needed, or the font.
    #[inline(never)]
    fn feed_font(&mut self, sought: FontSought, token: &Seen) -> Fed<i64>
        requires { self.old.stage ≡ IntStage.Font sought }
        ensures fed { IsFed self.old token.now self.new result }
        ensures within { IsInteger result }
        ensures waits { NeedsNoMore (waiting self.old) (waiting self.new) result }
        ensures holds { NeedsNoMore (waiting self.old) (waiting self.new + rests.held self.new) result }
        ensures told { IsTold token.now self.new result }
    {
        match FontScan::new().feed(token) {
            Fed::More(want) => Fed::More(want),
            Fed::Need(kind) => Fed::Need(kind),
            Fed::Done(font, _) => self.to_font_value(sought, font),
            Fed::Wrong(error) => Fed::Wrong(error),
        }
    }

    /// The number that ends at this token.
    fn end(&mut self, number: u32, token: &Seen) -> Fed<i64>
        requires { number ≤ 2147483647 }
        ensures fed { IsEnded self.old.outers self.old.negative number token.now self.new result }
        ensures within { IsInteger result }
        ensures waits { NeedsNoMore (waiting self.old) (waiting self.new) result }
        ensures holds { NeedsNoMore (waiting self.old) (waiting self.new + rests.held self.new) result }
        ensures told { IsTold token.now self.new result }
    {
        if token.is_undefined() {
            return Fed::Wrong(TexError::Undefined);
        }
        let number = signed(self.negative, i64::from(number));
        if token.is_space() {
            self.whole(number, 0)
        } else {
            self.behind = token.font_name();
            self.whole(number, 1)
        }
    }

    /// The number that tells which of this kind comes next, and this one waits. Its only error is want of memory.
    #[inline(never)]
    fn wait(&mut self, kind: Counted) -> Result<Fed<i64>, AllocError>
        requires { self.old.stage ≡ IntStage.Signs }
        ensures { IfOk result (IsWaiting self.old kind self.new) }
    {
        let negative = self.negative;
        self.outers.push(Outer { negative, kind })?;
        self.negative = false;
        Ok(Fed::More(Want::Expanded))
    }

    /// The scan goes on with this stage, for which the next token is expanded.
    fn on(&mut self, stage: IntStage) -> Fed<i64>
        ensures scan { self.new ≡ record self.old { stage = stage } }
        ensures answer { result ≡ Fed.More Want.Expanded }
    {
        self.stage = stage;
        Fed::More(Want::Expanded)
    }

    /// Signs and spaces, or what begins the number. Its only error is want of memory.
    #[inline(never)]
    fn feed_sign(&mut self, token: &Seen) -> Result<Fed<i64>, AllocError>
        requires { self.old.stage ≡ IntStage.Signs }
        ensures fed { IfOk result (IsFed self.old token.now self.new) }
        ensures within { IfOk result IsInteger }
        ensures waits { IfOk result (NeedsNoMore (waiting self.old) (waiting self.new)) }
        ensures holds { IfOk result (NeedsNoMore (waiting self.old) (waiting self.new + rests.held self.new)) }
        ensures told { IfOk result (IsTold token.now self.new) }
    {
        match beginning(token) {
            Beginning::Plus => Ok(Fed::More(Want::Expanded)),
            Beginning::Minus => {
                self.negative = !self.negative;
                Ok(Fed::More(Want::Expanded))
            }
            Beginning::Digit(digit) => Ok(self.on(IntStage::Digits(first(Radix::Decimal, digit)))),
            Beginning::Digits(radix) => Ok(self.on(IntStage::FirstDigit(radix))),
            Beginning::Character => {
                self.stage = IntStage::Character;
                Ok(Fed::More(Want::Raw))
            }
            Beginning::Number(number) => Ok(self.whole(
                signed(self.negative, i64::from(number)),
                0,
            )),
            Beginning::At(place) => {
                self.stage = IntStage::Given(0);
                Ok(Fed::Need(Kind::Quantity(place)))
            }
            Beginning::Numbered(kind) => self.wait(Counted::Numbered(kind)),
            Beginning::FontDimen => self.wait(Counted::FontDimen),
            Beginning::FontInteger(kind) => Ok(self.on(IntStage::Font(FontSought::Integer(kind)))),
            Beginning::Point => Ok(Fed::Wrong(TexError::MissingNumber)),
            Beginning::Nothing(error) => Ok(Fed::Wrong(error)),
        }
    }

    /// The first digit of an octal or hexadecimal constant.
    #[inline(never)]
    fn feed_first_digit(&mut self, radix: Radix, token: &Seen) -> Fed<i64>
        requires { self.old.stage ≡ IntStage.FirstDigit radix }
        ensures fed { IsFed self.old token.now self.new result }
        ensures within { IsInteger result }
        ensures waits { NeedsNoMore (waiting self.old) (waiting self.new) result }
        ensures holds { NeedsNoMore (waiting self.old) (waiting self.new + rests.held self.new) result }
        ensures told { IsTold token.now self.new result }
    {
        match digit(radix, token) {
            Some(digit) => self.on(IntStage::Digits(first(radix, digit))),
            None => Fed::Wrong(if token.is_undefined() {
                TexError::Undefined
            } else {
                TexError::MissingNumber
            }),
        }
    }

    /// One more digit, or what ends the number.
    fn feed_digit(&mut self, constant: Constant, token: &Seen) -> Fed<i64>
        requires { self.old.stage ≡ IntStage.Digits constant }
        ensures fed { IsFed self.old token.now self.new result }
        ensures within { IsInteger result }
        ensures waits { NeedsNoMore (waiting self.old) (waiting self.new) result }
        ensures holds { NeedsNoMore (waiting self.old) (waiting self.new + rests.held self.new) result }
        ensures told { IsTold token.now self.new result }
    {
        let Some(digit) = digit(constant.radix, token) else {
            return self.end(constant.number, token);
        };
        match longer(constant, digit) {
            Some(constant) => self.on(IntStage::Digits(constant)),
            None => Fed::Wrong(TexError::IntegerTooLarge),
        }
    }

    /// The character behind a backquote.
    #[inline(never)]
    fn feed_character(&mut self, token: &Seen) -> Fed<i64>
        requires { self.old.stage ≡ IntStage.Character }
        ensures fed { IsFed self.old token.now self.new result }
        ensures within { IsInteger result }
        ensures waits { NeedsNoMore (waiting self.old) (waiting self.new) result }
        ensures holds { NeedsNoMore (waiting self.old) (waiting self.new + rests.held self.new) result }
        ensures told { IsTold token.now self.new result }
    {
        match character_named(&token.token) {
            Some(code) => self.on(IntStage::AfterCharacter(code)),
            None => Fed::Wrong(TexError::MissingNumber),
        }
    }
}
