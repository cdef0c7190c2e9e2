//! Dimensions, token by token (TeX: The Program, sections 448 to 458).
ghost use Rattle.std.specs.Prelude.{◌≡◌, ◌≤◌, ◌≤ℤ◌, ◌∷◌, ◌++◌, ◌&&◌, [], ℕ, pos, neg_ℤ, unsigned_abs, List, IfOk};
ghost use Rattle.tx_num.specs.Decimals.{fraction_of};
ghost use Rattle.tx_num.specs.Fractions.{signed};
ghost use Rattle.tx_num.specs.Units.{size_of};
ghost use Rattle.tx_seen.specs.Seen.{is_point};
ghost use Rattle.tx_seen.specs.declared.item.Item.{Item};
ghost use Rattle.tx_seen.specs.declared.item.Item.TheVariants.{Took, Gave};
ghost use Rattle.tx_seen.specs.declared.seen.Seen.{Seen};
ghost use Rattle.tx_seen.specs.Readings.{Answers, next};
ghost use Rattle.tx_scan.specs.Dimensions.{dimension, ended_with, sized, in_mu, is_decimal, numbered_unit, quantified, spelled, unit_ended, unit_name};
ghost use Rattle.tx_scan.specs.Dimensions as spec;
ghost use Rattle.tx_scan.specs.Dimensions.{True_unit};
ghost use Rattle.tx_scan.specs.Integers.{given, integer, IsInRange};
ghost use Rattle.tx_scan.specs.IntegerRests as integers;
ghost use Rattle.tx_scan.specs.declared.scans.Units.{Units as Units_of_size};
ghost use Rattle.tx_scan.specs.Rests.{IsFedBy, IsGivenBy, IsEnd};
ghost use Rattle.tx_scan.specs.Supplied.{NeedsFewer, NeedsNoMore};
ghost use Rattle.tx_scan.specs.DimensionRests.{count_held, HasTaken, IsFed, IsMeasuring, IsSize, IsUnit, begun_size, begun_size_behind, held, held_items, more_needed, name_ended, part_of, rest};
ghost use Rattle.tx_scan.specs.Beginnings as beginnings;
ghost use Rattle.tx_scan.specs.Mapped.{fed_if, settled};

use crate::beginnings::{beginning, digit};
use crate::fraction::Digits;
use crate::integer::{character_named, first, longer, number_given};
use crate::scans::{
    Amount, Beginning, Constant, DimenScan, DimenStage, IntScan, Letters, Measure, Order, Portion,
    QuantityScan, Radix, Sought, Spelled, UnitName, Units,
};
use crate::units::{
    first_letter, first_letter_behind_true, is_internal, letter_on, magnified, raised,
};
use std::alloc::{AllocError, Global};
use tx_num::PhysicalUnit;
use tx_seen::{Fed, FontSize, Kind, Place, Seen, TexError, Value, Want};

impl DimenScan {
    /// The scan of a dimension of which nothing is read: in mu alone or in all other units, with the infinite ones or without.
    /// It takes no memory.
    pub fn new(alloc: Global, mu: bool, infinite: bool) -> DimenScan
        ensures scan { result ≡ begun_size (record { mu = mu; infinite = infinite }) }
        ensures taken { HasTaken (record { mu = mu; infinite = infinite }) result [] }
    {
        DimenScan {
            units: Units { mu, infinite },
            negative: false,
            stage: DimenStage::Signs,
            digits: Digits::new(alloc),
            magnified: None,
            number: IntScan::new(alloc),
            quantity: QuantityScan::new(alloc),
            behind: None,
        }
    }

    /// Forgets what was read, in the memory that it has, for a dimension in such units.
    pub fn restart(&mut self, mu: bool, infinite: bool)
        ensures scan { self.new ≡ begun_size (record { mu = mu; infinite = infinite }) }
        ensures taken { HasTaken (record { mu = mu; infinite = infinite }) self.new [] }
    {
        self.restart_behind(mu, infinite, false);
    }

    /// Forgets what was read, in the memory that it has, for a dimension in such units behind signs that make it negative or
    /// don't.
    pub(crate) fn restart_behind(&mut self, mu: bool, infinite: bool, negative: bool)
        ensures { self.new ≡ begun_size_behind negative (record { mu = mu; infinite = infinite }) }
    {
        self.units = Units { mu, infinite };
        self.negative = negative;
        self.stage = DimenStage::Signs;
        self.digits.clear();
        self.magnified = None;
        self.number.restart();
        self.quantity.restart();
        self.behind = None;
    }

    /// The fraction behind whole units, in 65536ths.
    fn part(&self) -> u32
        ensures value { result ≡ part_of self.now.magnified self.now.digits }
        ensures bound { result ≤ 65536 }
    {
        match self.magnified {
            Some(portion) => portion.part,
            None => self.digits.value(),
        }
    }

    /// Takes one token, at first and after More. The answer is what reading gives of all that was taken. Its only error is
    /// want of memory.
    pub fn feed(&mut self, token: &Seen) -> Result<Fed<Measure>, AllocError>
        ensures answer { (units : Units_of_size) → (taken : List Item) → HasTaken units self.old taken → IfOk result (Answers (dimension units) (HasTaken units) (taken ++ Took token.now ∷ []) self.new) }
        ensures part { IfOk result (IsFedBy rest held self.old token.now self.new) }
        ensures fed { IfOk result (IsFed self.old token.now self.new) }
        ensures size { IfOk result IsSize }
        ensures needed { IfOk result (NeedsNoMore (more_needed self.old) (more_needed self.new)) }
    {
        self.behind(token)
    }

    /// What it is behind one more token. Its only error is want of memory.
    fn behind(&mut self, token: &Seen) -> Result<Fed<Measure>, AllocError>
        ensures fed { IfOk result (IsFed self.old token.now self.new) }
        ensures size { IfOk result IsSize }
        ensures needed { IfOk result (NeedsNoMore (more_needed self.old) (more_needed self.new)) }
    {
        match self.stage {
            DimenStage::Signs => self.feed_sign(token),
            DimenStage::FirstDigit(radix) => Ok(self.feed_first_digit(radix, token)),
            DimenStage::Digits(constant) => self.feed_digit(constant, token),
            DimenStage::Fraction(whole) => self.feed_fraction(whole, token),
            DimenStage::Character => Ok(self.feed_character(token)),
            DimenStage::AfterCharacter(code) => self.feed_after_character(code, token),
            DimenStage::Coefficient => self.feed_coefficient(token),
            DimenStage::Quantity(amount) => self.feed_quantity(amount, token),
            DimenStage::Mathematical(amount) => {
                let fed = self.quantity.feed(token)?;
                Ok(self.mathematical(amount, fed))
            }
            DimenStage::Magnification(_) | DimenStage::FontUnit(_, _, _) => {
                Ok(Fed::Wrong(TexError::MissingNumber))
            }
            DimenStage::TrueUnit(whole, portion) => {
                Ok(self.feed_true_unit(whole, portion, token))
            }
            DimenStage::Unit(whole) => self.feed_unit(whole, token),
            DimenStage::Name(whole, letters) => Ok(self.feed_letter(whole, letters, token)),
            DimenStage::AfterUnit(whole, unit) => Ok(self.feed_end(whole, unit, token)),
            DimenStage::AfterFil(whole, order) => Ok(self.feed_fil(whole, order, token)),
        }
    }

    /// Takes the value that it needs. The answer is what reading gives of all that was taken. Its only error is want of
    /// memory.
    pub fn give(&mut self, value: &Value) -> Result<Fed<Measure>, AllocError>
        ensures answer { (units : Units_of_size) → (taken : List Item) → HasTaken units self.old taken → IfOk result (Answers (dimension units) (HasTaken units) (taken ++ Gave value.now ∷ []) self.new) }
        ensures part { IfOk result (IsGivenBy rest held self.old value.now self.new) }
        ensures size { IfOk result IsSize }
        ensures fewer { IfOk result (NeedsFewer (more_needed self.old) (more_needed self.new)) }
    {
        self.behind_value(value)
    }

    /// What it is behind a value. Its only error is want of memory.
    fn behind_value(&mut self, value: &Value) -> Result<Fed<Measure>, AllocError>
        ensures part { IfOk result (IsGivenBy rest held self.old value.now self.new) }
        ensures size { IfOk result IsSize }
        ensures fewer { IfOk result (NeedsFewer (more_needed self.old) (more_needed self.new)) }
    {
        match self.stage {
            DimenStage::Coefficient => self.give_coefficient(value),
            DimenStage::Quantity(amount) => Ok(self.give_quantity(amount, value)),
            DimenStage::Mathematical(amount) => {
                let fed = self.quantity.give(value);
                Ok(self.mathematical(amount, fed))
            }
            DimenStage::Magnification(whole) => Ok(self.give_magnification(whole, value)),
            DimenStage::FontUnit(whole, _, held) => Ok(self.give_font_unit(whole, value, held)),
            DimenStage::Signs | DimenStage::FirstDigit(_) | DimenStage::Digits(_) => {
                Ok(Fed::Wrong(TexError::MissingNumber))
            }
            DimenStage::Fraction(_) | DimenStage::Character | DimenStage::AfterCharacter(_) => {
                Ok(Fed::Wrong(TexError::MissingNumber))
            }
            DimenStage::Unit(_) | DimenStage::TrueUnit(_, _) | DimenStage::Name(_, _) => {
                Ok(Fed::Wrong(TexError::MissingNumber))
            }
            DimenStage::AfterUnit(_, _) | DimenStage::AfterFil(_, _) => {
                Ok(Fed::Wrong(TexError::MissingNumber))
            }
        }
    }

    /// The scan goes on with this stage, for which the next token is expanded.
    fn on(&mut self, stage: DimenStage) -> Fed<Measure>
        ensures scan { self.new ≡ record self.old { stage = stage } }
        ensures answer { result ≡ Fed.More Want.Expanded }
    {
        self.stage = stage;
        Fed::More(Want::Expanded)
    }

    /// Signs and spaces, or what begins the factor. Its only error is want of memory.
    #[inline(never)]
    fn feed_sign(&mut self, token: &Seen) -> Result<Fed<Measure>, AllocError>
        requires { self.old.stage ≡ DimenStage.Signs }
        ensures fed { IfOk result (IsFed self.old token.now self.new) }
        ensures size { IfOk result IsSize }
        ensures needed { IfOk result (NeedsNoMore (more_needed self.old) (more_needed self.new)) }
    {
        match beginning(token) {
            Beginning::Plus => Ok(Fed::More(Want::Expanded)),
            Beginning::Minus => {
                self.negative = !self.negative;
                Ok(Fed::More(Want::Expanded))
            }
            Beginning::Digit(digit) => Ok(self.on(DimenStage::Digits(first(
                Radix::Decimal,
                digit,
            )))),
            Beginning::Digits(radix) => Ok(self.on(DimenStage::FirstDigit(radix))),
            Beginning::Point => {
                self.digits.clear();
                Ok(self.on(DimenStage::Fraction(0)))
            }
            Beginning::Character => {
                self.stage = DimenStage::Character;
                Ok(Fed::More(Want::Raw))
            }
            Beginning::Number(_) => self.begin_quantity(false, token),
            Beginning::At(place) => self.begin_quantity(place.has_size(), token),
            Beginning::Numbered(kind) => {
                self.begin_quantity(Place::numbered(kind, 0).has_size(), token)
            }
            Beginning::FontDimen => self.begin_quantity(true, token),
            Beginning::FontInteger(_) => self.begin_quantity(false, token),
            Beginning::Nothing(error) => Ok(Fed::Wrong(error)),
        }
    }

    /// An internal quantity: a size is the dimension, a number its factor. Its only error is want of memory.
    #[inline(never)]
    fn begin_quantity(&mut self, is_size: bool, token: &Seen) -> Result<Fed<Measure>, AllocError>
        ensures fed { IfOk result (IsMeasuring 0 (λ more. quantified self.old.units self.old.negative is_size (integer (Took token.now ∷ more)) (beginnings.beginning token.now) more) token.now self.new) }
        ensures size { IfOk result IsSize }
        ensures needed { IfOk result (NeedsNoMore 0 (more_needed self.new)) }
    {
        self.number.restart();
        if !is_size {
            return self.feed_coefficient(token);
        }
        if self.units.mu {
            return Ok(self.begin_mathematical(Amount::Whole, beginning(token)));
        }
        self.feed_quantity(Amount::Whole, token)
    }

    /// A number that is the factor, or what ends it. Its only error is want of memory.
    #[inline(never)]
    fn feed_coefficient(&mut self, token: &Seen) -> Result<Fed<Measure>, AllocError>
        ensures fed { IfOk result (IsMeasuring (integers.most self.old.number) (λ more. next (integers.rest self.old.number (held_items (integers.held self.old.number) self.old.behind) (Took token.now) more) (numbered_unit self.old.units self.old.negative)) token.now self.new) }
        ensures size { IfOk result IsSize }
        ensures needed { IfOk result (NeedsNoMore (integers.waiting self.old.number) (more_needed self.new)) }
    {
        self.stage = DimenStage::Coefficient;
        match self.number.feed(token)? {
            Fed::More(want) => Ok(Fed::More(want)),
            Fed::Need(kind) => {
                self.behind = Some(token.clone()?);
                Ok(Fed::Need(kind))
            }
            Fed::Done(number, 0) => Ok(self.to_unit(number)),
            Fed::Done(number, _) => self.feed_numbered(number, token),
            Fed::Wrong(error) => Ok(Fed::Wrong(error)),
        }
    }

    /// The value that the factor waits for. Its only error is want of memory.
    fn give_coefficient(&mut self, value: &Value) -> Result<Fed<Measure>, AllocError>
        requires { self.old.stage ≡ DimenStage.Coefficient }
        ensures part { IfOk result (IsGivenBy rest held self.old value.now self.new) }
        ensures size { IfOk result IsSize }
        ensures fewer { IfOk result (NeedsFewer (more_needed self.old) (more_needed self.new)) }
    {
        match self.number.give(value) {
            Fed::More(want) => Ok(Fed::More(want)),
            Fed::Need(kind) => Ok(Fed::Need(kind)),
            Fed::Done(number, 0) => Ok(self.to_unit(number)),
            Fed::Done(number, _) => match self.behind.take() {
                Some(token) => self.feed_numbered(number, &token),
                None => Ok(self.to_unit(number)),
            },
            Fed::Wrong(error) => Ok(Fed::Wrong(error)),
        }
    }

    /// An internal number is the factor.
    fn numbered(&mut self, number: i64)
        requires { IsInRange number }
        ensures { self.new ≡ record self.old { negative = spec.turned self.old.negative number; digits = [] } }
    {
        self.negative = turned(self.negative, number);
        self.digits.clear();
    }

    /// The unit behind an internal number comes next.
    fn to_unit(&mut self, number: i64) -> Fed<Measure>
        requires { IsInRange number }
        ensures fed { (t : Seen) → IsMeasuring 0 (λ more. numbered_unit self.old.units self.old.negative number more) t self.new result }
        ensures size { IsSize result }
        ensures needed { NeedsNoMore 0 (more_needed self.new) result }
        ensures fewer { NeedsFewer 0 (more_needed self.new) result }
    {
        self.numbered(number);
        self.on(DimenStage::Unit(magnitude(number)))
    }

    /// The first token of the unit behind an internal number. Its only error is want of memory.
    fn feed_numbered(&mut self, number: i64, token: &Seen) -> Result<Fed<Measure>, AllocError>
        requires { IsInRange number }
        ensures fed { IfOk result (IsMeasuring 0 (λ more. numbered_unit self.old.units self.old.negative number (Took token.now ∷ more)) token.now self.new) }
        ensures size { IfOk result IsSize }
        ensures needed { IfOk result (NeedsNoMore 0 (more_needed self.new)) }
    {
        self.numbered(number);
        self.feed_unit(magnitude(number), token)
    }

    /// An internal quantity that has to be told in mu.
    #[inline(never)]
    fn begin_mathematical(&mut self, amount: Amount, beginning: Beginning) -> Fed<Measure>
        ensures fed { (t : Seen) → IsMeasuring 0 (λ more. in_mu self.old.negative (fraction_of self.old.digits) amount beginning more) t self.new result }
        ensures size { IsSize result }
        ensures needed { NeedsNoMore 0 (more_needed self.new) result }
    {
        self.stage = DimenStage::Mathematical(amount);
        match beginning {
            Beginning::At(place) => {
                let fed = self.quantity.begin_at(place);
                self.mathematical(amount, fed)
            }
            Beginning::Numbered(kind) => {
                let fed = self.quantity.begin_behind(Sought::Numbered(kind));
                self.mathematical(amount, fed)
            }
            Beginning::FontDimen => {
                let fed = self.quantity.begin_parameter();
                self.mathematical(amount, fed)
            }
            Beginning::FontInteger(kind) => {
                let fed = self.quantity.begin_font(kind);
                self.mathematical(amount, fed)
            }
            Beginning::Number(_) => Fed::Wrong(TexError::MissingUnit),
            Beginning::Plus | Beginning::Minus | Beginning::Digit(_) | Beginning::Digits(_) => {
                Fed::Wrong(TexError::MissingNumber)
            }
            Beginning::Character | Beginning::Point | Beginning::Nothing(_) => {
                Fed::Wrong(TexError::MissingNumber)
            }
        }
    }

    /// What becomes of the dimension by what the scan of a quantity answers that has to be told in mu.
    #[inline(never)]
    fn mathematical(&self, amount: Amount, fed: Fed<Value>) -> Fed<Measure>
        ensures answer { result ≡ settled (spec.mathematical self.now.negative (fraction_of self.now.digits) amount) fed }
        ensures size { IsSize result }
    {
        match fed {
            Fed::More(want) => Fed::More(want),
            Fed::Need(kind) => Fed::Need(kind),
            Fed::Done(value, back) => self.in_mu(amount, &value, back),
            Fed::Wrong(error) => Fed::Wrong(error),
        }
    }

    /// The dimension that such a quantity is, where so many tokens are given back.
    fn in_mu(&self, amount: Amount, value: &Value, back: usize) -> Fed<Measure>
        ensures answer { result ≡ fed_if (spec.mathematical self.now.negative (fraction_of self.now.digits) amount value.now) back }
        ensures size { IsSize result }
    {
        match value {
            Value::Muglue(glue) => self.amounts(amount, glue.width(), back),
            Value::Int(_) | Value::Dimen(_) | Value::Glue(_) | Value::Magnification(_) => {
                Fed::Wrong(TexError::MissingUnit)
            }
            Value::Flag(_) | Value::Absent | Value::OutOfRange => {
                Fed::Wrong(TexError::MissingUnit)
            }
        }
    }

    /// The magnification behind `true`, by which so many whole units and their fraction are divided.
    fn give_magnification(&mut self, whole: u32, value: &Value) -> Fed<Measure>
        requires { self.old.stage ≡ DimenStage.Magnification whole }
        ensures part { IsGivenBy rest held self.old value.now self.new result }
        ensures size { IsSize result }
        ensures fewer { NeedsFewer (more_needed self.old) (more_needed self.new) result }
    {
        match value {
            Value::Magnification(0) | Value::Absent => Fed::Wrong(TexError::BadMagnification),
            Value::Magnification(magnification) => {
                let (whole, part) = magnified(whole, self.digits.value(), *magnification);
                self.on(DimenStage::TrueUnit(whole, Portion { part }))
            }
            Value::Int(_) | Value::Dimen(_) | Value::Glue(_) | Value::Muglue(_) => {
                Fed::Wrong(TexError::MissingNumber)
            }
            Value::Flag(_) | Value::OutOfRange => Fed::Wrong(TexError::MissingNumber),
        }
    }

    /// The size of the current font that is the unit, behind which a token is held or none.
    fn give_font_unit(&self, whole: u32, value: &Value, held: bool) -> Fed<Measure>
        ensures end { IsEnd (λ more. next (given (Gave value.now) more) (λ size more. ended_with self.now.negative (part_of self.now.magnified self.now.digits) (Amount.Times whole) size more)) (count_held held) result }
        ensures size { IsSize result }
        ensures needed { (old new : ℕ) → NeedsFewer old new result }
    {
        match number_given(value) {
            Ok(size) => self.measured(self.part(), Amount::Times(whole), size, usize::from(held)),
            Err(error) => Fed::Wrong(error),
        }
    }

    /// A space before the unit behind `true`, or the first letter of its name.
    #[inline(never)]
    fn feed_true_unit(&mut self, whole: u32, portion: Portion, token: &Seen) -> Fed<Measure>
        requires { self.old.stage ≡ DimenStage.TrueUnit whole portion }
        ensures fed { IsFed self.old token.now self.new result }
        ensures size { IsSize result }
        ensures needed { NeedsNoMore (more_needed self.old) (more_needed self.new) result }
    {
        if token.is_undefined() {
            return Fed::Wrong(TexError::Undefined);
        }
        if token.is_space() {
            return self.on(DimenStage::TrueUnit(whole, portion));
        }
        self.magnified = Some(portion);
        self.named(whole, first_letter_behind_true(token))
    }

    /// An internal quantity that ends the dimension, or what ends it. Its only error is want of memory.
    #[inline(never)]
    fn feed_quantity(&mut self, amount: Amount, token: &Seen) -> Result<Fed<Measure>, AllocError>
        ensures fed { IfOk result (λ answer. (behind : List Item) → IsMeasuring (integers.most self.old.number) (λ more. next (integers.rest self.old.number behind (Took token.now) more) (ended_with self.old.negative (fraction_of self.old.digits) amount)) token.now self.new answer) }
        ensures size { IfOk result IsSize }
        ensures needed { IfOk result (NeedsNoMore (integers.waiting self.old.number) (more_needed self.new)) }
    {
        self.stage = DimenStage::Quantity(amount);
        match self.number.feed(token)? {
            Fed::More(want) => Ok(Fed::More(want)),
            Fed::Need(kind) => Ok(Fed::Need(kind)),
            Fed::Done(number, back) => Ok(self.amounts(amount, number, back)),
            Fed::Wrong(error) => Ok(Fed::Wrong(error)),
        }
    }

    /// The value that such a quantity waits for.
    fn give_quantity(&mut self, amount: Amount, value: &Value) -> Fed<Measure>
        requires { self.old.stage ≡ DimenStage.Quantity amount }
        ensures part { IsGivenBy rest held self.old value.now self.new result }
        ensures size { IsSize result }
        ensures fewer { NeedsFewer (more_needed self.old) (more_needed self.new) result }
    {
        match self.number.give(value) {
            Fed::More(want) => Fed::More(want),
            Fed::Need(kind) => Fed::Need(kind),
            Fed::Done(number, back) => self.amounts(amount, number, back),
            Fed::Wrong(error) => Fed::Wrong(error),
        }
    }

    /// The quantity is whole, and so is the dimension; so many tokens behind it are given back.
    fn amounts(&self, amount: Amount, number: i64, back: usize) -> Fed<Measure>
        requires { IsInRange number }
        ensures end { IsEnd (λ more. ended_with self.now.negative (fraction_of self.now.digits) amount number more) back result }
        ensures size { IsSize result }
        ensures needed { (old new : ℕ) → NeedsFewer old new result }
    {
        self.measured(self.digits.value(), amount, number, back)
    }

    /// So much of a size is the dimension, with such a part; so many tokens behind it are given back.
    fn measured(&self, part: u32, amount: Amount, number: i64, back: usize) -> Fed<Measure>
        requires range { IsInRange number }
        requires part { part ≤ 65536 }
        ensures end { IsEnd (λ more. ended_with self.now.negative part amount number more) back result }
        ensures size { IsSize result }
        ensures needed { (old new : ℕ) → NeedsFewer old new result }
    {
        let size = amount_of(part, amount, magnitude(number));
        if size > MAX_DIMENSION {
            return Fed::Wrong(TexError::DimensionTooLarge);
        }
        let size = signed_size(turned(self.negative, number), size as i64);
        Fed::Done(
            Measure {
                size,
                order: Order::Normal,
            },
            back,
        )
    }

    /// The first digit of an octal or hexadecimal factor.
    #[inline(never)]
    fn feed_first_digit(&mut self, radix: Radix, token: &Seen) -> Fed<Measure>
        requires { self.old.stage ≡ DimenStage.FirstDigit radix }
        ensures fed { IsFed self.old token.now self.new result }
        ensures size { IsSize result }
        ensures needed { NeedsNoMore (more_needed self.old) (more_needed self.new) result }
    {
        match digit(radix, token) {
            Some(digit) => self.on(DimenStage::Digits(first(radix, digit))),
            None => Fed::Wrong(if token.is_undefined() {
                TexError::Undefined
            } else {
                TexError::MissingNumber
            }),
        }
    }

    /// One more digit of whole units, or what ends them. Its only error is want of memory.
    fn feed_digit(&mut self, constant: Constant, token: &Seen) -> Result<Fed<Measure>, AllocError>
        requires { self.old.stage ≡ DimenStage.Digits constant }
        ensures fed { IfOk result (IsFed self.old token.now self.new) }
        ensures size { IfOk result IsSize }
        ensures needed { IfOk result (NeedsNoMore (more_needed self.old) (more_needed self.new)) }
    {
        if let Some(digit) = digit(constant.radix, token) {
            return match longer(constant, digit) {
                Some(constant) => Ok(self.on(DimenStage::Digits(constant))),
                None => Ok(Fed::Wrong(TexError::IntegerTooLarge)),
            };
        }
        self.digits.clear();
        if begins_fraction(constant.radix, token) {
            return Ok(self.on(DimenStage::Fraction(constant.number)));
        }
        self.feed_unit(constant.number, token)
    }

    /// One more digit of a fraction, or what ends it. Its only error is want of memory.
    fn feed_fraction(&mut self, whole: u32, token: &Seen) -> Result<Fed<Measure>, AllocError>
        requires { self.old.stage ≡ DimenStage.Fraction whole }
        ensures fed { IfOk result (IsFed self.old token.now self.new) }
        ensures size { IfOk result IsSize }
        ensures needed { IfOk result (NeedsNoMore (more_needed self.old) (more_needed self.new)) }
    {
        let Some(digit) = digit(Radix::Decimal, token) else {
            return self.feed_unit(whole, token);
        };
        self.digits.push(digit)?;
        Ok(Fed::More(Want::Expanded))
    }

    /// The character behind a backquote.
    #[inline(never)]
    fn feed_character(&mut self, token: &Seen) -> Fed<Measure>
        requires { self.old.stage ≡ DimenStage.Character }
        ensures fed { IsFed self.old token.now self.new result }
        ensures size { IsSize result }
        ensures needed { NeedsNoMore (more_needed self.old) (more_needed self.new) result }
    {
        match character_named(&token.token) {
            Some(code) => self.on(DimenStage::AfterCharacter(code)),
            None => Fed::Wrong(TexError::MissingNumber),
        }
    }

    /// An optional space behind a character's code. Its only error is want of memory.
    #[inline(never)]
    fn feed_after_character(&mut self, code: u8, token: &Seen) -> Result<Fed<Measure>, AllocError>
        requires { self.old.stage ≡ DimenStage.AfterCharacter code }
        ensures fed { IfOk result (IsFed self.old token.now self.new) }
        ensures size { IfOk result IsSize }
        ensures needed { IfOk result (NeedsNoMore (more_needed self.old) (more_needed self.new)) }
    {
        self.digits.clear();
        self.feed_unit(u32::from(code), token)
    }

    /// A space before the unit, an internal quantity that is one, or the first letter of its name. Its only error is want of
    /// memory.
    fn feed_unit(&mut self, whole: u32, token: &Seen) -> Result<Fed<Measure>, AllocError>
        ensures fed { IfOk result (IsUnit self.old.units self.old.negative whole self.old.digits token.now self.new) }
        ensures size { IfOk result IsSize }
        ensures needed { IfOk result (NeedsNoMore 0 (more_needed self.new)) }
    {
        if token.is_undefined() {
            return Ok(Fed::Wrong(TexError::Undefined));
        }
        if token.is_space() {
            return Ok(self.on(DimenStage::Unit(whole)));
        }
        let begun = beginning(token);
        if is_internal(&begun) {
            if self.units.mu {
                return Ok(self.begin_mathematical(Amount::Times(whole), begun));
            }
            self.number.restart();
            return self.feed_quantity(Amount::Times(whole), token);
        }
        self.magnified = None;
        Ok(self.named(whole, first_letter(self.units, token)))
    }

    /// What one more letter makes of a unit's name.
    fn named(&mut self, whole: u32, spelling: Spelled) -> Fed<Measure>
        ensures fed { (t : Seen) → IsMeasuring 0 (λ more. next (spelled (λ letters. unit_name self.old.units letters more) spelling more) (name_ended self.old.magnified self.old.units self.old.negative whole (fraction_of self.old.digits))) t self.new result }
        ensures size { IsSize result }
        ensures needed { NeedsNoMore 0 (more_needed self.new) result }
    {
        match spelling {
            Spelled::On(letters) => self.on(DimenStage::Name(whole, letters)),
            Spelled::Whole(unit) => self.on(DimenStage::AfterUnit(whole, unit)),
            Spelled::Infinite => self.on(DimenStage::AfterFil(whole, Order::Fil)),
            Spelled::True => self.to_magnification(whole),
            Spelled::No => Fed::Wrong(TexError::MissingUnit),
        }
    }

    /// The magnification is needed behind `true`, which stands once.
    fn to_magnification(&mut self, whole: u32) -> Fed<Measure>
        ensures fed { (t : Seen) → IsMeasuring 0 (λ more. name_ended self.old.magnified self.old.units self.old.negative whole (fraction_of self.old.digits) True_unit more) t self.new result }
        ensures size { IsSize result }
        ensures needed { NeedsNoMore 0 (more_needed self.new) result }
    {
        if self.magnified.is_some() {
            return Fed::Wrong(TexError::MissingUnit);
        }
        self.stage = DimenStage::Magnification(whole);
        Fed::Need(Kind::Quantity(Place::Magnification))
    }

    /// One more letter of a unit's name.
    fn feed_letter(&mut self, whole: u32, letters: Letters, token: &Seen) -> Fed<Measure>
        requires { self.old.stage ≡ DimenStage.Name whole letters }
        ensures fed { IsFed self.old token.now self.new result }
        ensures size { IsSize result }
        ensures needed { NeedsNoMore (more_needed self.old) (more_needed self.new) result }
    {
        if token.is_undefined() {
            return Fed::Wrong(TexError::Undefined);
        }
        self.named(whole, letter_on(self.units, letters, token))
    }

    /// An optional space behind the unit; the dimension is whole.
    fn feed_end(&mut self, whole: u32, unit: UnitName, token: &Seen) -> Fed<Measure>
        requires { self.old.stage ≡ DimenStage.AfterUnit whole unit }
        ensures fed { IsFed self.old token.now self.new result }
        ensures size { IsSize result }
        ensures needed { NeedsNoMore (more_needed self.old) (more_needed self.new) result }
    {
        if token.is_undefined() {
            return Fed::Wrong(TexError::Undefined);
        }
        let held = !token.is_space();
        match unit {
            UnitName::Physical(unit) => self.told(unit, whole, usize::from(held)),
            UnitName::Mathematical => self.told(PhysicalUnit::Point, whole, usize::from(held)),
            UnitName::Font(size) => self.to_font_unit(whole, size, held),
        }
    }

    /// So many of such units are the dimension, behind which so many tokens are given back.
    fn told(&self, unit: PhysicalUnit, whole: u32, back: usize) -> Fed<Measure>
        ensures end { IsEnd (λ more. sized self.now.negative (size_of unit whole (part_of self.now.magnified self.now.digits)) Order.Normal more) back result }
        ensures size { IsSize result }
        ensures needed { (old new : ℕ) → NeedsNoMore old new result }
    {
        match unit.to_scaled(whole, self.part()) {
            Ok(size) => {
                let size = signed_size(self.negative, size);
                let measure = Measure {
                    size,
                    order: Order::Normal,
                };
                Fed::Done(measure, back)
            }
            Err(_) => Fed::Wrong(TexError::DimensionTooLarge),
        }
    }

    /// A size of the current font is needed as the unit, where a token is held or none.
    fn to_font_unit(&mut self, whole: u32, size: FontSize, held: bool) -> Fed<Measure>
        ensures scan { self.new ≡ record self.old { stage = DimenStage.FontUnit whole size held } }
        ensures answer { result ≡ Fed.Need (Kind.Quantity (Place.FontSize size)) }
    {
        self.stage = DimenStage::FontUnit(whole, size, held);
        Fed::Need(Kind::Quantity(Place::FontSize(size)))
    }

    /// A space behind `fil`, or an l of it, or what is behind it all.
    #[inline(never)]
    fn feed_fil(&mut self, whole: u32, order: Order, token: &Seen) -> Fed<Measure>
        requires { self.old.stage ≡ DimenStage.AfterFil whole order }
        ensures fed { IsFed self.old token.now self.new result }
        ensures size { IsSize result }
        ensures needed { NeedsNoMore (more_needed self.old) (more_needed self.new) result }
    {
        if token.is_undefined() {
            return Fed::Wrong(TexError::Undefined);
        }
        if token.is_space() {
            return Fed::More(Want::Expanded);
        }
        if token.is_key(b'l') {
            return match raised(order) {
                Some(order) => self.on(DimenStage::AfterFil(whole, order)),
                None => Fed::Wrong(TexError::MissingUnit),
            };
        }
        match PhysicalUnit::Point.to_scaled(whole, self.part()) {
            Ok(size) => {
                let size = signed_size(self.negative, size);
                Fed::Done(Measure { size, order }, 1)
            }
            Err(_) => Fed::Wrong(TexError::DimensionTooLarge),
        }
    }
}

/// Whether the token is the point behind the whole units of a decimal factor.
fn begins_fraction(radix: Radix, token: &Seen) -> bool
    ensures { result ≡ (is_decimal radix && is_point token.now) }
{
    radix.is_decimal() && token.is_point()
}

/// A size with its sign.
fn signed_size(negative: bool, size: i64) -> i64
    requires low { pos 0 ≤ℤ size }
    requires high { size ≤ℤ pos 1073741823 }
    ensures value { (n : ℕ) → size ≡ pos n → result ≡ signed negative n }
    ensures low { neg_ℤ (pos 1073741823) ≤ℤ result }
    ensures high { result ≤ℤ pos 1073741823 }
{
    if negative { -size } else { size }
}

/// The greatest dimension, in sp.
const MAX_DIMENSION: u64 = 1_073_741_823;

/// Whether the signs and a number make it negative.
fn turned(negative: bool, number: i64) -> bool
    ensures { result ≡ spec.turned negative number }
{
    if number < 0 { !negative } else { negative }
}

/// An integer without its sign.
fn magnitude(number: i64) -> u32
    requires { IsInRange number }
    ensures value { result ≡ unsigned_abs number }
    ensures bound { result ≤ 2147483647 }
{
    number.unsigned_abs() as u32
}

/// So much of a size.
fn amount_of(part: u32, amount: Amount, size: u32) -> u64
    requires size { size ≤ 2147483647 }
    requires part { part ≤ 65536 }
    ensures { result ≡ spec.amount part amount size }
{
    match amount {
        Amount::Whole => u64::from(size),
        Amount::Times(whole) => {
            u64::from(size) * u64::from(whole) + u64::from(size) * u64::from(part) / 65536
        }
    }
}
