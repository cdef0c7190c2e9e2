//! Internal quantities: what stands at a place, or at a number of a kind (TeX: The Program, section 413).
ghost use Rattle.std.specs.Prelude.{◌≡◌, IfOk};
ghost use Rattle.tx_scan.specs.Quantities as spec;
ghost use Rattle.tx_scan.specs.FontNames.{place_of_font};
ghost use Rattle.tx_scan.specs.QuantityRests.{IsFed, IsFontSought, IsNumbered, IsParameter, begun_quantity, begun_at_font, begun_at_number, begun_at_parameter, held, more_needed, rest};
ghost use Rattle.tx_scan.specs.Rests.{IsFedBy, IsGivenBy};
ghost use Rattle.tx_scan.specs.Supplied.{NeedsFewer, NeedsNoMore};

use crate::integer::{byte, parameter};
use crate::scans::{FontScan, FontSought, IntScan, QuantityScan, QuantityStage, Sought};
use std::alloc::{AllocError, Global};
use tx_prim::FontNumber;
use tx_seen::{Fed, FontName, Kind, Place, Seen, TexError, Value, Want};

impl Sought {
    /// The place of this number.
    pub(crate) fn place(self, number: u8) -> Place
        ensures { result ≡ spec.place_sought self number }
    {
        match self {
            Sought::Numbered(kind) => Place::numbered(kind, number),
            Sought::Box(test) => Place::BoxTest(test, number),
        }
    }
}

/// A value that was given, behind whose number so many tokens are held: what the mode lacks is an error (TeX: The Program,
/// section 418).
fn found(value: &Value, held: usize) -> Fed<Value>
    ensures { result ≡ spec.found_of value.now held }
{
    match value {
        Value::Absent => Fed::Wrong(TexError::NotAllowed),
        Value::OutOfRange => Fed::Wrong(TexError::NumberOutOfRange),
        Value::Int(_) | Value::Dimen(_) | Value::Glue(_) | Value::Muglue(_) => {
            Fed::Done(*value, held)
        }
        Value::Flag(_) | Value::Magnification(_) => Fed::Done(*value, held),
    }
}

impl QuantityScan {
    /// The scan of a quantity of which nothing is read. It takes no memory.
    pub fn new(alloc: Global) -> QuantityScan
        ensures { result ≡ begun_quantity }
    {
        QuantityScan {
            stage: QuantityStage::Given(0),
            number: IntScan::new(alloc),
        }
    }

    /// Forgets what was read, in the memory that it has.
    pub fn restart(&mut self)
        ensures { self.new ≡ begun_quantity }
    {
        self.stage = QuantityStage::Given(0);
        self.number.restart();
    }

    /// Begins what stands at a place. The answer is what reading gives of nothing.
    pub fn begin_at(&mut self, place: Place) -> Fed<Value>
        ensures scan { self.new ≡ begun_quantity }
        ensures answer { result ≡ Fed.Need (Kind.Quantity place) }
    {
        self.restart();
        Fed::Need(Kind::Quantity(place))
    }

    /// Begins what stands at a number, which follows. The answer is what reading gives of nothing.
    pub fn begin_behind(&mut self, sought: Sought) -> Fed<Value>
        ensures scan { self.new ≡ begun_at_number sought }
        ensures answer { result ≡ Fed.More Want.Expanded }
    {
        self.stage = QuantityStage::Number(sought);
        self.number.restart();
        Fed::More(Want::Expanded)
    }

    /// Begins a parameter of a font, whose number follows. The answer is what reading gives of nothing.
    pub fn begin_parameter(&mut self) -> Fed<Value>
        ensures scan { self.new ≡ begun_at_parameter }
        ensures answer { result ≡ Fed.More Want.Expanded }
    {
        self.stage = QuantityStage::Parameter;
        self.number.restart();
        Fed::More(Want::Expanded)
    }

    /// Begins an integer of a font, which follows. The answer is what reading gives of nothing.
    pub fn begin_font(&mut self, kind: FontNumber) -> Fed<Value>
        ensures scan { self.new ≡ begun_at_font kind }
        ensures answer { result ≡ Fed.More Want.Expanded }
    {
        self.stage = QuantityStage::Font(FontSought::Integer(kind));
        self.number.restart();
        Fed::More(Want::Expanded)
    }

    /// Takes one token, after More. The answer is what reading gives of all that was taken. Its only error is want of memory.
    pub fn feed(&mut self, token: &Seen) -> Result<Fed<Value>, AllocError>
        ensures part { IfOk result (IsFedBy rest held self.old token.now self.new) }
        ensures fed { IfOk result (IsFed self.old token.now self.new) }
        ensures needed { IfOk result (NeedsNoMore (more_needed self.old) (more_needed self.new)) }
    {
        self.behind(token)
    }

    /// What it is behind one more token. Its only error is want of memory.
    fn behind(&mut self, token: &Seen) -> Result<Fed<Value>, AllocError>
        ensures fed { IfOk result (IsFed self.old token.now self.new) }
        ensures needed { IfOk result (NeedsNoMore (more_needed self.old) (more_needed self.new)) }
    {
        match self.stage {
            QuantityStage::Number(sought) => {
                let fed = self.number.feed(token)?;
                Ok(self.numbered(sought, fed))
            }
            QuantityStage::Parameter => {
                let fed = self.number.feed(token)?;
                Ok(self.parameter(fed))
            }
            QuantityStage::Font(sought) => Ok(self.feed_font(sought, token)),
            QuantityStage::Given(_) => Ok(Fed::Wrong(TexError::MissingNumber)),
        }
    }

    /// Takes the value that it needs. The answer is what reading gives of all that was taken.
    pub fn give(&mut self, value: &Value) -> Fed<Value>
        ensures part { IsGivenBy rest held self.old value.now self.new result }
        ensures fewer { NeedsFewer (more_needed self.old) (more_needed self.new) result }
    {
        match self.stage {
            QuantityStage::Number(sought) => {
                let fed = self.number.give(value);
                self.numbered(sought, fed)
            }
            QuantityStage::Parameter => {
                let fed = self.number.give(value);
                self.parameter(fed)
            }
            QuantityStage::Font(_) => Fed::Wrong(TexError::MissingName),
            QuantityStage::Given(held) => found(value, held),
        }
    }

    /// What becomes of it by what the scan of its number answers.
    fn numbered(&mut self, sought: Sought, fed: Fed<i64>) -> Fed<Value>
        ensures { IsNumbered sought fed self.old self.new result }
    {
        match fed {
            Fed::More(want) => Fed::More(want),
            Fed::Need(kind) => Fed::Need(kind),
            Fed::Done(number, held) => {
                let Some(number) = byte(number) else {
                    return Fed::Wrong(TexError::NumberOutOfRange);
                };
                self.stage = QuantityStage::Given(held);
                Fed::Need(Kind::Quantity(sought.place(number)))
            }
            Fed::Wrong(error) => Fed::Wrong(error),
        }
    }

    /// What becomes of it by what the scan of the number of a parameter answers.
    fn parameter(&mut self, fed: Fed<i64>) -> Fed<Value>
        ensures { IsParameter fed self.old self.new result }
    {
        match fed {
            Fed::More(want) => Fed::More(want),
            Fed::Need(kind) => Fed::Need(kind),
            Fed::Done(number, held) => self.to_font(parameter(number), held),
            Fed::Wrong(error) => Fed::Wrong(error),
        }
    }

    /// The font is needed of which this parameter is meant, behind whose number so many tokens are held.
    fn to_font(&mut self, number: u16, held: usize) -> Fed<Value>
        ensures { IsFontSought number held self.old self.new result }
    {
        let sought = FontSought::Dimen(number);
        if held == 0 {
            self.stage = QuantityStage::Font(sought);
            return Fed::More(Want::Expanded);
        }
        match self.number.behind {
            Some(font) => self.to_value(sought, font),
            None => Fed::Wrong(TexError::MissingName),
        }
    }

    /// What is needed of a font.
    fn to_value(&mut self, sought: FontSought, font: FontName) -> Fed<Value>
        ensures scan { self.new ≡ record self.old { stage = QuantityStage.Given 0 } }
        ensures answer { result ≡ Fed.Need (Kind.Quantity (place_of_font sought font)) }
    {
        self.stage = QuantityStage::Given(0);
        Fed::Need(Kind::Quantity(sought.place(font)))
    }

    /// A space before the font that is needed, or the font.
    fn feed_font(&mut self, sought: FontSought, token: &Seen) -> Fed<Value>
        requires { self.old.stage ≡ QuantityStage.Font sought }
        ensures fed { IsFed self.old token.now self.new result }
        ensures needed { NeedsNoMore (more_needed self.old) (more_needed self.new) result }
    {
        match FontScan::new().feed(token) {
            Fed::More(want) => Fed::More(want),
            Fed::Need(kind) => Fed::Need(kind),
            Fed::Done(font, _) => self.to_value(sought, font),
            Fed::Wrong(error) => Fed::Wrong(error),
        }
    }
}
