//! The scan of what an expansion reads, token by token.
ghost use Rattle.std.specs.Prelude.{◌≡◌, ◌≤◌, ◌∷◌, [], IfOk};
ghost use Rattle.tx_seen.specs.declared.item.Item.TheVariants.{Took};
ghost use Rattle.tx_seen.specs.Readings.{Answers};
ghost use Rattle.tx_scan.specs.Rests.{HasTakenBy, IsFedBy, IsGivenBy, IsRead};
ghost use Rattle.tx_scan.specs.Supplied.{NeedsFewer, NeedsNoMore};
ghost use Rattle.tx_expand.specs.Parts.{held, more_needed, rest};
ghost use Rattle.tx_expand.specs.Scans.{quantity, reading, the};
ghost use Rattle.tx_scan.specs.Beginnings as beginnings;

use crate::mapping::{decided, font_named, named, number_shown, opened, printed, quantity_shown};
use crate::part::{Figures, Part};
use crate::types::{Destination, Made, Scanned};
use std::alloc::{AllocError, Global};
use tx_cond::TestScan;
use tx_scan::{
    Beginning, ControlNameScan, FileNameScan, FontScan, IntScan, ListBegun, QuantityScan, Sought,
    beginning, list_begun,
};
use tx_seen::{Fed, Seen, TexError, Value, Want};

impl Part {
    /// The scan of what is read so, of which nothing is taken, and what it answers before the first token. It takes no memory.
    pub(crate) fn begin(alloc: Global, what: Scanned) -> (Part, Fed<Made>)
        ensures answer { Answers (reading what) (HasTakenBy rest held (reading what)) [] result.0 result.1 }
        ensures few { more_needed result.0 ≤ 1 }
    {
        match what {
            Scanned::Name => (
                Part::Name(ControlNameScan::new(alloc)),
                Fed::More(Want::Expanded),
            ),
            Scanned::Number => (
                Part::Integer(IntScan::new(alloc), Figures::Decimal),
                Fed::More(Want::Expanded),
            ),
            Scanned::Roman => (
                Part::Integer(IntScan::new(alloc), Figures::Roman),
                Fed::More(Want::Expanded),
            ),
            Scanned::Quantity { to } => (Part::Quantity { to }, Fed::More(Want::Expanded)),
            Scanned::Test(kind, mode) => {
                let mut scan = TestScan::new(alloc);
                let fed = decided(scan.begin(kind, mode));
                (Part::Test(scan), fed)
            }
            Scanned::File => (
                Part::File(FileNameScan::new(alloc)),
                Fed::More(Want::Expanded),
            ),
            Scanned::Font => (Part::Font(FontScan::new()), Fed::More(Want::Expanded)),
        }
    }

    /// Takes one token. Its only error is want of memory.
    pub(crate) fn feed(&mut self, alloc: Global, token: &Seen) -> Result<Fed<Made>, AllocError>
        ensures fed { IfOk result (IsFedBy rest held self.old token.now self.new) }
        ensures needs { IfOk result (NeedsNoMore (more_needed self.old) (more_needed self.new)) }
    {
        match self {
            Part::Name(scan) => Ok(named(scan.feed(alloc, token)?)),
            Part::Quantity { to } => {
                let to = *to;
                self.feed_quantity(alloc, to, token)
            }
            Part::Shown(scan, to) => quantity_shown(alloc, *to, scan.feed(token)?),
            Part::Integer(scan, figures) => printed(alloc, *figures, scan.feed(token)?),
            Part::Test(scan) => Ok(decided(scan.feed(token)?)),
            Part::File(scan) => opened(scan.feed(token)?),
            Part::Font(scan) => Ok(font_named(scan.feed(token))),
        }
    }

    /// Takes the token behind \the. Its only error is want of memory.
    fn feed_quantity(
        &mut self,
        alloc: Global,
        to: Destination,
        token: &Seen,
    ) -> Result<Fed<Made>, AllocError>
        ensures fed { IfOk result (IsRead rest held 1 (λ more. the to (Took token.now ∷ more)) (Took token.now ∷ []) self.new) }
        ensures needs { IfOk result (NeedsNoMore 0 (more_needed self.new)) }
    {
        match list_begun(&token.meaning) {
            ListBegun::At(place) => Ok(Fed::Done(Made::List(to, place), 0)),
            ListBegun::Register => {
                *self = Part::Integer(IntScan::new(alloc), Figures::Register { to });
                Ok(Fed::More(Want::Expanded))
            }
            ListBegun::Nothing => match token.font_name() {
                Some(font) => Ok(Fed::Done(Made::Identifier(to, font), 0)),
                None => self.feed_number(alloc, to, token),
            },
        }
    }

    /// Takes the token behind \the, where it begins no list of tokens and tells no font. Its only error is want of memory.
    fn feed_number(
        &mut self,
        alloc: Global,
        to: Destination,
        token: &Seen,
    ) -> Result<Fed<Made>, AllocError>
        ensures fed { IfOk result (IsRead rest held 1 (λ more. quantity to (beginnings.beginning token.now) more) (Took token.now ∷ []) self.new) }
        ensures needs { IfOk result (NeedsNoMore 0 (more_needed self.new)) }
    {
        let mut scan = QuantityScan::new(alloc);
        let fed = match beginning(token) {
            Beginning::Number(number) => return number_shown(alloc, to, number),
            Beginning::At(place) => scan.begin_at(place),
            Beginning::Numbered(kind) => scan.begin_behind(Sought::Numbered(kind)),
            Beginning::FontDimen => scan.begin_parameter(),
            Beginning::FontInteger(kind) => scan.begin_font(kind),
            Beginning::Plus | Beginning::Minus | Beginning::Digit(_) | Beginning::Digits(_) => {
                return Ok(Fed::Wrong(TexError::NoAssignment));
            }
            Beginning::Character | Beginning::Point | Beginning::Nothing(_) => {
                return Ok(Fed::Wrong(TexError::NoAssignment));
            }
        };
        *self = Part::Shown(scan, to);
        quantity_shown(alloc, to, fed)
    }

    /// Takes the value that it needs. Its only error is want of memory.
    pub(crate) fn give(&mut self, alloc: Global, value: &Value) -> Result<Fed<Made>, AllocError>
        ensures given { IfOk result (IsGivenBy rest held self.old value.now self.new) }
        ensures needs { IfOk result (NeedsFewer (more_needed self.old) (more_needed self.new)) }
    {
        match self {
            Part::Name(_) => Ok(Fed::Wrong(TexError::BadName)),
            Part::Quantity { .. } => Ok(Fed::Wrong(TexError::NoAssignment)),
            Part::Shown(scan, to) => quantity_shown(alloc, *to, scan.give(value)),
            Part::Integer(scan, figures) => printed(alloc, *figures, scan.give(value)),
            Part::Test(scan) => Ok(decided(scan.give(value)?)),
            Part::File(_) | Part::Font(_) => Ok(Fed::Wrong(TexError::MissingName)),
        }
    }
}
