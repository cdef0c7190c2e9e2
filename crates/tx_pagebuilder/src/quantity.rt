//! What can be asked of a page, and assigned.
ghost use Rattle.std.specs.Prelude.{◌≡◌};
ghost use Rattle.tx_num.specs.Glue.{IsDimension};
ghost use Rattle.tx_insert.specs.Sums.{IsSmall};
ghost use Rattle.tx_pagebuilder.specs.Placing.{IsMeasured};
ghost use Rattle.tx_pagebuilder.specs.Quantities as spec;

use crate::measures::{Contents, Measures};
use crate::sizes::{narrow, narrow_integer};
use tx_insert::Sums;
use tx_num::GREATEST_DIMENSION;
use tx_prim::PageQuantity;

/// A quantity as it stands.
fn quantity(q: PageQuantity, measures: &Measures) -> i64
    ensures { result ≡ spec.quantity q measures.now }
{
    match q {
        PageQuantity::Goal => i64::from(measures.goal),
        PageQuantity::Total => measures.sums.height,
        PageQuantity::Stretch => measures.sums.normal,
        PageQuantity::FilStretch => measures.sums.fil,
        PageQuantity::FillStretch => measures.sums.fill,
        PageQuantity::FilllStretch => measures.sums.filll,
        PageQuantity::Shrink => measures.sums.shrink,
        PageQuantity::Depth => measures.sums.depth,
        PageQuantity::InsertPenalties => i64::from(measures.insert_penalties),
    }
}

/// What is shown of it while the page has nothing that counts.
fn unset(q: PageQuantity, measures: &Measures) -> i64
    ensures { result ≡ spec.unset q measures.now }
{
    match q {
        PageQuantity::Goal => GREATEST_DIMENSION,
        PageQuantity::Total => 0,
        PageQuantity::Stretch => 0,
        PageQuantity::FilStretch => 0,
        PageQuantity::FillStretch => 0,
        PageQuantity::FilllStretch => 0,
        PageQuantity::Shrink => 0,
        PageQuantity::Depth => 0,
        PageQuantity::InsertPenalties => i64::from(measures.insert_penalties),
    }
}

/// What is shown of a quantity.
pub(crate) fn shown(q: PageQuantity, measures: &Measures) -> i64
    ensures { result ≡ spec.shown q measures.now }
{
    match measures.contents {
        Contents::Nothing => unset(q, measures),
        Contents::Fired => quantity(q, measures),
        Contents::Inserts => quantity(q, measures),
        Contents::Solid => quantity(q, measures),
    }
}

/// The sums with this value of a quantity that is one of them.
fn summed(q: PageQuantity, value: i64, sums: &Sums) -> Sums
    requires small { IsSmall sums.now }
    requires dimension { IsDimension value }
    ensures value { result ≡ spec.summed q value sums.now }
    ensures small { IsSmall result }
{
    let mut more = *sums;
    match q {
        PageQuantity::Total => {
            more.height = value;
            more
        }
        PageQuantity::Stretch => {
            more.normal = value;
            more
        }
        PageQuantity::FilStretch => {
            more.fil = value;
            more
        }
        PageQuantity::FillStretch => {
            more.fill = value;
            more
        }
        PageQuantity::FilllStretch => {
            more.filll = value;
            more
        }
        PageQuantity::Shrink => {
            more.shrink = value;
            more
        }
        PageQuantity::Depth => {
            more.depth = value;
            more
        }
        PageQuantity::Goal | PageQuantity::InsertPenalties => more,
    }
}

/// The measures with this value of a quantity.
pub(crate) fn assigned(q: PageQuantity, value: i64, measures: &Measures) -> Measures
    requires measured { IsMeasured measures.now }
    requires fits { spec.IsValue q value }
    ensures value { result ≡ spec.assigned q value measures.now }
    ensures measured { IsMeasured result }
{
    let mut more = *measures;
    match q {
        PageQuantity::Goal => {
            more.goal = narrow(value);
            more
        }
        PageQuantity::InsertPenalties => {
            more.insert_penalties = narrow_integer(value);
            more
        }
        PageQuantity::Total
        | PageQuantity::Stretch
        | PageQuantity::FilStretch
        | PageQuantity::FillStretch
        | PageQuantity::FilllStretch
        | PageQuantity::Shrink
        | PageQuantity::Depth => {
            more.sums = summed(q, value, &measures.sums);
            more
        }
    }
}
