//! When a run began, and what reading a line takes from the table (TeX: The Program, sections 241 and 362).
ghost use Rattle.std.specs.Prelude.{◌≡◌};
ghost use Rattle.tx_machine.specs.Ranges.{IsDate};
ghost use Rattle.tx_turn.specs.Pages as spec;

use tx_eqtb::Eqtb;
use tx_machine::Date;
use tx_prim::{IntegerParameter, Moment};
use tx_scan::byte;

/// When a run began, as the date parameters say it.
pub(crate) fn moment_of(date: &Date) -> Moment
    requires { IsDate date.now }
    ensures { result ≡ spec.moment_of date.now }
{
    Moment {
        year: date.year as i32,
        month: date.month as i32,
        day: date.day as i32,
        time: date.minutes as i32,
    }
}

/// The character at the end of each line that is read: \endlinechar, if it is a character's code.
pub(crate) fn line_end(table: &Eqtb) -> Option<u8>
    ensures { result ≡ spec.line_end table.now.table }
{
    byte(i64::from(table.integer(IntegerParameter::Endlinechar)))
}
