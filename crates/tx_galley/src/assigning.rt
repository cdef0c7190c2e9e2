//! Assignments to the quantities of the page (TeX: The Program, sections 1245 and 1246).
ghost use Rattle.std.specs.Prelude.{◌≡◌, Ok, Err, IfErr, OnOk, OnErr};
ghost use Rattle.tx_galley.specs.Assigning as spec;

use crate::params::is_integer;
use tx_num::fits;
use tx_output::Pages;
use tx_prim::PageQuantity;
use tx_seen::TexError;

/// Whether a quantity may have this value.
fn may_have(quantity: PageQuantity, value: i64) -> bool
    ensures { result ≡ spec.may_have quantity value }
{
    match quantity {
        PageQuantity::InsertPenalties => is_integer(value),
        PageQuantity::Goal | PageQuantity::Total | PageQuantity::Depth => fits(value),
        PageQuantity::Stretch | PageQuantity::FilStretch => fits(value),
        PageQuantity::FillStretch | PageQuantity::FilllStretch => fits(value),
        PageQuantity::Shrink => fits(value),
    }
}

/// Assigns to a quantity of the page, if it may have this value.
fn set_if(pages: &mut Pages, quantity: PageQuantity, value: i64) -> Result<(), TexError>
    ensures set { OnOk result (spec.setting quantity value pages.old ≡ Ok pages.new) }
    ensures error { IfErr result (λ e. spec.setting quantity value pages.old ≡ Err e) }
    ensures same { OnErr result (pages.new ≡ pages.old) }
{
    if may_have(quantity, value) {
        pages.page.set(quantity, value);
        Ok(())
    } else {
        Err(TexError::SizeOutOfRange)
    }
}

/// Assigns to a quantity of the page, in sp; \insertpenalties is a number. `SizeOutOfRange`, and nothing changes, where a size is
/// no dimension, or the number no integer, which no scan gives.
pub fn set_quantity(pages: &mut Pages, quantity: PageQuantity, value: i32) -> Result<(), TexError>
    ensures set { OnOk result (spec.setting quantity value pages.old ≡ Ok pages.new) }
    ensures error { IfErr result (λ e. spec.setting quantity value pages.old ≡ Err e) }
    ensures same { OnErr result (pages.new ≡ pages.old) }
{
    set_if(pages, quantity, i64::from(value))
}
