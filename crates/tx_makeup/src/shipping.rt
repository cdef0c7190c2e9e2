//! A box is shipped (TeX: The Program, sections 638 to 644).
ghost use Rattle.std.specs.Prelude.{◌≡◌, ◌≢◌, Some, Ok, Err, IfOk, IfErr};
ghost use Rattle.tx_galley.specs.declared.errors.GalleyError.TheVariants.{OutOfMemory};
ghost use Rattle.tx_galley.specs.Errors.{error_of};
ghost use Rattle.tx_ship.specs.declared.error.ShipError.TheVariants as ship_error;
ghost use Rattle.tx_ship.specs.Pages.{IsMag};
ghost use Rattle.tx_makeup.specs.Shipping as spec;

use crate::page::{join_defined, ship_params};
use std::alloc::{AllocError, Global};
use tx_bytes::Bytes;
use tx_dvi::PageBody;
use tx_eqtb::Eqtb;
use tx_expand::may_magnify;
use tx_galley::GalleyError;
use tx_node::BoxNode;
use tx_prim::IntegerParameter;
use tx_seen::TexError;
use tx_ship::{ShipError, body};
use tx_tfm::Fonts;

/// The page of a box, with these fonts, of which earlier pages define those of these numbers.
fn page_of(
    alloc: Global,
    shipped: &BoxNode,
    fonts: &Fonts,
    table: &Eqtb,
    defined: &Bytes,
) -> Result<PageBody, ShipError>
    requires { IsMag (spec.magnification_in table.now.table) }
    ensures page { IfOk result (λ page. spec.page_of fonts.now defined.now table.now.table shipped.now ≡ Ok page) }
    ensures error { IfErr result (λ e. e ≢ ship_error.OutOfMemory → spec.page_of fonts.now defined.now table.now.table shipped.now ≡ Err e) }
{
    let params = ship_params(table, defined)?;
    body(alloc, shipped, fonts, &params)
}

/// The same, and the fonts that it defines join the others.
fn send(
    alloc: Global,
    shipped: &BoxNode,
    fonts: &Fonts,
    table: &Eqtb,
    defined: &mut Bytes,
) -> Result<PageBody, GalleyError>
    requires { IsMag (spec.magnification_in table.now.table) }
    ensures sent { IfOk result (λ page. spec.sent_with defined.old (spec.magnification_in table.now.table) (spec.page_of fonts.now defined.old table.now.table shipped.now) ≡ Ok (record { page = page; magnification = Some (spec.magnification_in table.now.table); defined = defined.new })) }
    ensures error { IfErr result (λ e. e ≢ OutOfMemory → spec.sent_with defined.old (spec.magnification_in table.now.table) (spec.page_of fonts.now defined.old table.now.table shipped.now) ≡ Err (error_of e)) }
{
    match page_of(alloc, shipped, fonts, table, defined) {
        Ok(page) => {
            join_defined(defined, page.fonts())?;
            Ok(page)
        }
        Err(ShipError::OutOfMemory) => Err(GalleyError::OutOfMemory),
        Err(_) => Err(GalleyError::Refused(TexError::SizeOutOfRange)),
    }
}

/// Ships a box, which is dropped: the magnification has to be one, and that of the first page. `BadMagnification` where it isn't,
/// else `SizeOutOfRange` exactly where the box has no page. After want of memory `magnification` and `defined` may only be dropped.
pub fn ship(
    alloc: Global,
    shipped: BoxNode,
    fonts: &Fonts,
    table: &Eqtb,
    magnification: &mut Option<i32>,
    defined: &mut Bytes,
) -> Result<PageBody, GalleyError>
    ensures sent { IfOk result (λ page. spec.sending fonts.now magnification.old defined.old table.now.table shipped ≡ Ok (record { page = page; magnification = magnification.new; defined = defined.new })) }
    ensures error { IfErr result (λ e. e ≢ OutOfMemory → spec.sending fonts.now magnification.old defined.old table.now.table shipped ≡ Err (error_of e)) }
{
    let own = table.integer(IntegerParameter::Mag);
    if !may_magnify(*magnification, own) {
        return Err(GalleyError::Refused(TexError::BadMagnification));
    }
    let page = send(alloc, &shipped, fonts, table, defined)?;
    *magnification = Some(own);
    Ok(page)
}

/// Drops a box that isn't shipped after all. (What a box has in it takes many drops, which are proved here once.)
pub fn discard(_shipped: BoxNode) {}
