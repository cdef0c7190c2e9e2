//! What shipping takes from the table (TeX: The Program, sections 638 to 644).
ghost use Rattle.std.specs.Prelude.{◌≡◌, ◌++◌, map, IfOk, OnOk};
ghost use Rattle.tx_dvi.specs.declared.font.FontDefinition.{FontDefinition};
ghost use Rattle.tx_makeup.specs.Shipping as spec;

use std::alloc::AllocError;
use tx_bytes::Bytes;
use tx_dvi::FontDefinition;
use tx_eqtb::Eqtb;
use tx_prim::{DimensionParameter, IntegerParameter};
use tx_seen::Place;
use tx_ship::ShipParams;

/// A register of \count.
fn count(table: &Eqtb, number: u8) -> i32
    ensures { result ≡ spec.count table.now.table number }
{
    table.number(&Place::Count(number))
}

/// \count0 to \count9.
fn counts(table: &Eqtb) -> [i32; 10]
    ensures { result ≡ spec.counts table.now.table }
{
    [
        count(table, 0),
        count(table, 1),
        count(table, 2),
        count(table, 3),
        count(table, 4),
        count(table, 5),
        count(table, 6),
        count(table, 7),
        count(table, 8),
        count(table, 9),
    ]
}

/// What a page takes from the table, and the numbers of the fonts that earlier pages define. Its only error is want of memory.
pub(crate) fn ship_params(table: &Eqtb, defined: &Bytes) -> Result<ShipParams, AllocError>
    ensures { IfOk result (λ params. params ≡ spec.ship_params table.now.table defined.now) }
{
    let defined = defined.clone()?;
    Ok(ShipParams {
        defined,
        counts: counts(table),
        hoffset: i64::from(table.dimension(DimensionParameter::Hoffset)),
        voffset: i64::from(table.dimension(DimensionParameter::Voffset)),
        mag: i64::from(table.integer(IntegerParameter::Mag)),
        year: table.integer(IntegerParameter::Year),
        month: table.integer(IntegerParameter::Month),
        day: table.integer(IntegerParameter::Day),
        time: table.integer(IntegerParameter::Time),
    })
}

/// The fonts that a page defines join those that earlier pages define. Its only error is want of memory.
pub(crate) fn join_defined(defined: &mut Bytes, fonts: &[FontDefinition]) -> Result<(), AllocError>
    ensures { OnOk result (defined.new ≡ defined.old ++ map (λ (f : FontDefinition). f.number) fonts.now) }
{
    for font in fonts {
        defined.push(font.number)?;
    }
    Ok(())
}
