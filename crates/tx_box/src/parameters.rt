//! What boxes take from the table.
ghost use Rattle.std.specs.Prelude.{◌≡◌};
ghost use Rattle.tx_box.specs.Building as building;
ghost use Rattle.tx_box.specs.Placing as placing;

use tx_eqtb::Eqtb;
use tx_nest::LeadingParams;
use tx_pack::PackParams;
use tx_prim::{DimensionParameter, GlueParameter, IntegerParameter};

/// The parameters of leading.
pub fn leading_of(table: &Eqtb) -> LeadingParams
    ensures { result ≡ placing.leading_of table.now.table }
{
    LeadingParams {
        baseline_skip: table.glue_parameter(GlueParameter::Baselineskip),
        line_skip: table.glue_parameter(GlueParameter::Lineskip),
        line_skip_limit: i64::from(table.dimension(DimensionParameter::Lineskiplimit)),
    }
}

/// How horizontal boxes are packed.
pub fn across(table: &Eqtb) -> PackParams
    ensures { result ≡ building.across table.now.table }
{
    PackParams {
        badness: i64::from(table.integer(IntegerParameter::Hbadness)),
        fuzz: i64::from(table.dimension(DimensionParameter::Hfuzz)),
        overfull_rule: i64::from(table.dimension(DimensionParameter::Overfullrule)),
    }
}

/// How vertical boxes are packed.
pub fn down(table: &Eqtb) -> PackParams
    ensures { result ≡ building.down table.now.table }
{
    PackParams {
        badness: i64::from(table.integer(IntegerParameter::Vbadness)),
        fuzz: i64::from(table.dimension(DimensionParameter::Vfuzz)),
        overfull_rule: 0,
    }
}
