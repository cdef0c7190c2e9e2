//! What a formula is set by, as the table has it (TeX: The Program, sections 700, 701 and 1195).
ghost use Rattle.std.specs.Prelude.{◌≡◌};
ghost use Rattle.tx_formula.specs.Params as spec;

use tx_box::across;
use tx_eqtb::Eqtb;
use tx_math::{FamilyFonts, MathParams};
use tx_prim::{DimensionParameter, GlueParameter, IntegerParameter, MathSize};
use tx_scan::byte;
use tx_seen::Place;

/// The number of the font of a family at a size.
pub(crate) fn font_at(table: &Eqtb, size: MathSize, family: u8) -> u8
    ensures { result ≡ spec.font_at table.now.table size family }
{
    match byte(i64::from(table.number(&Place::Family(size, family)))) {
        Some(font) => font,
        None => 0,
    }
}

/// The fonts of the families at a size.
fn fonts_of(table: &Eqtb, size: MathSize) -> [u8; 16]
    ensures { result ≡ spec.fonts_of table.now.table size }
{
    [
        font_at(table, size, 0),
        font_at(table, size, 1),
        font_at(table, size, 2),
        font_at(table, size, 3),
        font_at(table, size, 4),
        font_at(table, size, 5),
        font_at(table, size, 6),
        font_at(table, size, 7),
        font_at(table, size, 8),
        font_at(table, size, 9),
        font_at(table, size, 10),
        font_at(table, size, 11),
        font_at(table, size, 12),
        font_at(table, size, 13),
        font_at(table, size, 14),
        font_at(table, size, 15),
    ]
}

/// The fonts of the families.
fn families_of(table: &Eqtb) -> FamilyFonts
    ensures { result ≡ spec.families_of table.now.table }
{
    FamilyFonts {
        text: fonts_of(table, MathSize::Text),
        script: fonts_of(table, MathSize::Script),
        script_script: fonts_of(table, MathSize::ScriptScript),
    }
}

/// What a formula is set by.
pub(crate) fn math_params(table: &Eqtb) -> MathParams
    ensures { result ≡ spec.math_params table.now.table }
{
    MathParams {
        families: families_of(table),
        thin_mu_skip: table.glue_parameter(GlueParameter::Thinmuskip),
        med_mu_skip: table.glue_parameter(GlueParameter::Medmuskip),
        thick_mu_skip: table.glue_parameter(GlueParameter::Thickmuskip),
        null_delimiter_space: table.dimension(DimensionParameter::Nulldelimiterspace),
        delimiter_factor: table.integer(IntegerParameter::Delimiterfactor),
        delimiter_shortfall: table.dimension(DimensionParameter::Delimitershortfall),
        script_space: table.dimension(DimensionParameter::Scriptspace),
        bin_op_penalty: table.integer(IntegerParameter::Binoppenalty),
        rel_penalty: table.integer(IntegerParameter::Relpenalty),
        packing: across(table),
    }
}
