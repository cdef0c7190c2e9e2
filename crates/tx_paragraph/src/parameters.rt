//! What a paragraph takes from the table.
ghost use Rattle.std.specs.Prelude.{◌≡◌};
ghost use Rattle.tx_paragraph.specs.Parameters as spec;

use crate::last_line::LastLine;
use tx_box::{across, leading_of};
use tx_eqtb::Eqtb;
use tx_linebreak::BreakParams;
use tx_par::ParParams;
use tx_prim::{DimensionParameter, GlueParameter, IntegerParameter};

/// How lines are broken.
fn breaking_of(table: &Eqtb) -> BreakParams
    ensures { result ≡ spec.breaking_of table.now.table }
{
    BreakParams {
        pretolerance: table.integer(IntegerParameter::Pretolerance),
        tolerance: table.integer(IntegerParameter::Tolerance),
        emergency_stretch: i64::from(table.dimension(DimensionParameter::Emergencystretch)),
        line_penalty: table.integer(IntegerParameter::Linepenalty),
        hyphen_penalty: table.integer(IntegerParameter::Hyphenpenalty),
        ex_hyphen_penalty: table.integer(IntegerParameter::Exhyphenpenalty),
        adj_demerits: table.integer(IntegerParameter::Adjdemerits),
        double_hyphen_demerits: table.integer(IntegerParameter::Doublehyphendemerits),
        final_hyphen_demerits: table.integer(IntegerParameter::Finalhyphendemerits),
        looseness: table.integer(IntegerParameter::Looseness),
        left_skip: table.glue_parameter(GlueParameter::Leftskip),
        right_skip: table.glue_parameter(GlueParameter::Rightskip),
    }
}

/// The parameter of the penalty before the last line of a list.
fn widow_of(last: LastLine) -> IntegerParameter
    ensures { result ≡ spec.widow_of last }
{
    match last {
        LastLine::OfParagraph => IntegerParameter::Widowpenalty,
        LastLine::BeforeDisplay => IntegerParameter::Displaywidowpenalty,
    }
}

/// All that setting a list takes of which this is the last line, behind so much \prevdepth, in sp.
pub(crate) fn params_of(last: LastLine, table: &Eqtb, prev_depth: i32) -> ParParams
    ensures { result ≡ spec.params_of last table.now.table prev_depth }
{
    ParParams {
        breaking: breaking_of(table),
        packing: across(table),
        leading: leading_of(table),
        par_fill_skip: table.glue_parameter(GlueParameter::Parfillskip),
        inter_line_penalty: table.integer(IntegerParameter::Interlinepenalty),
        club_penalty: table.integer(IntegerParameter::Clubpenalty),
        widow_penalty: table.integer(widow_of(last)),
        broken_penalty: table.integer(IntegerParameter::Brokenpenalty),
        prev_depth,
    }
}

/// The same for the passes behind the first.
pub(crate) fn later_params(params: ParParams) -> ParParams
    ensures { result ≡ spec.later_params params }
{
    ParParams {
        breaking: BreakParams {
            pretolerance: -1,
            ..params.breaking
        },
        ..params
    }
}
