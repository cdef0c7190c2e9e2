//! What setting a paragraph is given beside its list and the shapes of its lines.
use tx_linebreak::BreakParams;
use tx_nest::LeadingParams;
use tx_num::Glue;
use tx_pack::PackParams;

/// The parameters of a paragraph, by TeX's names: those of line breaking, with \leftskip and \rightskip, of its lines' boxes and
/// of leading, the glue of its last line, the penalties between lines, and \prevdepth in sp where the paragraph begins.
/// `widow_penalty` is \displaywidowpenalty before a displayed formula.
#[derive(Clone, Copy)]
pub struct ParParams {
    pub breaking: BreakParams,
    pub packing: PackParams,
    pub leading: LeadingParams,
    pub par_fill_skip: Glue,
    pub inter_line_penalty: i32,
    pub club_penalty: i32,
    pub widow_penalty: i32,
    pub broken_penalty: i32,
    pub prev_depth: i32,
}
