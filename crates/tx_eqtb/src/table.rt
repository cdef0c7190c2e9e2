//! The table itself.

use crate::boxes::BoxRegister;
use crate::cells::Cells;
use crate::shape::ParShape;
use tx_char::Codes;
use tx_name::NameMap;
use tx_num::Glue;
use tx_seen::Meaning;
use tx_toklist::TokList;

/// What stands at each place. A name that has no entry is undefined.
#[derive(Drop)]
pub struct Table {
    pub(crate) names: NameMap<Meaning>,
    pub(crate) active: Cells<Meaning>,
    pub(crate) categories: Codes,
    pub(crate) counts: Cells<i32>,
    pub(crate) dimens: Cells<i32>,
    pub(crate) lower_case: Cells<i32>,
    pub(crate) upper_case: Cells<i32>,
    pub(crate) space_factors: Cells<i32>,
    pub(crate) math: Cells<i32>,
    pub(crate) delimiters: Cells<i32>,
    pub(crate) integers: Cells<i32>,
    pub(crate) dimensions: Cells<i32>,
    pub(crate) skips: Cells<Glue>,
    pub(crate) muskips: Cells<Glue>,
    pub(crate) glue_parameters: Cells<Glue>,
    pub(crate) token_registers: Cells<TokList>,
    pub(crate) token_parameters: Cells<TokList>,
    pub(crate) boxes: Cells<BoxRegister>,
    /// The numbers of the fonts of families, at text, script and scriptscript size, 16 of each.
    pub(crate) families: Cells<i32>,
    pub(crate) par_shape: ParShape,
    /// The number of the current font.
    pub(crate) font: u8,
}
