//! Columns of a preamble (TeX: The Program, section 769).
use std::alloc::AllocError;
use tx_list::Kept;
use tx_num::Glue;
use tx_toklist::TokList;

/// A column: what is read before each of its cells, what is read behind it, and the glue behind the column (TeX: The Program,
/// section 769).
#[derive(Drop)]
pub struct Column {
    pub u_part: TokList,
    pub v_part: TokList,
    pub skip: Glue,
}

impl Kept for Column {
    fn share(&self) -> Result<Self, AllocError> {
        Ok(Column {
            u_part: self.u_part.share()?,
            v_part: self.v_part.share()?,
            skip: self.skip,
        })
    }

    fn same(&self, other: &Self) -> bool {
        self.u_part.same(&other.u_part)
            && self.v_part.same(&other.v_part)
            && self.skip.same(&other.skip)
    }
}
