//! What all of a formula is set by.
use crate::params::MathParams;
use tx_tfm::Fonts;

/// The fonts of the run, and the parameters as they stand.
#[derive(Drop)]
pub struct Setter<'a> {
    pub fonts: &'a Fonts,
    pub params: &'a MathParams,
}
