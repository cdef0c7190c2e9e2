//! A paragraph that is to be set.

use crate::params::ParParams;
use tx_linebreak::{LineShape, Piece};
use tx_node::Node;

/// An ended list, its pieces, the shapes of its lines and its parameters; how many lines it has, and whether its chain is of the
/// first pass.
#[derive(Drop)]
pub(crate) struct Paragraph<'a> {
    pub items: &'a [Node],
    pub pieces: &'a [Piece],
    pub shape: &'a [LineShape],
    pub params: &'a ParParams,
    pub first_pass: bool,
    pub count: usize,
}
