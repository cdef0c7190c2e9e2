//! A line behind a chain.
use crate::line::Line;

/// A line, the chain behind which it stands, by its number, and the demerits of both together.
#[derive(Clone, Copy)]
pub(crate) struct Link {
    pub line: Line,
    pub before: usize,
    pub total: i128,
}
