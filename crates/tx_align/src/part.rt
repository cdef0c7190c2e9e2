//! How far a preamble is.

/// Which part of a preamble comes next.
#[derive(Clone, Copy, PartialEq, Eq)]
pub enum Part {
    /// What stands before the # of a column.
    Before,
    /// What stands behind it.
    Behind,
    /// None: it has ended.
    Ended,
}
