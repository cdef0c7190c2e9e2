//! What a pass finds.

/// The chain that is asked for, by its number, how many lines it has, and how many the best chain of the pass has.
#[derive(Clone, Copy)]
pub(crate) struct Found {
    pub chain: usize,
    pub lines: usize,
    pub best: usize,
}
