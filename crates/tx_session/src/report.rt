//! What is reported of changes that were accepted.

/// What came of changes that were accepted, in pages: those that were resumed after, those that were formatted and those
/// that were reused make up all.
#[derive(Clone, Copy)]
pub struct Report {
    /// All pages of the document as it is now.
    pub pages: usize,
    /// The first pages, after which formatting resumed.
    pub resumed: usize,
    /// Pages that were formatted for them.
    pub formatted: usize,
    /// The last pages, which were taken over as they were.
    pub reused: usize,
}
