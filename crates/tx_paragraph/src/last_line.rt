//! Which line the last one of a list is.

/// What the last line of a list is: the last one of its paragraph, or the last one before a displayed formula.
#[derive(Clone, Copy)]
pub enum LastLine {
    OfParagraph,
    BeforeDisplay,
}
