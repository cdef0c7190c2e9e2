//! How far a text is.

/// How far a definition is.
#[derive(Clone, Copy, PartialEq, Eq)]
pub enum Stage {
    /// In its parameter text.
    Heading,
    /// Behind a parameter character in that, which has this code.
    Numbering(u8),
    /// In its body, in which so many groups are open.
    Body(u64),
    /// Behind a parameter character in that.
    Naming(u64),
    /// It is whole.
    Whole,
}

/// How far a text is that is absorbed.
#[derive(Clone, Copy, PartialEq, Eq)]
pub enum TextStage {
    /// Its begin-group token is looked for.
    Filler,
    /// Within it, where so many groups are open.
    Inside(u64),
    /// It has ended.
    Ended,
}
