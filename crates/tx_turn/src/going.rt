//! What turns are taken at one go of.

/// What characters become that turns are taken of at one go.
#[derive(Clone, Copy)]
pub enum Going {
    /// Words and spaces of a horizontal list, where the font of this number is current.
    Letters(u8),
    /// Tokens of the text that is open.
    Text,
    /// Tokens of an argument, or skipped text.
    Within,
}
