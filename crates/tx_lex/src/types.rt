//! What reading begins with, and what it answers.
use tx_char::Token;

/// Where in a line reading stands (TeX: The Program, section 303).
#[derive(Clone, Copy, PartialEq, Eq)]
pub enum ReadState {
    /// At the line's start, where an end of line is \par.
    N,
    /// Within the line, where a space counts.
    M,
    /// Skipping blanks, where neither counts.
    S,
}

/// What the unread rest of a line gives.
#[derive(Drop)]
pub enum Lexed {
    /// A token. What is now unread is `front`, if there is one, and then the bytes from place `used` on. Only after a
    /// name of letters is there a `front`: the character for which a `^^` behind the name stood, and which ended it.
    Token {
        token: Token,
        used: usize,
        front: Option<u8>,
        state: ReadState,
    },
    /// Nothing but characters that are dropped was left.
    LineDone,
    /// Error 1: a character of category Invalid was read.
    E1,
}

/// A character that is a token as it stands in a line.
#[derive(Clone, Copy)]
pub enum PlainToken {
    /// A letter or another character, which is set.
    Set(u8),
    /// A space within the line.
    Blank,
}

/// A character of a line as reading sees it, its `^^` replaced, and the place of what stands behind it.
#[derive(Clone, Copy)]
pub(crate) struct Character {
    pub code: u8,
    pub next: usize,
}
