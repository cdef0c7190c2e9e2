//! What reading the pending input answers (TeX: The Program, section 357).
ghost use Rattle.std.specs.Prelude.{◌≡◌};
ghost use Rattle.tx_pending.specs.Elements.{closing_after};
ghost use Rattle.tx_pending.specs.Steps.{is_used};

use tx_char::Token;

/// What every entry of an alignment's column has before its own text, and behind it (The TeXbook, chapter 22).
#[derive(Clone, Copy, PartialEq, Eq)]
pub enum ColumnPart {
    /// The u-part.
    U,
    /// The v-part.
    V,
}

/// What comes next.
#[derive(Drop)]
pub enum Next {
    /// A token.
    Token(Token),
    /// A token that \noexpand holds: it isn't expanded, and \outer isn't looked at (TeX: The Program, section 358).
    Held(Token),
    /// The end of a list that was to be marked.
    Marker,
    /// The end of this part of an alignment's column.
    PartEnd(ColumnPart),
    /// The line is used up, or there is none; whether \endinput came since the last such answer.
    Used { close: bool },
    /// Error 1: a character of category Invalid was read.
    E1,
}

impl Next {
    /// Whether a line is used up, or there is none.
    #[inline(always)]
    pub(crate) fn is_used(&self) -> bool
        ensures { result ≡ is_used self.now }
    {
        matches!(self, Next::Used { .. })
    }

    /// Whether \endinput is still to be heeded behind it, by whether it was before.
    #[inline(always)]
    pub(crate) fn closing_after(&self, closing: bool) -> bool
        ensures { result ≡ closing_after closing self.now }
    {
        match self {
            Next::Used { .. } => false,
            _ => closing,
        }
    }
}
