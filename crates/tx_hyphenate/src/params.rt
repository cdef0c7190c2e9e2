//! The parameters of hyphenation.

/// \lefthyphenmin, \righthyphenmin and \uchyph.
#[derive(Clone, Copy)]
pub struct HyphenParams {
    /// \lefthyphenmin: a hyphen has at least so many letters of its word before it; held within 1 to 63.
    pub left: i64,
    /// \righthyphenmin: the same for the letters behind it.
    pub right: i64,
    /// \uchyph: where it is positive, words that begin with a capital letter are hyphenated too.
    pub uc_hyph: i64,
}
