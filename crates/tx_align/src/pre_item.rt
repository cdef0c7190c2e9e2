//! What a preamble is fed.
use tx_char::Token;
use tx_num::Glue;

/// An item of a preamble, told by what a token means (TeX: The Program, sections 782 to 784). What stands behind \span is expanded
/// before it is fed.
#[derive(Drop)]
pub enum PreItem {
    /// A token; in braces also what means & or \cr.
    Token(Token),
    /// A space.
    Space(Token),
    /// What means #.
    Param,
    /// What means &, outside of braces.
    Tab,
    /// What means \cr or \crcr, outside of braces.
    Cr,
    /// \tabskip, with the value that it is assigned.
    Tabskip(Glue),
    /// The name of a macro that is \outer.
    Outer,
    /// The end of a file.
    EndOfFile,
}
