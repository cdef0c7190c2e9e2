//! What is fed where neither an \outer macro nor the end of a file may come.
use tx_char::Token;

/// A token, or what may not stand in its place (TeX: The Program, section 336).
#[derive(Drop)]
pub enum Item {
    /// A token, whatever it means.
    Token(Token),
    /// The name of a macro that is \outer.
    Outer,
    /// The end of a file.
    EndOfFile,
}
