//! What has begun and hasn't ended.
use crate::scanning::Scanning;
use crate::types::Printed;
use crate::using::Using;
use tx_char::Token;
use tx_cond::Skipper;

/// An expansion that has begun, with what it has taken (TeX: The Program, parts 24, 25 and 28).
#[derive(Drop)]
pub enum Begun {
    /// The use of a macro that takes arguments.
    Use(Using),
    /// \expandafter, behind which the token comes that it holds back.
    After,
    /// \expandafter, which holds this token back until the one behind it is expanded.
    Before(Token),
    /// \span in a preamble, which waits until the next token is expanded (TeX: The Program, section 782).
    Once,
    /// \noexpand.
    Hold,
    /// What is printed of the next token.
    Print(Printed),
    /// What is read off tokens that are expanded.
    Scanning(Scanning),
    /// Text that no branch takes, to the word that ends it.
    Skipping(Skipper),
    /// \input, whose file is opened: its first line is asked for before anything else.
    Opening,
}
