//! What becomes of a page's box.
use tx_pack::Packed;

/// What becomes of the box of a page that was fired.
#[derive(Drop)]
pub enum Begun {
    /// It is shipped, since \output has no tokens.
    Ship(Packed),
    /// It is \box255, and \output's tokens are to be read.
    Read(Packed),
}
