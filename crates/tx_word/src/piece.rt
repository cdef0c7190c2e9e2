//! What is made into a list.
use tx_bytes::Bytes;
use tx_num::Glue;

/// Places in a word, each counted by the characters before it, in their order.
pub type Places = tx_list::Items<usize>;

/// A word or the space behind one, of the font of a number (TeX: The Program, section 1030).
#[derive(Drop)]
pub enum Piece {
    /// Characters that stand together. `left` and `right` tell whether the boundaries before and behind them count; a hyphen
    /// may be put in at `places`, and is the character `hyphen` there, none where this isn't in 0 to 255.
    Word {
        font: u8,
        chars: Bytes,
        left: bool,
        right: bool,
        places: Places,
        hyphen: i64,
    },
    /// A space at a space factor of 1 to 32767; 1000 is the plain one.
    Space {
        font: u8,
        factor: i64,
    },
}

/// The parameters of spaces: \spaceskip and \xspaceskip. Each counts where it isn't zero.
#[derive(Clone, Copy)]
pub struct WordParams {
    pub spaceskip: Glue,
    pub xspaceskip: Glue,
}
