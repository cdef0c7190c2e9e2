//! What assignments are: what they begin with, and what they are once they are read whole.
use tx_eqtb::Entry;
use tx_num::Glue;
use tx_prim::{Numbered, Operation, Shorthand};
use tx_seen::{Place, TexError};

/// The left side of an assignment (The TeXbook, chapter 24).
#[derive(Drop)]
pub enum Variable {
    /// A number tells which.
    Numbered(Numbered),
    /// A parameter, or a register that has a name of its own.
    Standing(Place),
}

/// What the command of an assignment is.
#[derive(Drop)]
pub enum Assigning {
    /// \let.
    Let,
    /// \advance and its kin.
    Arithmetic(Operation),
    /// A left side.
    Variable(Variable),
    /// \chardef and its kin with the name behind them, whose meaning stands at this place.
    Named(Place, Shorthand),
}

/// What a number or a size is for, at a place.
#[derive(Clone, Copy)]
pub enum Purpose {
    /// It is to stand there.
    Set,
    /// The name there is to stand for it.
    Define(Shorthand),
    /// This is done with it to the number there.
    Compute(Operation),
    /// The list of tokens of the register of this number is to stand there.
    Copy,
}

/// The numbers from the least to the greatest.
#[derive(Clone, Copy)]
pub struct Bounds {
    pub least: i64,
    pub greatest: i64,
}

/// What becomes of a place.
#[derive(Drop)]
pub enum Change {
    /// It has this entry.
    Set(Entry),
    /// This is done to its number, or to each size of its glue, with a number.
    Compute(Operation, i32),
    /// This glue is added to the one there.
    Add(Glue),
    /// It has the list of tokens that stands at this place.
    Copy(Place),
    /// It has the text that follows, whose begin-group token is taken.
    Text,
}

/// What carrying an assignment out gives.
#[derive(Clone, Copy)]
pub enum Carried {
    /// It is done.
    Done,
    /// It can't be done, and nothing has changed.
    Refused(TexError),
}

/// An assignment with all that belongs to it but its prefixes.
#[derive(Drop)]
pub struct Assignment {
    pub place: Place,
    pub change: Change,
}
