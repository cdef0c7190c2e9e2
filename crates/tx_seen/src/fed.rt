//! What everything answers that is fed one token at a time.

use crate::error::TexError;
use crate::place::Place;
use std::alloc::AllocError;
use tx_list::Kept;
use tx_num::Glue;

/// How the next token is wanted.
#[derive(Clone, Copy)]
pub enum Want {
    /// As it stands.
    Raw,
    /// What is left once everything before it that can be expanded is (The TeXbook, chapter 20).
    Expanded,
}

/// What a scan needs that only its caller knows.
#[derive(Drop)]
pub enum Kind {
    /// What stands at this place.
    Quantity(Place),
}

/// What a caller gives to a scan that needs it.
#[derive(Clone, Copy)]
pub enum Value {
    /// An integer.
    Int(i64),
    /// A size, in scaled points.
    Dimen(i64),
    /// Glue.
    Glue(Glue),
    /// Glue that is told in mu.
    Muglue(Glue),
    /// The magnification, which may be used, and is from now on.
    Magnification(u16),
    /// Yes or no.
    Flag(bool),
    /// Nothing: the mode has no such quantity, or it may not be used.
    Absent,
    /// Nothing: no such number is in the range of its use.
    OutOfRange,
}

impl Kept for Value {
    fn share(&self) -> Result<Self, AllocError> {
        Ok(*self)
    }

    fn same(&self, other: &Self) -> bool {
        match (self, other) {
            (Value::Int(one), Value::Int(other)) => one == other,
            (Value::Dimen(one), Value::Dimen(other)) => one == other,
            (Value::Glue(one), Value::Glue(other)) => one.same(other),
            (Value::Muglue(one), Value::Muglue(other)) => one.same(other),
            (Value::Magnification(one), Value::Magnification(other)) => one == other,
            (Value::Flag(one), Value::Flag(other)) => one == other,
            (Value::Absent, Value::Absent) => true,
            (Value::OutOfRange, Value::OutOfRange) => true,
            _ => false,
        }
    }
}

/// The answer to one more token or value.
#[derive(Drop)]
pub enum Fed<T> {
    /// One more token is needed, so.
    More(Want),
    /// A value is needed.
    Need(Kind),
    /// It is done, with this. So many of what was taken last don't belong to it, and are given back (TeX: The Program,
    /// sections 325 and 407).
    Done(T, usize),
    /// This error comes.
    Wrong(TexError),
}
