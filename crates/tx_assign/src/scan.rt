//! How far the scan of an assignment is.

use crate::types::{Change, Purpose};
use tx_prim::{Numbered, Operation};
use tx_scan::{DimenScan, GlueScan, IntScan, KeyScan};
use tx_seen::Place;

/// The part of an assignment that comes next.
#[derive(Clone, Copy)]
pub enum AssignStage {
    /// The name that \let defines.
    LetName,
    /// An optional `=` behind it, with spaces before it, or the token that it is to be like.
    LetBehindName,
    /// An optional space behind that `=`, or the token.
    LetBehindEquals,
    /// The token.
    LetToken,
    /// What this operation changes.
    Operand(Operation),
    /// The number of a register or a code, of which then a value comes, or an operand of this operation.
    Number(Numbered, Option<Operation>),
    /// An optional `=`, with spaces before it, and the value.
    Equals(Purpose),
    /// An optional `by`, with spaces before it, of which this is read, and the value.
    By(Operation, KeyScan),
    /// A number.
    Integer(Purpose),
    /// A size.
    Size(Purpose),
    /// Glue.
    Glue(Purpose),
    /// A list of tokens, with spaces and \relax before it.
    List,
}

/// An assignment that is being scanned. What it has made stays in it until that is taken, so that no answer is larger than a token.
#[derive(Drop)]
pub struct AssignScan {
    pub(crate) stage: AssignStage,
    /// What is assigned to; until that is read, some place.
    pub(crate) place: Place,
    /// What becomes of that, once the assignment is whole.
    pub(crate) change: Change,
    /// The number of a register or a code, and then the value.
    pub(crate) integer: IntScan,
    /// The value, where it is a size.
    pub(crate) size: DimenScan,
    /// The value, where it is glue.
    pub(crate) glue: GlueScan,
}
