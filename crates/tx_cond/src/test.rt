//! How far a test is.

use tx_scan::{DimenScan, IntScan, QuantityScan};
use tx_seen::Seen;

/// What a relation stands between.
#[derive(Clone, Copy)]
pub enum Comparand {
    /// \ifnum: integers.
    Number,
    /// \ifdim: dimensions, by their sp.
    Size,
}

/// A relation of two numbers, as \ifnum has one between its two.
#[derive(Clone, Copy)]
pub enum Relation {
    Less,
    Equal,
    Greater,
}

/// In what two tokens are compared.
#[derive(Clone, Copy)]
pub enum Compared {
    /// \if: their character codes.
    Code,
    /// \ifcat: their categories.
    Category,
    /// \ifx: their meanings.
    Meaning,
}

/// What the last number of a test is taken for.
#[derive(Clone, Copy)]
pub enum Judged {
    /// \ifcase: it chooses the branch.
    Case,
    /// \ifodd: whether it is odd.
    Odd,
    /// \ifnum: whether this number stands in this relation to it.
    Against(i64, Relation),
}

/// The part of a test that comes next.
#[derive(Clone, Copy)]
pub enum TestStage {
    /// The first of two comparands.
    Left(Comparand),
    /// The relation behind this one, with spaces before it.
    Relation(Comparand, i64),
    /// The last number.
    Last(Judged),
    /// The box register that is tested.
    Register,
    /// The first of two tokens.
    First(Compared),
    /// The second of two tokens.
    Second(Compared),
}

/// An integer, or a dimension in sp, that is being scanned.
#[derive(Drop)]
pub struct ComparandScan {
    /// Which of them it is.
    pub(crate) comparand: Comparand,
    pub(crate) number: IntScan,
    pub(crate) size: DimenScan,
}

/// The test of a conditional that is being scanned.
#[derive(Drop)]
pub struct TestScan {
    pub(crate) stage: TestStage,
    /// The number or the size that is read.
    pub(crate) scan: ComparandScan,
    /// The answer of a box register that is read.
    pub(crate) quantity: QuantityScan,
    /// The first of two tokens; or the token behind the first of two comparands, where that waits for a value.
    pub(crate) token: Option<Seen>,
}
