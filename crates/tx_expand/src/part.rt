//! How far the reading of an expansion is.
use crate::types::Destination;
use tx_cond::TestScan;
use tx_scan::{ControlNameScan, FileNameScan, FontScan, IntScan, QuantityScan};

/// How an integer is printed, or what it tells.
#[derive(Clone, Copy)]
pub enum Figures {
    /// In decimal digits.
    Decimal,
    /// In Roman letters.
    Roman,
    /// It tells a register of \toks, whose list of tokens goes there.
    Register { to: Destination },
}

/// The scan of what an expansion reads.
#[derive(Drop)]
pub enum Part {
    /// The name behind \csname.
    Name(ControlNameScan),
    /// The first token behind \the, whose tokens go there.
    Quantity { to: Destination },
    /// What stands at a place, is printed with its units, and goes there.
    Shown(QuantityScan, Destination),
    /// An integer that is printed.
    Integer(IntScan, Figures),
    /// The test of a conditional.
    Test(TestScan),
    /// The name behind \input.
    File(FileNameScan),
    /// The font behind \fontname.
    Font(FontScan),
}
