//! What a script's file is read as.
use tx_script::{Rule, Script};

/// What is read of a script's file.
#[derive(Drop)]
pub enum Scripted {
    /// These commands.
    Plays(Script),
    /// Nothing: it is no script's text, or absent. So many of its bytes begin one, and what would have to come there is of
    /// this rule.
    Refused { place: u64, rule: Rule },
}
