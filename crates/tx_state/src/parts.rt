//! What the state waits for.
use tx_event::AskKind;

/// What a state is ready for.
#[derive(Clone, Copy)]
pub enum Phase {
    Running,
    Waiting(AskKind),
    Halted,
}
