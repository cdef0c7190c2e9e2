//! What the expander keeps.
use crate::begun::Begun;
use tx_bytes::Bytes;
use tx_cond::CondStack;
use tx_list::Stack;

/// What stands between the input and the one who carries commands out: the expansions that have begun and haven't ended, and the
/// conditionals that are open, the innermost first each; and the main file's name.
#[derive(Drop)]
pub struct Expander {
    pub(crate) begun: Stack<Begun>,
    pub(crate) conditionals: CondStack,
    pub(crate) job: Bytes,
}
