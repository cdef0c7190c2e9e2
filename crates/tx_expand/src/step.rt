//! What a token makes of the use of a macro.
use crate::using::Using;
use tx_list::Items;
use tx_seen::TexError;
use tx_toklist::{Macro, TokList};

/// What a token makes of the use of a macro.
#[derive(Drop)]
pub enum Step {
    /// It goes on.
    On(Using),
    /// It is whole: this macro is used with these arguments.
    Fits(Macro, Items<TokList>),
    /// This error comes.
    Wrong(TexError),
}
