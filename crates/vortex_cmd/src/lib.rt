//! The top calls. `vortex` does all that the program does of itself, over any source and any sink, and its contract is the headline:
//! after any edits of a script, made or refused, what is put out is what a fresh run of TeX on the edited files gives. `serve` answers
//! requests as they come in, over any inlet too, and its contract says the same of each answer.
//!
//! Proved: besides, each status comes only with its cause, and without faults all is done. Only tested: that it answers anything
//! but want of memory, and that an answer is put out before the next request is read.
//!
//! What a call does over any machine stands in `tx_call`; here the machine is TeX.
#![tactic(auto)]

pub mod serve;
pub mod vortex;
