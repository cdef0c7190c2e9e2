//! Requests: what an editor asks of a document that is being edited, read one after the other as their bytes come in.
//! `specs/Requests.antt` says which bytes are a request, and where the next one begins behind bytes that are none.
//!
//! Proved: a request is read in the only way there is, bytes that begin none are refused by the rule of what they lack, and no byte
//! more is taken. Only tested: requests that come over standard input (`tools/check-serve`).
//!
//! Read `request`, then `head`, the line with which a request begins, `first`, which reads it, `stopped` and `read`, and `laws`.
#![tactic(auto)]

mod first;
mod head;
pub mod laws;
mod read;
pub mod request;
mod stopped;

pub use read::next_request;
pub use request::{FileContents, Next, Request};
