//! The outside, as three traits with a written meaning: a `Source` gives the bytes of files, an `Inlet` gives bytes one after
//! the other as they come in, a `Sink` takes text and files. Each counts its faults, so that code above can't blame a fault that
//! never came.
//!
//! Proved: what each answer says of content and counts, of those in memory; of the real ones, counts alone, and at which places a name
//! is looked for. Only tested: real files and standard input. Trusted: std's calls of files and readers.
//!
//! Read `names`, `source`, `inlet` and `sink`, then the implementations: `steady` and `memory`, over `file_map`, and the real ones,
//! `std_inlet`, and `dir_source` and `dir_sink`, which keep the cause of a fault (`cause`), look along a path (`places`), share what was
//! read (`files_read`) and save beside the place (`saving`).
#![tactic(auto)]

pub mod cause;
pub mod dir_sink;
pub mod dir_source;
mod file_map;
pub mod files_read;
pub mod inlet;
pub mod memory;
mod names;
mod places;
mod saving;
pub mod sink;
pub mod source;
pub mod std_inlet;
pub mod steady;

pub use cause::Cause;
pub use dir_sink::DirSink;
pub use dir_source::DirSource;
pub use files_read::FilesRead;
pub use inlet::{Came, Inlet, Passed};
pub use memory::{MemoryInlet, MemorySink, MemorySource};
pub use sink::{Put, Sink};
pub use source::{Fetched, Source};
pub use std_inlet::StdInlet;
pub use steady::{SteadyInlet, SteadySink, SteadySource};
