//! TeX's arithmetic: dimensions in scaled points, glue, badness, and fractions that round as TeX does. It stands on no
//! other part of the engine. Definitions are whole numbers without bound; the code says where a number leaves its range.
//!
//! Proved: each call is its formula on unbounded numbers, Overflow exactly past the range. Only tested: values that Knuth's
//! TeX prints.
//!
//! Modules in reading order: `limits`, `fractions`, `stretching`, `decimal`, `units`, `glue_spec`.
#![tactic(auto)]

mod decimal;
mod fractions;
mod glue_spec;
mod limits;
mod stretching;
mod units;

pub use decimal::{decimals, scaled_text};
pub use fractions::{set_at, x_over_n, xn_over_d};
pub use glue_spec::Glue;
pub use limits::{GREATEST_DIMENSION, Overflow, Range, fits};
pub use stretching::{badness, badness_of_sums};
pub use units::PhysicalUnit;

/// A size in scaled points: 65536 of them are one printer's point.
pub type Scaled = i64;
