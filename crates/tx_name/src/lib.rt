//! Finite maps from the names of control sequences to values, which TeX's table of meanings is one of. Contracts see the
//! map alone, so two maps are the same whatever was put in and taken out before. A look-up costs as much among ten
//! thousand names as among ten: the names lie by the number that each keeps of its bytes in 1024 buckets, each of them sorted, on
//! 32 shelves of 32 buckets. So a map that shares all with another copies only a shelf's list and a bucket when a name is given a
//! value.
//!
//! Proved: it is exactly the finite map of its names and values, whatever was put in and taken out. Only tested: a map of
//! six hundred names, filled in two orders.
//!
//! Read `bucket`; then `parts`, `shelf` and `name_map`.
#![tactic(auto)]

mod bucket;
mod name_map;
mod parts;
mod shelf;

pub use name_map::NameMap;
