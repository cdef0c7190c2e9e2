//! What commands leave is taken over by TeX's state, and the page builder is exercised behind them (TeX: The Program, sections 994,
//! 1025 and 1076).
//!
//! Proved: what the state is behind a command of boxes, whatever that answered, and what comes of a page that fires; exactly when
//! each error comes. Only tested: that this is what TeX does, on documents that Knuth's TeX sets alike.
//!
//! Read `carrying` and `building`.
#![tactic(auto)]

mod building;
mod carrying;

pub use building::{
    build, build_behind, build_here, build_in, build_outside_behind, is_pages, page_error,
    take_page,
};
pub use carrying::carry;
