//! The page builder (TeX: The Program, part 45; The TeXbook, chapters 15 and 23): a page that nodes are contributed to, one at a
//! time, until a break at which it is fired, and what is fired then.
//!
//! Proved: what a contribution makes of the page, that the best break is the last one of least cost among those that were legal,
//! what a page gives that is fired, and exactly when each error comes. Only tested: that this is what TeX does, on histories of
//! pages whose breaks Knuth's TeX tells alike.
//!
//! Modules in reading order: `error`, `boxes`, `params`, `kern`, `measures`, `class`, `classes`, `inserted`, `sizes`, `placing`,
//! `inserting`, `page`, `keeping`, `quantity`, `asking`, `contributing`, `fired`, `sorted`, `joining`, `holding`, `firing`.
#![tactic(auto)]

mod asking;
mod boxes;
mod class;
mod classes;
mod contributing;
mod error;
mod fired;
mod firing;
mod holding;
mod inserted;
mod inserting;
mod joining;
mod keeping;
mod kern;
mod measures;
mod page;
mod params;
mod placing;
mod quantity;
mod sizes;
mod sorted;

pub use boxes::{BoxList, ClassBox};
pub use class::{Class, Cut};
pub use classes::Classes;
pub use error::PageError;
pub use fired::Fired;
pub use kern::Kern;
pub use measures::{Built, Contents, Measures};
pub use page::Page;
pub use params::{ClassParams, PageParams};
pub use tx_prim::PageQuantity;
