//! What an insertion makes of a page.
use crate::class::Class;
use crate::measures::Measures;

/// The measures behind an insertion, and its class.
#[derive(Clone, Copy)]
pub(crate) struct Inserted {
    pub measures: Measures,
    pub class: Class,
}
