//! The table with its groups.

use crate::nesting::Nesting;
use crate::parts::Parts;

/// The table as it stands, and the groups that are open. Contracts see both: the open groups, innermost last, have each
/// its kind and the table outside it.
#[derive(Drop)]
pub struct Eqtb {
    pub(crate) table: Parts,
    pub(crate) groups: Nesting,
}
