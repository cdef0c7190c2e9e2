//! The parts of a map that may be shared, and which of them a name belongs to.
ghost use Rattle.std.specs.Prelude.{◌≡◌, ◌↔◌, ◌<◌, ◌/◌, ◌%◌, map, IsTrue};
ghost use Rattle.std.specs.Rc.{rc_value};

use std::rc::Rc;
use tx_list::Kept;

/// How many shelves a map has.
pub const SHELVES: usize = 32;

/// How many buckets a shelf has.
pub const BUCKETS: usize = 32;

/// Where a name belongs.
#[derive(Clone, Copy)]
pub struct Spot {
    /// Its shelf.
    pub shelf: usize,
    /// Its bucket there.
    pub bucket: usize,
}

/// Where a name belongs whose bytes are mixed to this number.
pub fn spot_of(number: usize) -> Spot
    ensures shelf { result.shelf ≡ (number / 32) % 32 }
    ensures bucket { result.bucket ≡ number % 32 }
    ensures shelf_within { result.shelf < 32 }
    ensures bucket_within { result.bucket < 32 }
{
    Spot {
        shelf: number / BUCKETS % SHELVES,
        bucket: number % BUCKETS,
    }
}

/// Whether both lists hold the same parts in the same order.
pub fn same_parts<P: Kept>(some: &[Rc<P>], others: &[Rc<P>]) -> bool
    ensures { IsTrue result ↔ (map rc_value some.now ≡ map rc_value others.now) }
{
    if some.len() != others.len() {
        return false;
    }
    for k in 0..some.len() {
        if !some[k].as_ref().same(others[k].as_ref()) {
            return false;
        }
    }
    true
}
